// Which clauses are still to be looked at. What stands here changes only how soon something is found.
ghost use Rattle.std.specs.Prelude.{◌≡◌, ℕ, ◌<◌, ◌+◌, ◌*◌, List, length, IfOk, IfSome, MatchOption};
ghost use Rattle.mig_sat.specs.Models.{IsInRange, IsModel};
ghost use Rattle.mig_sat.specs.Found.{IsFound};
ghost use Rattle.mig_sat.specs.Agendas.{IsPending, ListsFirst, IsThrough, StopsAt, IsShortened};
ghost use Rattle.mig_sat.specs.declared.steps.Step.{Step as OneStep};

use crate::clauses::Cnf;
use crate::listing::{empty_lists, enter_clauses};
use crate::queue::{go_on, list_of_number, queued_list};
use crate::steps::Found;
use crate::trail::Trail;
use mig_base::Seq;
use std::alloc::{AllocError, Global};

/// For each literal the clauses that hold it, by number, and a place in the queue of lists to go through.
///
/// List 0 has all clauses. The queue is list 0, and then for each step the list of the literal that it makes false.
#[derive(Drop)]
pub struct Agenda {
    lists: Vec<Seq<usize>>,
    queued: usize,
    at: usize,
}

impl Agenda {
    /// All clauses are to be looked at, whatever the steps.
    pub fn new(alloc: Global, cnf: &Cnf) -> Result<Agenda, AllocError>
        ensures count { IfOk result (λ a. length a.lists.items ≡ 1 + 2 * cnf.now.vars) }
        ensures lists { IfOk result (λ a. ListsFirst (length cnf.now.clauses) cnf.now.clauses a.lists.items) }
        ensures all { IfOk result (λ a. (steps : List OneStep) (number : ℕ) → number < length cnf.now.clauses → IsPending a steps number) }
    {
        let mut lists = empty_lists(alloc, 1 + 2 * (cnf.vars as usize))?;
        enter_clauses(lists.as_mut_slice(), cnf.clauses.as_slice())?;
        Ok(Agenda {
            lists,
            queued: 0,
            at: 0,
        })
    }

    /// Goes through the queue up to a clause that says something; `None` where none does that was still to be looked at.
    pub fn propagate(&mut self, cnf: &Cnf, trail: &Trail) -> Option<Found>
        requires range { IsInRange cnf.now }
        requires size { trail.now.size ≡ cnf.now.vars }
        ensures found { IfSome result (λ f. IsFound cnf.now.clauses cnf.now.vars (IsModel cnf.now) trail.now.steps f) }
        ensures lists { self.new.lists.items ≡ self.old.lists.items }
        ensures said { MatchOption result (IsThrough cnf.now.clauses self.old trail.now.steps) (λ f. StopsAt cnf.now.clauses self.old self.new trail.now.steps f) }
    {
        for place in self.queued..trail.len() + 1 {
            self.queued = place;
            let list = list_of_number(self.lists.as_slice(), queued_list(trail, place));
            let found = go_on(cnf, list, &mut self.at, trail);
            if found.is_some() {
                return found;
            }
            self.queued = place + 1;
            self.at = 0;
        }
        None
    }

    /// So many steps are left, and the newest may be another: its list is to be gone through from the start.
    pub fn shorten(&mut self, steps: usize)
        ensures lists { self.new.lists.items ≡ self.old.lists.items }
        ensures pending { IsShortened self.old self.new steps }
    {
        if steps <= self.queued {
            self.queued = steps;
            self.at = 0;
        }
    }
}
