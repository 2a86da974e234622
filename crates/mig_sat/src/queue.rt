// The lists of clauses that a search goes through.
ghost use Rattle.std.specs.Prelude.{◌≡◌, [], length, slice_index_or, IfSome, MatchOption};
ghost use Rattle.mig_sat.specs.Models.{IsInRange, IsModel};
ghost use Rattle.mig_sat.specs.Found.{IsFound};
ghost use Rattle.mig_sat.specs.Agendas.{list_at, AreSilent, StopsBehind};

use crate::clauses::{Cnf, SatLit};
use crate::judging::told;
use crate::listing::list_of;
use crate::steps::Found;
use crate::trail::Trail;
use mig_base::Seq;

/// The number of the list at a place of the queue.
pub fn queued_list(trail: &Trail, place: usize) -> usize
    ensures { result ≡ list_at trail.now.steps place }
{
    if place == 0 {
        return 0;
    }
    match trail.lit(place - 1) {
        None => 0,
        Some(lit) => list_of(SatLit {
            var: lit.var,
            positive: !lit.positive,
        }),
    }
}

/// The list of this number; an empty one where there is none.
pub fn list_of_number(lists: &[Seq<usize>], number: usize) -> &[usize]
    ensures { result.now ≡ slice_index_or lists.now number [] }
{
    match lists.get(number) {
        None => &[],
        Some(list) => list.as_slice(),
    }
}

/// Goes through a list from an index on, up to a clause that says something; the index is then the next one.
pub fn go_on(cnf: &Cnf, list: &[usize], at: &mut usize, trail: &Trail) -> Option<Found>
    requires range { IsInRange cnf.now }
    requires size { trail.now.size ≡ cnf.now.vars }
    ensures found { IfSome result (λ f. IsFound cnf.now.clauses cnf.now.vars (IsModel cnf.now) trail.now.steps f) }
    ensures said { MatchOption result (AreSilent cnf.now.clauses trail.now.steps list.now at.old (length list.now)) (λ f. StopsBehind cnf.now.clauses trail.now.steps list.now at.old at.new f) }
{
    for index in *at..list.len() {
        *at = index + 1;
        let found = told(cnf, list[index], trail);
        if found.is_some() {
            return found;
        }
    }
    None
}
