// What the clauses are under some steps.
ghost use Rattle.std.specs.Prelude.{◌≡◌, ◌⊎◌, MatchBool, All, Any};
ghost use Rattle.mig_sat.specs.Models.{IsInRange, IsModel};
ghost use Rattle.mig_sat.specs.Steps.{IsNotFalse, FollowsAll};
ghost use Rattle.mig_sat.specs.Found.{IsFound, IsUnfollowed};
ghost use Rattle.mig_sat.specs.Agendas.{IsThrough, StopsAt};

use crate::agenda::Agenda;
use crate::clauses::Cnf;
use crate::judging::is_falsified;
use crate::steps::Found;
use crate::trail::Trail;

/// Whether no clause is false.
fn is_unbroken(cnf: &Cnf, trail: &Trail) -> bool
    requires range { IsInRange cnf.now }
    requires size { trail.now.size ≡ cnf.now.vars }
    ensures { MatchBool result (All (Any (IsNotFalse trail.now.steps)) cnf.now.clauses) (IsUnfollowed (IsModel cnf.now) trail.now.steps) }
{
    for clause in cnf.clauses.as_slice() {
        if is_falsified(clause, trail) {
            return false;
        }
    }
    true
}

/// A conflict or a forced literal, if the agenda has one; else the next variable to be chosen; else that the steps are whole.
///
/// Where each variable has a value all clauses are looked at once more, so nothing rests on the agenda.
pub fn look(cnf: &Cnf, agenda: &mut Agenda, trail: &Trail) -> Found
    requires range { IsInRange cnf.now }
    requires size { trail.now.size ≡ cnf.now.vars }
    ensures found { IsFound cnf.now.clauses cnf.now.vars (IsModel cnf.now) trail.now.steps result }
    ensures lists { agenda.new.lists.items ≡ agenda.old.lists.items }
    ensures heeded { IsThrough cnf.now.clauses agenda.old trail.now.steps ⊎ StopsAt cnf.now.clauses agenda.old agenda.new trail.now.steps result }
{
    if let Some(found) = agenda.propagate(cnf, trail) {
        return found;
    }
    match trail.next_free() {
        Some(var) => Found::Free(var),
        None => {
            if is_unbroken(cnf, trail) {
                Found::Full
            } else {
                Found::Conflict
            }
        }
    }
}
