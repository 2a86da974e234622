// Two variables of a term become one, since their table's column is unique.
ghost use Rattle.std.specs.Prelude.{◌≡◌, slice_get, IfOk};
ghost use Rattle.std.specs.Option.{option_and_then};
ghost use Rattle.mig_rows.specs.Merged as spec;

use crate::ranging::{are_rows, is_start};
use crate::writing::term_into;
use mig_algebra::{Atom, Invariant, Term, Var};
use mig_base::Seq;
use mig_classes::one_class;
use mig_schema::{ColId, Side};
use mig_steps::{Front, TermRule, chosen, one};
use std::alloc::{AllocError, Global};

/// The rule `merge`: two variables of a term become one, since their table's column is unique.
#[derive(Drop)]
pub struct Merging<'a> {
    pub invariants: &'a [Invariant],
}

/// Whether a term equates a column of two variables that range over its table, of which the first has the lesser number.
fn are_one(
    alloc: Global,
    side: Side,
    column: ColId,
    x: u32,
    y: u32,
    term: &Term,
) -> Result<bool, AllocError>
    ensures { IfOk result (λ b. b ≡ spec.are_one side column x y term.now) }
{
    if x >= y || !are_rows(side, column, column, x, y, term.vars.as_slice()) {
        return Ok(false);
    }
    let first = Atom::Col {
        var: x,
        column: column.column,
    };
    let second = Atom::Col {
        var: y,
        column: column.column,
    };
    let one = one_class(alloc, term.lits.as_slice(), &first, &second)?;
    Ok(one)
}

/// The term with x written for y, where a column of both is unique.
fn merged_at(
    alloc: Global,
    side: Side,
    column: ColId,
    x: u32,
    y: u32,
    term: &Term,
) -> Result<Option<Seq<Term>>, AllocError>
    ensures { IfOk result (λ o. o ≡ spec.merged_at side column x y term.now) }
{
    if !are_one(alloc, side, column, x, y, term)? {
        return Ok(None);
    }
    let merged = term_into(alloc, y, x, term)?;
    let terms = one(alloc, merged)?;
    Ok(Some(terms))
}

/// What a term becomes by an invariant.
fn merged_by(
    alloc: Global,
    x: u32,
    y: u32,
    term: &Term,
    invariant: &Invariant,
) -> Result<Option<Seq<Term>>, AllocError>
    ensures { IfOk result (λ o. o ≡ spec.merged_by x y term.now invariant.now) }
{
    match invariant {
        Invariant::Unique { side, column } => merged_at(alloc, *side, *column, x, y, term),
        Invariant::Views { .. } | Invariant::Apart { .. } | Invariant::Within { .. } => Ok(None),
    }
}

/// What a term becomes by the invariant of a number, if there is one.
fn merged(
    alloc: Global,
    invariants: &[Invariant],
    x: u32,
    y: u32,
    k: u32,
    term: &Term,
) -> Result<Option<Seq<Term>>, AllocError>
    ensures { IfOk result (λ o. o ≡ option_and_then (spec.merged_by x y term.now) (slice_get invariants.now k)) }
{
    match invariants.get(k as usize) {
        Some(invariant) => merged_by(alloc, x, y, term, invariant),
        None => Ok(None),
    }
}

impl<'a> TermRule for Merging<'a> {
    ghost use Rattle.mig_rows.specs.Merged.{merged};

    ghost gives = { λ r args t. merged r.invariants.now args t };

    fn terms(
        &self,
        alloc: Global,
        args: &[u32],
        term: &Term,
    ) -> Result<Option<Seq<Term>>, AllocError> {
        match args {
            [x, y, k] => merged(alloc, self.invariants, *x, *y, *k, term),
            _ => Ok(None),
        }
    }
}

/// Whether an invariant of a number is there, and says that a column of the table of two variables is unique.
fn tells(invariants: &[Invariant], vars: &[Var], x: u32, y: u32, k: u32) -> bool
    ensures { result ≡ spec.tells vars.now x y (slice_get invariants.now k) }
{
    match invariants.get(k as usize) {
        Some(invariant) => match invariant {
            Invariant::Unique { side, column } => are_rows(*side, *column, *column, x, y, vars),
            Invariant::Views { .. } | Invariant::Apart { .. } | Invariant::Within { .. } => false,
        },
        None => false,
    }
}

/// Two variables of rows from before the call, the lesser first, and an invariant by which a column of their table is unique.
#[derive(Drop)]
struct Mergings<'a> {
    invariants: &'a [Invariant],
    vars: &'a [Var],
}

impl<'a> Front for Mergings<'a> {
    ghost use Rattle.mig_rows.specs.Merged.{may_merge};

    ghost may = { λ t front. may_merge t.invariants.now t.vars.now front };

    fn goes_on(&self, front: &[u32]) -> bool {
        match front {
            [x] => is_start(self.vars, *x as usize),
            [x, y] => *x < *y && is_start(self.vars, *y as usize),
            [x, y, k] => tells(self.invariants, self.vars, *x, *y, *k),
            _ => false,
        }
    }
}

/// The arguments that are tried for the rule `merge`, in order: each two of the term's variables of rows from before the call, the lesser first, with each invariant by which a column of their table is unique. Want of memory is answered too where the invariants and the variables are more together than a usize counts.
pub fn merge_args(
    alloc: Global,
    invariants: &[Invariant],
    term: &Term,
) -> Result<Seq<Seq<u32>>, AllocError>
    ensures { IfOk result (λ s. s ≡ spec.merge_args invariants.now term.now) }
{
    let vars = term.vars.as_slice();
    let none = Seq::new(alloc);
    let Some(count) = invariants.len().checked_add(vars.len()) else {
        return Err(AllocError);
    };
    let all = chosen(alloc, &Mergings { invariants, vars }, count, 3, &none)?;
    Ok(Seq::from_vec(all))
}
