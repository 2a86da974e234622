// A term goes that equates two columns that are apart.
ghost use Rattle.std.specs.Prelude.{◌≡◌, slice_get, IfOk};
ghost use Rattle.std.specs.Option.{option_and_then};
ghost use Rattle.mig_rows.specs.Parted as spec;

use crate::ranging::{are_rows, is_start};
use mig_algebra::{Atom, Invariant, Term, Var};
use mig_base::Seq;
use mig_classes::one_class;
use mig_schema::{ColId, Side};
use mig_steps::{Front, TermRule, chosen};
use std::alloc::{AllocError, Global};

/// The rule `apart`: a term goes that equates two columns that are apart.
#[derive(Drop)]
pub struct Parting<'a> {
    pub invariants: &'a [Invariant],
}

/// Whether a term equates two columns of variables that range over their tables.
fn equates(
    alloc: Global,
    side: Side,
    left: ColId,
    right: ColId,
    x: u32,
    y: u32,
    term: &Term,
) -> Result<bool, AllocError>
    ensures { IfOk result (λ b. b ≡ spec.equates side left right x y term.now) }
{
    if !are_rows(side, left, right, x, y, term.vars.as_slice()) {
        return Ok(false);
    }
    let first = Atom::Col {
        var: x,
        column: left.column,
    };
    let second = Atom::Col {
        var: y,
        column: right.column,
    };
    let one = one_class(alloc, term.lits.as_slice(), &first, &second)?;
    Ok(one)
}

/// What a term becomes by an invariant.
fn parted_by(
    alloc: Global,
    x: u32,
    y: u32,
    term: &Term,
    invariant: &Invariant,
) -> Result<Option<Seq<Term>>, AllocError>
    ensures { IfOk result (λ o. o ≡ spec.parted_by x y term.now invariant.now) }
{
    match invariant {
        Invariant::Apart { side, left, right } => {
            if equates(alloc, *side, *left, *right, x, y, term)? {
                Ok(Some(Seq::new(alloc)))
            } else {
                Ok(None)
            }
        }
        Invariant::Views { .. } | Invariant::Unique { .. } | Invariant::Within { .. } => Ok(None),
    }
}

/// What a term becomes by the invariant of a number, if there is one.
fn parted(
    alloc: Global,
    invariants: &[Invariant],
    x: u32,
    y: u32,
    k: u32,
    term: &Term,
) -> Result<Option<Seq<Term>>, AllocError>
    ensures { IfOk result (λ o. o ≡ option_and_then (spec.parted_by x y term.now) (slice_get invariants.now k)) }
{
    match invariants.get(k as usize) {
        Some(invariant) => parted_by(alloc, x, y, term, invariant),
        None => Ok(None),
    }
}

impl<'a> TermRule for Parting<'a> {
    ghost use Rattle.mig_rows.specs.Parted.{parted};

    ghost gives = { λ r args t. parted r.invariants.now args t };

    fn terms(
        &self,
        alloc: Global,
        args: &[u32],
        term: &Term,
    ) -> Result<Option<Seq<Term>>, AllocError> {
        match args {
            [x, y, k] => parted(alloc, self.invariants, *x, *y, *k, term),
            _ => Ok(None),
        }
    }
}

/// Whether an invariant of a number is there, and says that columns of the tables of two variables are apart.
fn parts(invariants: &[Invariant], vars: &[Var], x: u32, y: u32, k: u32) -> bool
    ensures { result ≡ spec.parts vars.now x y (slice_get invariants.now k) }
{
    match invariants.get(k as usize) {
        Some(invariant) => match invariant {
            Invariant::Apart { side, left, right } => are_rows(*side, *left, *right, x, y, vars),
            Invariant::Views { .. } | Invariant::Unique { .. } | Invariant::Within { .. } => false,
        },
        None => false,
    }
}

/// Two variables of rows from before the call, and an invariant that parts columns of their tables.
#[derive(Drop)]
struct Partings<'a> {
    invariants: &'a [Invariant],
    vars: &'a [Var],
}

impl<'a> Front for Partings<'a> {
    ghost use Rattle.mig_rows.specs.Parted.{may_part};

    ghost may = { λ t front. may_part t.invariants.now t.vars.now front };

    fn goes_on(&self, front: &[u32]) -> bool {
        match front {
            [x] => is_start(self.vars, *x as usize),
            [_, y] => is_start(self.vars, *y as usize),
            [x, y, k] => parts(self.invariants, self.vars, *x, *y, *k),
            _ => false,
        }
    }
}

/// The arguments that are tried for the rule `apart`, in order: each two of the term's variables of rows from before the call, with each invariant that parts columns of their tables. Want of memory is answered too where the invariants and the variables are more together than a usize counts.
pub fn apart_args(
    alloc: Global,
    invariants: &[Invariant],
    term: &Term,
) -> Result<Seq<Seq<u32>>, AllocError>
    ensures { IfOk result (λ s. s ≡ spec.apart_args invariants.now term.now) }
{
    let vars = term.vars.as_slice();
    let none = Seq::new(alloc);
    let Some(count) = invariants.len().checked_add(vars.len()) else {
        return Err(AllocError);
    };
    let all = chosen(alloc, &Partings { invariants, vars }, count, 3, &none)?;
    Ok(Seq::from_vec(all))
}
