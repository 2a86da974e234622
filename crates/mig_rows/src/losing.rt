// A variable of a term goes that one equality alone names, since exactly one row meets it.
ghost use Rattle.std.specs.Prelude.{◌≡◌, ◌<◌, slice_get, length, IfOk};
ghost use Rattle.std.specs.Option.{option_and_then};
ghost use Rattle.mig_schema.specs.Columns.{same_col};
ghost use Rattle.mig_rows.specs.Lossless as spec;
ghost use Rattle.mig_rows.specs.Naming as naming;

use crate::naming::{Tie, first_naming, head_avoids, names_once};
use crate::ranging::{are_rows, same_side};
use crate::writing::{head_into, lits_left};
use mig_algebra::{Invariant, Term};
use mig_base::Seq;
use mig_schema::{ColId, Side};
use mig_steps::{TermRule, leaving_out, one};
use std::alloc::{AllocError, Global};

/// The rule `lossless`: a variable of a term goes that one equality alone names, since exactly one row meets it.
#[derive(Drop)]
pub struct Losing<'a> {
    pub invariants: &'a [Invariant],
}

/// A term without a variable and the literal that names it.
fn term_left(alloc: Global, gone: u32, term: &Term) -> Result<Term, AllocError>
    requires own { gone < length term.now.vars }
    requires named { naming.first_naming gone term.now.lits < length term.now.lits }
    ensures { IfOk result (λ t. t ≡ spec.term_left gone term.now) }
{
    let at = first_naming(gone, term.lits.as_slice());
    let vars = leaving_out(alloc, term.vars.as_slice(), gone as usize)?;
    let lits = lits_left(alloc, gone, at, term.lits.as_slice())?;
    let head = head_into(alloc, gone, gone, term.head.as_slice())?;
    Ok(Term { vars, lits, head })
}

/// Whether two variables are two, and an equality alone names the first, and ties its column to that of the second.
fn is_partner(
    alloc: Global,
    z: u32,
    y: u32,
    column: u32,
    other: u32,
    term: &Term,
) -> Result<bool, AllocError>
    ensures { IfOk result (λ b. b ≡ spec.is_partner z y column other term.now) }
{
    if y == z || !head_avoids(z, term.head.as_slice()) {
        return Ok(false);
    }
    let tie = Tie {
        gone: z,
        column,
        other: y,
        other_column: other,
    };
    let once = names_once(alloc, &[], tie, term.lits.as_slice())?;
    Ok(once)
}

/// Whether two columns are one.
fn same_column(left: ColId, right: ColId) -> bool
    ensures { result ≡ same_col left right }
{
    left.table == right.table && left.column == right.column
}

/// Whether an invariant says that a column of a side is unique.
fn is_unique(side: Side, column: ColId, invariant: &Invariant) -> bool
    ensures { result ≡ spec.is_unique side column invariant.now }
{
    match invariant {
        Invariant::Unique {
            side: other_side,
            column: other,
        } => same_side(*other_side, side) && same_column(*other, column),
        Invariant::Views { .. } | Invariant::Apart { .. } | Invariant::Within { .. } => false,
    }
}

/// The term without z, where the left column is within the right one.
fn lossless_at(
    alloc: Global,
    side: Side,
    left: ColId,
    right: ColId,
    z: u32,
    y: u32,
    term: &Term,
) -> Result<Option<Seq<Term>>, AllocError>
    ensures { IfOk result (λ o. o ≡ spec.lossless_at side left right z y term.now) }
{
    if !are_rows(side, right, left, z, y, term.vars.as_slice()) {
        return Ok(None);
    }
    if !is_partner(alloc, z, y, right.column, left.column, term)? {
        return Ok(None);
    }
    let term = term_left(alloc, z, term)?;
    let terms = one(alloc, term)?;
    Ok(Some(terms))
}

/// What a term becomes by two invariants.
fn lossless_by(
    alloc: Global,
    z: u32,
    y: u32,
    term: &Term,
    invariant: &Invariant,
    other: &Invariant,
) -> Result<Option<Seq<Term>>, AllocError>
    ensures { IfOk result (λ o. o ≡ spec.lossless_by z y term.now invariant.now other.now) }
{
    match invariant {
        Invariant::Within { side, left, right } => {
            if !is_unique(*side, *right, other) {
                return Ok(None);
            }
            let terms = lossless_at(alloc, *side, *left, *right, z, y, term)?;
            Ok(terms)
        }
        Invariant::Views { .. } | Invariant::Unique { .. } | Invariant::Apart { .. } => Ok(None),
    }
}

/// What a term becomes by the invariants of two numbers, if there are such.
fn lossless(
    alloc: Global,
    invariants: &[Invariant],
    z: u32,
    y: u32,
    k: u32,
    m: u32,
    term: &Term,
) -> Result<Option<Seq<Term>>, AllocError>
    ensures { IfOk result (λ o. o ≡ option_and_then (λ inv. option_and_then (spec.lossless_by z y term.now inv) (slice_get invariants.now m)) (slice_get invariants.now k)) }
{
    let Some(invariant) = invariants.get(k as usize) else {
        return Ok(None);
    };
    let Some(other) = invariants.get(m as usize) else {
        return Ok(None);
    };
    let terms = lossless_by(alloc, z, y, term, invariant, other)?;
    Ok(terms)
}

impl<'a> TermRule for Losing<'a> {
    ghost use Rattle.mig_rows.specs.Lossless.{lossless};

    ghost gives = { λ r args t. lossless r.invariants.now args t };

    fn terms(
        &self,
        alloc: Global,
        args: &[u32],
        term: &Term,
    ) -> Result<Option<Seq<Term>>, AllocError> {
        match args {
            [z, y, k, m] => lossless(alloc, self.invariants, *z, *y, *k, *m, term),
            _ => Ok(None),
        }
    }
}
