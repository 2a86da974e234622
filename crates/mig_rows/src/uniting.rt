// A variable of a body becomes one outside it, since their table's column is unique.
ghost use Rattle.std.specs.Prelude.{◌≡◌, ◌<◌, ◌≤◌, ◌+◌, ◌-◌, ◌++◌, length, slice_get, IfOk};
ghost use Rattle.std.specs.Option.{option_and_then};
ghost use Rattle.mig_algebra.specs.declared.atoms.Atom.TheVariants.{Col};
ghost use Rattle.mig_classes.specs.Classes as class;
ghost use Rattle.mig_replacing.specs.Given as placed;
ghost use Rattle.mig_steps.specs.Seeing.{seen};
ghost use Rattle.mig_rows.specs.Alone as spec;
ghost use Rattle.mig_rows.specs.Writing as writing;

use crate::ranging::is_row;
use crate::writing::lits_into;
use mig_algebra::{Atom, Inner, Invariant, Lit, Var};
use mig_base::{Exact, Seq};
use mig_classes::one_class;
use mig_replacing::spread;
use mig_schema::{ColId, Side};
use mig_steps::{LitRule, Spot, leaving_out, one, push_plain};
use std::alloc::{AllocError, Global};

/// The rule `alone`: a variable of a body becomes one outside it, since their table's column is unique.
#[derive(Drop)]
pub struct Uniting<'a> {
    pub invariants: &'a [Invariant],
}

/// Whether a body binds y, x stands outside it, and both range over a table of a side before the call.
pub(crate) fn is_outside(
    side: Side,
    table: u32,
    y: u32,
    x: u32,
    scope: &[Var],
    vars: &[Var],
) -> bool
    ensures { result ≡ spec.is_outside side table y x scope.now vars.now }
{
    let y = y as usize;
    y >= scope.len()
        && is_row(side, table, vars, y - scope.len())
        && is_row(side, table, scope, x as usize)
}

/// Whether a body's plain literals and those around it equate a column of two variables.
fn are_equal(
    alloc: Global,
    column: u32,
    y: u32,
    x: u32,
    spot: &Spot,
    lits: &[Lit],
) -> Result<bool, AllocError>
    ensures { IfOk result (λ b. b ≡ class.one_class (spot.now.around ++ placed.plain lits.now) (Col y column) (Col x column)) }
{
    let mut around = spot.around.twin(alloc)?;
    push_plain(alloc, &mut around, lits)?;
    let first = Atom::Col { var: y, column };
    let second = Atom::Col { var: x, column };
    let equal = one_class(alloc, around.as_slice(), &first, &second)?;
    Ok(equal)
}

/// A body with x written for y.
fn body_into(
    alloc: Global,
    y: u32,
    x: u32,
    scope: &[Var],
    inner: &Inner,
) -> Result<Inner, AllocError>
    requires bound { length scope.now ≤ y }
    requires within { y < length scope.now + length inner.now.vars }
    ensures { IfOk result (λ b. b ≡ writing.body_into y (y - length scope.now) x inner.now) }
{
    let vars = leaving_out(alloc, inner.vars.as_slice(), y as usize - scope.len())?;
    let lits = lits_into(alloc, y, x, inner.lits.as_slice())?;
    Ok(Inner { vars, lits })
}

/// The alternatives for a body with x written for y.
fn body_alone(
    alloc: Global,
    y: u32,
    x: u32,
    scope: &[Var],
    held: bool,
    inner: &Inner,
) -> Result<Seq<Seq<Lit>>, AllocError>
    requires bound { length scope.now ≤ y }
    requires within { y < length scope.now + length inner.now.vars }
    ensures { IfOk result (λ s. s ≡ spec.body_alone y x scope.now held inner.now.vars inner.now.lits) }
{
    let body = body_into(alloc, y, x, scope, inner)?;
    let bodies = one(alloc, body)?;
    let made = spread(alloc, held, bodies.as_slice())?;
    Ok(Seq::from_vec(made))
}

/// What a body becomes where a column of both variables is unique.
fn alone_at(
    alloc: Global,
    side: Side,
    column: ColId,
    y: u32,
    x: u32,
    spot: &Spot,
    held: bool,
    inner: &Inner,
) -> Result<Option<Seq<Seq<Lit>>>, AllocError>
    ensures { IfOk result (λ o. o ≡ spec.alone_by_column side column y x (seen spot.now) held inner.now.vars inner.now.lits) }
{
    let scope = spot.scope.as_slice();
    if !is_outside(side, column.table, y, x, scope, inner.vars.as_slice()) {
        return Ok(None);
    }
    if !are_equal(alloc, column.column, y, x, spot, inner.lits.as_slice())? {
        return Ok(None);
    }
    let made = body_alone(alloc, y, x, scope, held, inner)?;
    Ok(Some(made))
}

/// What a body becomes by an invariant.
fn alone_by(
    alloc: Global,
    y: u32,
    x: u32,
    spot: &Spot,
    invariant: &Invariant,
    held: bool,
    inner: &Inner,
) -> Result<Option<Seq<Seq<Lit>>>, AllocError>
    ensures { IfOk result (λ o. o ≡ spec.alone_by y x (seen spot.now) invariant.now held inner.now.vars inner.now.lits) }
{
    match invariant {
        Invariant::Unique { side, column } => {
            alone_at(alloc, *side, *column, y, x, spot, held, inner)
        }
        Invariant::Views { .. } | Invariant::Apart { .. } | Invariant::Within { .. } => Ok(None),
    }
}

/// What a literal becomes by an invariant.
fn alone_lit(
    alloc: Global,
    y: u32,
    x: u32,
    spot: &Spot,
    lit: &Lit,
    invariant: &Invariant,
) -> Result<Option<Seq<Seq<Lit>>>, AllocError>
    ensures { IfOk result (λ o. o ≡ spec.alone_lit y x (seen spot.now) lit.now invariant.now) }
{
    match lit {
        Lit::Any { held, inner } => alone_by(alloc, y, x, spot, invariant, *held, inner),
        _ => Ok(None),
    }
}

/// What a literal becomes by the invariant of a number, if there is one.
fn alone(
    alloc: Global,
    invariants: &[Invariant],
    y: u32,
    x: u32,
    k: u32,
    spot: &Spot,
) -> Result<Option<Seq<Seq<Lit>>>, AllocError>
    ensures { IfOk result (λ o. o ≡ option_and_then (spec.alone_lit y x (seen spot.now) spot.now.lit.now) (slice_get invariants.now k)) }
{
    match invariants.get(k as usize) {
        Some(invariant) => alone_lit(alloc, y, x, spot, spot.lit, invariant),
        None => Ok(None),
    }
}

impl<'a> LitRule for Uniting<'a> {
    ghost use Rattle.mig_rows.specs.Alone.{alone};

    ghost gives = { λ r args s. alone r.invariants.now args s };

    fn alternatives(
        &self,
        alloc: Global,
        args: &[u32],
        spot: &Spot,
    ) -> Result<Option<Seq<Seq<Lit>>>, AllocError> {
        match args {
            [y, x, k] => alone(alloc, self.invariants, *y, *x, *k, spot),
            _ => Ok(None),
        }
    }
}
