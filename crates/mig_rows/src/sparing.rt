// A variable of a body goes that one equality alone names, since some row meets it in any case.
ghost use Rattle.std.specs.Prelude.{◌≡◌, ◌≤◌, ◌<◌, ◌+◌, ◌-◌, ◌++◌, length, slice_get, IfOk};
ghost use Rattle.std.specs.Option.{option_and_then};
ghost use Rattle.mig_steps.specs.Seeing.{seen};
ghost use Rattle.mig_rows.specs.Inside as spec;
ghost use Rattle.mig_rows.specs.Naming as naming;
ghost use Rattle.mig_rows.specs.Ranging as ranging;

use crate::naming::{Tie, first_naming, names_once};
use crate::ranging::is_row;
use crate::writing::lits_left;
use mig_algebra::{Inner, Invariant, Lit, Var};
use mig_base::Seq;
use mig_replacing::spread;
use mig_schema::{ColId, Side};
use mig_steps::{LitRule, Spot, leaving_out, one};
use std::alloc::{AllocError, Global};

/// The rule `inside`: a variable of a body goes that one equality alone names, since some row meets it in any case.
#[derive(Drop)]
pub struct Sparing<'a> {
    pub invariants: &'a [Invariant],
}

/// Whether a variable of those outside a body or of the body's own ranges over a table of a side before the call.
fn is_row_in(side: Side, table: u32, scope: &[Var], vars: &[Var], y: u32) -> bool
    ensures { result ≡ ranging.is_row side table (slice_get (scope.now ++ vars.now) y) }
{
    let y = y as usize;
    if y < scope.len() {
        is_row(side, table, scope, y)
    } else {
        is_row(side, table, vars, y - scope.len())
    }
}

/// Whether a body binds z, y is another variable in scope in it, and they range over the tables of two columns of a side before the call.
pub(crate) fn are_within(
    side: Side,
    left: ColId,
    right: ColId,
    z: u32,
    y: u32,
    scope: &[Var],
    vars: &[Var],
) -> bool
    ensures { result ≡ spec.are_within side left right z y scope.now vars.now }
{
    let own = z as usize;
    own >= scope.len()
        && y != z
        && is_row(side, right.table, vars, own - scope.len())
        && is_row_in(side, left.table, scope, vars, y)
}

/// A body without a variable and the literal that names it.
fn body_left(alloc: Global, z: u32, scope: &[Var], inner: &Inner) -> Result<Inner, AllocError>
    requires bound { length scope.now ≤ z }
    requires within { z < length scope.now + length inner.now.vars }
    requires named { naming.first_naming z inner.now.lits < length inner.now.lits }
    ensures { IfOk result (λ b. b ≡ spec.body_left z (z - length scope.now) inner.now) }
{
    let at = first_naming(z, inner.lits.as_slice());
    let vars = leaving_out(alloc, inner.vars.as_slice(), z as usize - scope.len())?;
    let lits = lits_left(alloc, z, at, inner.lits.as_slice())?;
    Ok(Inner { vars, lits })
}

/// The alternatives for a body without a variable.
fn body_inside(
    alloc: Global,
    z: u32,
    scope: &[Var],
    held: bool,
    inner: &Inner,
) -> Result<Seq<Seq<Lit>>, AllocError>
    requires bound { length scope.now ≤ z }
    requires within { z < length scope.now + length inner.now.vars }
    requires named { naming.first_naming z inner.now.lits < length inner.now.lits }
    ensures { IfOk result (λ s. s ≡ spec.body_inside z scope.now held inner.now.vars inner.now.lits) }
{
    let body = body_left(alloc, z, scope, inner)?;
    let bodies = one(alloc, body)?;
    let made = spread(alloc, held, bodies.as_slice())?;
    Ok(Seq::from_vec(made))
}

/// Whether one equality alone names z in a body, and ties its column to that of y.
fn is_tied(
    alloc: Global,
    left: u32,
    right: u32,
    z: u32,
    y: u32,
    spot: &Spot,
    inner: &Inner,
) -> Result<bool, AllocError>
    ensures { IfOk result (λ b. b ≡ naming.names_once spot.now.around z right y left inner.now.lits) }
{
    let tie = Tie {
        gone: z,
        column: right,
        other: y,
        other_column: left,
    };
    let once = names_once(alloc, spot.around.as_slice(), tie, inner.lits.as_slice())?;
    Ok(once)
}

/// What a body becomes where the left column is within the right one.
fn inside_at(
    alloc: Global,
    side: Side,
    left: ColId,
    right: ColId,
    z: u32,
    y: u32,
    spot: &Spot,
    held: bool,
    inner: &Inner,
) -> Result<Option<Seq<Seq<Lit>>>, AllocError>
    ensures { IfOk result (λ o. o ≡ spec.inside_by_columns side left right z y (seen spot.now) held inner.now.vars inner.now.lits) }
{
    let scope = spot.scope.as_slice();
    if !are_within(side, left, right, z, y, scope, inner.vars.as_slice()) {
        return Ok(None);
    }
    if !is_tied(alloc, left.column, right.column, z, y, spot, inner)? {
        return Ok(None);
    }
    let made = body_inside(alloc, z, scope, held, inner)?;
    Ok(Some(made))
}

/// What a body becomes by an invariant.
fn inside_by(
    alloc: Global,
    z: u32,
    y: u32,
    spot: &Spot,
    invariant: &Invariant,
    held: bool,
    inner: &Inner,
) -> Result<Option<Seq<Seq<Lit>>>, AllocError>
    ensures { IfOk result (λ o. o ≡ spec.inside_by z y (seen spot.now) invariant.now held inner.now.vars inner.now.lits) }
{
    match invariant {
        Invariant::Within { side, left, right } => {
            inside_at(alloc, *side, *left, *right, z, y, spot, held, inner)
        }
        Invariant::Views { .. } | Invariant::Unique { .. } | Invariant::Apart { .. } => Ok(None),
    }
}

/// What a literal becomes by an invariant.
fn inside_lit(
    alloc: Global,
    z: u32,
    y: u32,
    spot: &Spot,
    lit: &Lit,
    invariant: &Invariant,
) -> Result<Option<Seq<Seq<Lit>>>, AllocError>
    ensures { IfOk result (λ o. o ≡ spec.inside_lit z y (seen spot.now) lit.now invariant.now) }
{
    match lit {
        Lit::Any { held, inner } => inside_by(alloc, z, y, spot, invariant, *held, inner),
        _ => Ok(None),
    }
}

/// What a literal becomes by the invariant of a number, if there is one.
fn inside(
    alloc: Global,
    invariants: &[Invariant],
    z: u32,
    y: u32,
    k: u32,
    spot: &Spot,
) -> Result<Option<Seq<Seq<Lit>>>, AllocError>
    ensures { IfOk result (λ o. o ≡ option_and_then (spec.inside_lit z y (seen spot.now) spot.now.lit.now) (slice_get invariants.now k)) }
{
    match invariants.get(k as usize) {
        Some(invariant) => inside_lit(alloc, z, y, spot, spot.lit, invariant),
        None => Ok(None),
    }
}

impl<'a> LitRule for Sparing<'a> {
    ghost use Rattle.mig_rows.specs.Inside.{inside};

    ghost gives = { λ r args s. inside r.invariants.now args s };

    fn alternatives(
        &self,
        alloc: Global,
        args: &[u32],
        spot: &Spot,
    ) -> Result<Option<Seq<Seq<Lit>>>, AllocError> {
        match args {
            [z, y, k] => inside(alloc, self.invariants, *z, *y, *k, spot),
            _ => Ok(None),
        }
    }
}
