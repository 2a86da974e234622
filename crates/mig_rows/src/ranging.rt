// Which variables range over the rows of a table before the call.
ghost use Rattle.std.specs.Prelude.{◌≡◌, slice_get};
ghost use Rattle.mig_algebra.specs.Proper.{same_side as one_side};
ghost use Rattle.mig_rows.specs.Ranging as spec;

use mig_algebra::Var;
use mig_schema::{ColId, Side};

/// Whether two sides are one.
pub(crate) fn same_side(left: Side, right: Side) -> bool
    ensures { result ≡ one_side left right }
{
    match (left, right) {
        (Side::Old, Side::Old) | (Side::New, Side::New) => true,
        _ => false,
    }
}

/// Whether a variable of a number is there, and ranges over a table of a side before the call.
pub(crate) fn is_row(side: Side, table: u32, vars: &[Var], at: usize) -> bool
    ensures { result ≡ spec.is_row side table (slice_get vars.now at) }
{
    match vars.get(at) {
        Some(var) => same_side(var.side, side) && var.table == table && var.stage == 0,
        None => false,
    }
}

/// Whether two variables range over the tables of two columns of a side before the call.
pub(crate) fn are_rows(side: Side, left: ColId, right: ColId, x: u32, y: u32, vars: &[Var]) -> bool
    ensures { result ≡ spec.are_rows side left right x y vars.now }
{
    is_row(side, left.table, vars, x as usize) && is_row(side, right.table, vars, y as usize)
}

/// Whether a variable of a number is there, and ranges over rows from before the call.
pub(crate) fn is_start(vars: &[Var], at: usize) -> bool
    ensures { result ≡ spec.is_start (slice_get vars.now at) }
{
    match vars.get(at) {
        Some(var) => var.stage == 0,
        None => false,
    }
}

/// Whether a body binds a variable, and it ranges over rows from before the call.
pub(crate) fn is_inner_start(scope: &[Var], vars: &[Var], y: u32) -> bool
    ensures { result ≡ spec.is_inner_start scope.now vars.now y }
{
    let y = y as usize;
    y >= scope.len() && is_start(vars, y - scope.len())
}
