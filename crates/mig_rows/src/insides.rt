// Which variables of bodies are tried, with which they may be tied.
ghost use Rattle.std.specs.Prelude.{◌≡◌, ◌++◌, slice_get, IfOk};
ghost use Rattle.mig_rows.specs.Inside as spec;
ghost use Rattle.mig_rows.specs.Ranging as ranging;

use crate::ranging::{is_inner_start, is_start};
use crate::sparing::are_within;
use mig_algebra::{Inner, Invariant, Lit, Term, Var};
use mig_base::Seq;
use mig_steps::{Front, chosen, spot_at};
use std::alloc::{AllocError, Global};

/// Whether a variable of those outside a body or of the body's own is there, and ranges over rows from before the call.
fn is_start_in(scope: &[Var], vars: &[Var], y: u32) -> bool
    ensures { result ≡ ranging.is_start (slice_get (scope.now ++ vars.now) y) }
{
    let y = y as usize;
    if y < scope.len() {
        is_start(scope, y)
    } else {
        is_start(vars, y - scope.len())
    }
}

/// Whether an invariant of a number is there, and says that a column of y's table is within one of z's.
fn ties(invariants: &[Invariant], scope: &[Var], vars: &[Var], z: u32, y: u32, k: u32) -> bool
    ensures { result ≡ spec.ties_inside scope.now vars.now z y (slice_get invariants.now k) }
{
    match invariants.get(k as usize) {
        Some(invariant) => match invariant {
            Invariant::Within { side, left, right } => {
                are_within(*side, *left, *right, z, y, scope, vars)
            }
            Invariant::Views { .. } | Invariant::Unique { .. } | Invariant::Apart { .. } => false,
        },
        None => false,
    }
}

/// A variable of a body, another one in scope in it, and an invariant by which a column of the one's table is within one of the other's.
#[derive(Drop)]
struct Insides<'a> {
    invariants: &'a [Invariant],
    scope: &'a [Var],
    vars: &'a [Var],
}

impl<'a> Front for Insides<'a> {
    ghost use Rattle.mig_rows.specs.Inside.{may_be_inside};

    ghost may = { λ t front. may_be_inside t.invariants.now t.scope.now t.vars.now front };

    fn goes_on(&self, front: &[u32]) -> bool {
        match front {
            [z] => is_inner_start(self.scope, self.vars, *z),
            [z, y] => *y != *z && is_start_in(self.scope, self.vars, *y),
            [z, y, k] => ties(self.invariants, self.scope, self.vars, *z, *y, *k),
            _ => false,
        }
    }
}

/// The arguments for a body.
fn inside_in(
    alloc: Global,
    invariants: &[Invariant],
    scope: &[Var],
    inner: &Inner,
) -> Result<Seq<Seq<u32>>, AllocError>
    ensures { IfOk result (λ s. s ≡ spec.inside_in invariants.now scope.now inner.now.vars) }
{
    let vars = inner.vars.as_slice();
    let none = Seq::new(alloc);
    let Some(inside) = scope.len().checked_add(vars.len()) else {
        return Err(AllocError);
    };
    let Some(count) = invariants.len().checked_add(inside) else {
        return Err(AllocError);
    };
    let test = Insides {
        invariants,
        scope,
        vars,
    };
    let all = chosen(alloc, &test, count, 3, &none)?;
    Ok(Seq::from_vec(all))
}

/// The arguments for a literal.
fn inside_of(
    alloc: Global,
    invariants: &[Invariant],
    scope: &[Var],
    lit: &Lit,
) -> Result<Seq<Seq<u32>>, AllocError>
    ensures { IfOk result (λ s. s ≡ spec.inside_of invariants.now scope.now lit.now) }
{
    match lit {
        Lit::Any { inner, .. } => {
            let all = inside_in(alloc, invariants, scope, inner)?;
            Ok(all)
        }
        _ => Ok(Seq::new(alloc)),
    }
}

/// The arguments that are tried for the rule `inside` at a path, in order: each variable of the body there with each other one in scope in it, both of rows from before the call, and each invariant by which a column of the other's table is within one of its own. Want of memory is answered too where these are more together than a usize counts.
pub fn inside_args(
    alloc: Global,
    invariants: &[Invariant],
    path: &[u32],
    term: &Term,
) -> Result<Seq<Seq<u32>>, AllocError>
    ensures { IfOk result (λ s. s ≡ spec.inside_args invariants.now path.now term.now) }
{
    let found = spot_at(alloc, term, path)?;
    let Some(spot) = found else {
        return Ok(Seq::new(alloc));
    };
    let all = inside_of(alloc, invariants, spot.scope.as_slice(), spot.lit)?;
    Ok(all)
}
