// Which variables of bodies are tried with which outside them.
ghost use Rattle.std.specs.Prelude.{◌≡◌, slice_get, IfOk};
ghost use Rattle.mig_rows.specs.Alone as spec;

use crate::ranging::{is_inner_start, is_start};
use crate::uniting::is_outside;
use mig_algebra::{Inner, Invariant, Lit, Term, Var};
use mig_base::Seq;
use mig_steps::{Front, chosen, spot_at};
use std::alloc::{AllocError, Global};

/// Whether an invariant of a number is there, and says that a column of the table of a body's variable and of one outside it is unique.
fn tells(invariants: &[Invariant], scope: &[Var], vars: &[Var], y: u32, x: u32, k: u32) -> bool
    ensures { result ≡ spec.tells_outside scope.now vars.now y x (slice_get invariants.now k) }
{
    match invariants.get(k as usize) {
        Some(invariant) => match invariant {
            Invariant::Unique { side, column } => {
                is_outside(*side, column.table, y, x, scope, vars)
            }
            Invariant::Views { .. } | Invariant::Apart { .. } | Invariant::Within { .. } => false,
        },
        None => false,
    }
}

/// A variable of a body, one outside it, and an invariant by which a column of their table is unique.
#[derive(Drop)]
struct Unions<'a> {
    invariants: &'a [Invariant],
    scope: &'a [Var],
    vars: &'a [Var],
}

impl<'a> Front for Unions<'a> {
    ghost use Rattle.mig_rows.specs.Alone.{may_be_alone};

    ghost may = { λ t front. may_be_alone t.invariants.now t.scope.now t.vars.now front };

    fn goes_on(&self, front: &[u32]) -> bool {
        match front {
            [y] => is_inner_start(self.scope, self.vars, *y),
            [_, x] => is_start(self.scope, *x as usize),
            [y, x, k] => tells(self.invariants, self.scope, self.vars, *y, *x, *k),
            _ => false,
        }
    }
}

/// The arguments for a body.
fn alone_in(
    alloc: Global,
    invariants: &[Invariant],
    scope: &[Var],
    inner: &Inner,
) -> Result<Seq<Seq<u32>>, AllocError>
    ensures { IfOk result (λ s. s ≡ spec.alone_in invariants.now scope.now inner.now.vars) }
{
    let vars = inner.vars.as_slice();
    let none = Seq::new(alloc);
    let Some(inside) = scope.len().checked_add(vars.len()) else {
        return Err(AllocError);
    };
    let Some(count) = invariants.len().checked_add(inside) else {
        return Err(AllocError);
    };
    let test = Unions {
        invariants,
        scope,
        vars,
    };
    let all = chosen(alloc, &test, count, 3, &none)?;
    Ok(Seq::from_vec(all))
}

/// The arguments for a literal.
fn alone_of(
    alloc: Global,
    invariants: &[Invariant],
    scope: &[Var],
    lit: &Lit,
) -> Result<Seq<Seq<u32>>, AllocError>
    ensures { IfOk result (λ s. s ≡ spec.alone_of invariants.now scope.now lit.now) }
{
    match lit {
        Lit::Any { inner, .. } => {
            let all = alone_in(alloc, invariants, scope, inner)?;
            Ok(all)
        }
        _ => Ok(Seq::new(alloc)),
    }
}

/// The arguments that are tried for the rule `alone` at a path, in order: each variable of the body there with each outside it, both of rows from before the call, and each invariant by which a column of their table is unique. Want of memory is answered too where these are more together than a usize counts.
pub fn alone_args(
    alloc: Global,
    invariants: &[Invariant],
    path: &[u32],
    term: &Term,
) -> Result<Seq<Seq<u32>>, AllocError>
    ensures { IfOk result (λ s. s ≡ spec.alone_args invariants.now path.now term.now) }
{
    let found = spot_at(alloc, term, path)?;
    let Some(spot) = found else {
        return Ok(Seq::new(alloc));
    };
    let all = alone_of(alloc, invariants, spot.scope.as_slice(), spot.lit)?;
    Ok(all)
}
