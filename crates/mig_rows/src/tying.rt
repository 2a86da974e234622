// Which variables of a term, and which invariants, are tried for the one that goes.
ghost use Rattle.std.specs.Prelude.{◌≡◌, slice_get, IfOk};
ghost use Rattle.mig_rows.specs.Lossless as spec;

use crate::ranging::{are_rows, is_start};
use mig_algebra::{Invariant, Term, Var};
use mig_base::Seq;
use mig_steps::{Front, chosen};
use std::alloc::{AllocError, Global};

/// Whether an invariant of a number is there, and says that a column of y's table is within one of z's.
fn ties(invariants: &[Invariant], vars: &[Var], z: u32, y: u32, k: u32) -> bool
    ensures { result ≡ spec.ties z y vars.now (slice_get invariants.now k) }
{
    match invariants.get(k as usize) {
        Some(invariant) => match invariant {
            Invariant::Within { side, left, right } => are_rows(*side, *right, *left, z, y, vars),
            Invariant::Views { .. } | Invariant::Unique { .. } | Invariant::Apart { .. } => false,
        },
        None => false,
    }
}

/// Whether an invariant of a number is there, and says that a column is unique.
fn tells_rows(invariants: &[Invariant], m: u32) -> bool
    ensures { result ≡ spec.tells_rows (slice_get invariants.now m) }
{
    match invariants.get(m as usize) {
        Some(invariant) => match invariant {
            Invariant::Unique { .. } => true,
            Invariant::Views { .. } | Invariant::Apart { .. } | Invariant::Within { .. } => false,
        },
        None => false,
    }
}

/// Two variables of rows from before the call, and two invariants that tie a column of the first to one of the second, and say that it is unique.
#[derive(Drop)]
struct Tyings<'a> {
    invariants: &'a [Invariant],
    vars: &'a [Var],
}

impl<'a> Front for Tyings<'a> {
    ghost use Rattle.mig_rows.specs.Lossless.{may_lose};

    ghost may = { λ t front. may_lose t.invariants.now t.vars.now front };

    fn goes_on(&self, front: &[u32]) -> bool {
        match front {
            [z] => is_start(self.vars, *z as usize),
            [_, y] => is_start(self.vars, *y as usize),
            [z, y, k] => ties(self.invariants, self.vars, *z, *y, *k),
            [_, _, _, m] => tells_rows(self.invariants, *m),
            _ => false,
        }
    }
}

/// The arguments that are tried for the rule `lossless`, in order: each two of the term's variables of rows from before the call, with each invariant by which a column of the second's table is within one of the first's, and each by which a column is unique. Want of memory is answered too where the invariants and the variables are more together than a usize counts.
pub fn lossless_args(
    alloc: Global,
    invariants: &[Invariant],
    term: &Term,
) -> Result<Seq<Seq<u32>>, AllocError>
    ensures { IfOk result (λ s. s ≡ spec.lossless_args invariants.now term.now) }
{
    let vars = term.vars.as_slice();
    let none = Seq::new(alloc);
    let Some(count) = invariants.len().checked_add(vars.len()) else {
        return Err(AllocError);
    };
    let all = chosen(alloc, &Tyings { invariants, vars }, count, 4, &none)?;
    Ok(Seq::from_vec(all))
}
