// The literal that is true where another is not.
ghost use Rattle.std.specs.Prelude.{◌≡◌, IfOk};
ghost use Rattle.mig_classes.specs.Given as spec;

use mig_algebra::{Lit, oriented};
use mig_base::Exact;
use mig_schema::Op;
use std::alloc::{AllocError, Global};

/// The operator that is true where this one is not.
pub(crate) fn negated(op: Op) -> Op
    ensures { result ≡ spec.negated op }
{
    match op {
        Op::Eq => Op::Ne,
        Op::Ne => Op::Eq,
        Op::Lt => Op::Ge,
        Op::Le => Op::Gt,
        Op::Gt => Op::Le,
        Op::Ge => Op::Lt,
    }
}

/// Whether a literal has a complement: a comparison or a body has one, an `Other` has none.
pub fn has_complement(lit: &Lit) -> bool
    ensures { result ≡ spec.has_complement lit.now }
{
    match lit {
        Lit::Cmp { .. } | Lit::Any { .. } => true,
        Lit::Other { .. } => false,
    }
}

/// The literal that is true exactly where this comparison or body is not; a comparison is oriented. An `Other` has none, and is copied. The only error is want of memory.
pub fn complement(alloc: Global, lit: &Lit) -> Result<Lit, AllocError>
    ensures { IfOk result (λ l. l ≡ spec.complement lit.now) }
{
    match lit {
        Lit::Cmp { op, left, right } => {
            let left = left.twin(alloc)?;
            let right = right.twin(alloc)?;
            Ok(oriented(negated(*op), left, right))
        }
        Lit::Other { left, right } => Ok(Lit::Other {
            left: *left,
            right: *right,
        }),
        Lit::Any { held, inner } => {
            let inner = inner.twin(alloc)?;
            Ok(Lit::Any {
                held: !*held,
                inner,
            })
        }
    }
}
