// A pair of functions, and what is to be shown of it.
use mig_algebra::Expr;
use mig_base::Exact;
use mig_schema::{Function, Schema};
use std::alloc::{AllocError, Global};

/// A function over the old schema, `source`, and the one over the new schema, `target`, that is to do the same.
#[derive(Clone, Copy)]
pub struct Pair<'a> {
    pub source: &'a Schema,
    pub target: &'a Schema,
    pub source_fn: &'a Function,
    pub target_fn: &'a Function,
}

/// Two expressions, of the old and of the new side, that are to have equal bags wherever the facts hold.
#[derive(Drop)]
pub struct Obligation {
    pub source: Expr,
    pub target: Expr,
}

impl Exact for Obligation {
    fn same(&self, other: &Obligation) -> bool {
        self.source.same(&other.source) && self.target.same(&other.target)
    }

    fn twin(&self, alloc: Global) -> Result<Obligation, AllocError> {
        let source = self.source.twin(alloc)?;
        let target = self.target.twin(alloc)?;
        Ok(Obligation { source, target })
    }
}
