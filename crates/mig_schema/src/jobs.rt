// Jobs: an old and a new schema, a program over the old one, and hints.
use crate::programs::Program;
use crate::tables::{ColId, Schema};
use mig_base::{Exact, Seq};
use std::alloc::{AllocError, Global};

/// A column of the old schema that is likely to move to a column of the new one, and by what weight.
#[derive(Clone, Copy, Debug, PartialEq, Eq)]
pub struct Hint {
    pub source: ColId,
    pub target: ColId,
    pub weight: u32,
}

/// What is to be migrated: the program stands over the schema `source`.
#[derive(Debug, Drop)]
pub struct Job {
    pub source: Schema,
    pub target: Schema,
    pub program: Program,
    pub hints: Seq<Hint>,
}

impl Exact for Hint {
    fn same(&self, other: &Hint) -> bool {
        *self == *other
    }

    fn twin(&self, _alloc: Global) -> Result<Hint, AllocError> {
        Ok(*self)
    }
}

impl Exact for Job {
    fn same(&self, other: &Job) -> bool {
        self.source.same(&other.source)
            && self.target.same(&other.target)
            && self.program.same(&other.program)
            && self.hints.same(&other.hints)
    }

    fn twin(&self, alloc: Global) -> Result<Job, AllocError> {
        let source = self.source.twin(alloc)?;
        let target = self.target.twin(alloc)?;
        let program = self.program.twin(alloc)?;
        let hints = self.hints.twin(alloc)?;
        Ok(Job {
            source,
            target,
            program,
            hints,
        })
    }
}
