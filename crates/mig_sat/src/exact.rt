// Equality and copies of clauses and models.
use crate::clauses::{Cnf, Model, SatLit};
use mig_base::Exact;
use std::alloc::{AllocError, Global};

impl Exact for SatLit {
    fn same(&self, other: &SatLit) -> bool {
        self.var == other.var && self.positive == other.positive
    }

    fn twin(&self, _alloc: Global) -> Result<SatLit, AllocError> {
        Ok(*self)
    }
}

impl Exact for Cnf {
    fn same(&self, other: &Cnf) -> bool {
        self.vars == other.vars && self.clauses.same(&other.clauses)
    }

    fn twin(&self, alloc: Global) -> Result<Cnf, AllocError> {
        let clauses = self.clauses.twin(alloc)?;
        Ok(Cnf {
            vars: self.vars,
            clauses,
        })
    }
}

impl Exact for Model {
    fn same(&self, other: &Model) -> bool {
        self.values.same(&other.values)
    }

    fn twin(&self, alloc: Global) -> Result<Model, AllocError> {
        let values = self.values.twin(alloc)?;
        Ok(Model { values })
    }
}
