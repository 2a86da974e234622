// Terms and sums of terms, which stand for bags of rows, and classes of equal values.
use crate::atoms::{Atom, Var};
use crate::literals::Lit;
use mig_base::{Exact, Seq};
use std::alloc::{AllocError, Global};

/// A bag of rows: for each choice of rows for the variables that meets the literals, the row of the head's values.
#[derive(Drop)]
pub struct Term {
    pub vars: Seq<Var>,
    pub lits: Seq<Lit>,
    pub head: Seq<Atom>,
}

/// The sum of the bags of its terms.
#[derive(Drop)]
pub struct Expr {
    pub terms: Seq<Term>,
}

/// Groups of values that are equal.
#[derive(Drop)]
pub struct Classes {
    pub groups: Seq<Seq<Atom>>,
}

impl Exact for Term {
    fn same(&self, other: &Term) -> bool {
        self.vars.same(&other.vars) && self.lits.same(&other.lits) && self.head.same(&other.head)
    }

    fn twin(&self, alloc: Global) -> Result<Term, AllocError> {
        let vars = self.vars.twin(alloc)?;
        let lits = self.lits.twin(alloc)?;
        let head = self.head.twin(alloc)?;
        Ok(Term { vars, lits, head })
    }
}

impl Exact for Expr {
    fn same(&self, other: &Expr) -> bool {
        self.terms.same(&other.terms)
    }

    fn twin(&self, alloc: Global) -> Result<Expr, AllocError> {
        let terms = self.terms.twin(alloc)?;
        Ok(Expr { terms })
    }
}

impl Exact for Classes {
    fn same(&self, other: &Classes) -> bool {
        self.groups.same(&other.groups)
    }

    fn twin(&self, alloc: Global) -> Result<Classes, AllocError> {
        let groups = self.groups.twin(alloc)?;
        Ok(Classes { groups })
    }
}
