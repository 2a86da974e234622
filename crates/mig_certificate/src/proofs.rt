// What a certificate says: invariants, and for each pair of functions what was shown by which steps.
use mig_algebra::Invariants;
use mig_base::{Exact, Seq, Txt};
use mig_rules::Step;
use std::alloc::{AllocError, Global};

/// What an entry shows.
#[derive(Clone, Copy, Debug, PartialEq, Eq)]
pub enum Claim {
    /// The invariant of this number, from 0, holds after the updates.
    Holds(u32),
    /// The queries answer alike.
    Answers,
}

/// A claim, and the steps by which the expressions of the old and of the new side come to the same.
#[derive(Debug, Drop)]
pub struct Entry {
    pub claim: Claim,
    pub source: Seq<Step>,
    pub target: Seq<Step>,
}

/// What is shown of the two functions of this name.
#[derive(Debug, Drop)]
pub struct PairProof {
    pub name: Txt,
    pub entries: Seq<Entry>,
}

/// Invariants, and for each function of the program, in order, what shows that it keeps them or answers alike.
#[derive(Debug, Drop)]
pub struct Certificate {
    pub invariants: Invariants,
    pub pairs: Seq<PairProof>,
}

impl Exact for Claim {
    fn same(&self, other: &Claim) -> bool {
        *self == *other
    }

    fn twin(&self, _alloc: Global) -> Result<Claim, AllocError> {
        Ok(*self)
    }
}

impl Exact for Entry {
    fn same(&self, other: &Entry) -> bool {
        self.claim == other.claim
            && self.source.same(&other.source)
            && self.target.same(&other.target)
    }

    fn twin(&self, alloc: Global) -> Result<Entry, AllocError> {
        let source = self.source.twin(alloc)?;
        let target = self.target.twin(alloc)?;
        Ok(Entry {
            claim: self.claim,
            source,
            target,
        })
    }
}

impl Exact for PairProof {
    fn same(&self, other: &PairProof) -> bool {
        self.name.same(&other.name) && self.entries.same(&other.entries)
    }

    fn twin(&self, alloc: Global) -> Result<PairProof, AllocError> {
        let name = self.name.twin(alloc)?;
        let entries = self.entries.twin(alloc)?;
        Ok(PairProof { name, entries })
    }
}

impl Exact for Certificate {
    fn same(&self, other: &Certificate) -> bool {
        self.invariants.same(&other.invariants) && self.pairs.same(&other.pairs)
    }

    fn twin(&self, alloc: Global) -> Result<Certificate, AllocError> {
        let invariants = self.invariants.twin(alloc)?;
        let pairs = self.pairs.twin(alloc)?;
        Ok(Certificate { invariants, pairs })
    }
}
