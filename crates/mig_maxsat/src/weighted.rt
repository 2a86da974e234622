// Clauses whose variables have weights.
ghost use Rattle.std.specs.Prelude.{◌↔◌, ◌<◌, ◌^◌, IsTrue};
ghost use Rattle.mig_maxsat.specs.Heaviest.{IsSound, magnitude};

use mig_base::{Exact, Seq};
use mig_sat::Cnf;
use std::alloc::{AllocError, Global};

/// More than the absolute values may sum to: 2^62.
const LIMIT: u64 = 4_611_686_018_427_387_904;

/// Clauses that a model must meet, and for each variable what it weighs where it is true.
#[derive(Debug, Drop)]
pub struct Weighted {
    pub hard: Cnf,
    pub weights: Seq<i64>,
}

/// Whether the absolute values sum below 2^62.
fn is_light(weights: &[i64]) -> bool
    ensures { IsTrue result ↔ (magnitude weights.now < 2 ^ 62) }
{
    let mut left = LIMIT;
    for weight in weights {
        let size = weight.unsigned_abs();
        if size >= left {
            return false;
        }
        left -= size;
    }
    true
}

impl Weighted {
    /// Whether literals are in range, each variable has one weight, and the absolute values sum below 2^62, as `best` asks.
    pub fn is_sound(&self) -> bool
        ensures { IsTrue result ↔ IsSound self.now }
    {
        self.hard.is_in_range()
            && self.weights.len() == self.hard.vars as usize
            && is_light(self.weights.as_slice())
    }
}

impl Exact for Weighted {
    fn same(&self, other: &Weighted) -> bool {
        self.hard.same(&other.hard) && self.weights.same(&other.weights)
    }

    fn twin(&self, alloc: Global) -> Result<Weighted, AllocError> {
        let hard = self.hard.twin(alloc)?;
        let weights = self.weights.twin(alloc)?;
        Ok(Weighted { hard, weights })
    }
}
