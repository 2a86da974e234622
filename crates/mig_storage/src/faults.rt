// Why a call of a store gave no answer.
ghost use Rattle.std.specs.Prelude.{◌≡◌};
ghost use Rattle.mig_storage.specs.declared.faults.StoreFault.TheVariants.{Memory};

use std::alloc::{AllocError, AllocFailed};
use thiserror::Error;

/// Why a call of a store gave no answer.
#[derive(Clone, Copy, Debug, PartialEq, Eq, Error)]
pub enum StoreFault {
    /// There was no memory for the call.
    #[error("out of memory")]
    Memory,
    /// The store failed, and its count of faults rose; or it was broken before the call.
    #[error("the store failed")]
    Failed,
}

impl From<AllocError> for StoreFault {
    ghost from_gives = { λ _ e. e ≡ Memory };

    fn from(_error: AllocError) -> StoreFault {
        StoreFault::Memory
    }
}
