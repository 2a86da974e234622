// Why a file of calls is refused.
ghost use Rattle.std.specs.Prelude.{◌≡◌};
ghost use Rattle.mig_store.specs.declared.faults.CallsFault.TheVariants.{Memory};

use std::alloc::AllocError;

/// Why a file says no calls of a program. Records count from 1.
#[derive(Clone, Copy, Debug, PartialEq, Eq)]
pub enum CallsFault {
    /// Memory ran out.
    Memory,
    /// The record names no function of the program.
    Unknown { at: u32 },
    /// The record has more or fewer arguments than its function has parameters.
    Arity { at: u32 },
    /// An argument is no value of its parameter's kind; the first such one, from 1.
    Value { at: u32, field: u32 },
    /// There are more than 100,000 records, the first 100,000 of which say calls.
    Limit,
}

impl From<AllocError> for CallsFault {
    ghost from_gives = { λ _ e. e ≡ Memory };

    fn from(_error: AllocError) -> CallsFault {
        CallsFault::Memory
    }
}
