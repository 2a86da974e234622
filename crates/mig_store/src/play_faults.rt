// Why a file of calls was not played to its end.
ghost use Rattle.std.specs.Prelude.{◌≡◌};
ghost use Rattle.mig_store.specs.declared.play_faults.PlayFault.TheVariants.{Memory};
ghost use Rattle.mig_store.specs.PlayFaults.{calls_fault, store_fault};

use crate::faults::CallsFault;
use mig_storage::StoreFault;
use std::alloc::AllocError;

/// Why a file of calls was not played to its end.
#[derive(Clone, Copy, Debug, PartialEq, Eq)]
pub enum PlayFault {
    /// Memory ran out.
    Memory,
    /// The file says no calls of the program, for this cause; never want of memory.
    Calls(CallsFault),
    /// The store failed, and its count of faults rose; or it was broken before.
    Store,
}

impl From<AllocError> for PlayFault {
    ghost from_gives = { λ _ e. e ≡ Memory };

    fn from(_error: AllocError) -> PlayFault {
        PlayFault::Memory
    }
}

impl From<CallsFault> for PlayFault {
    ghost from_gives = { λ f e. e ≡ calls_fault f };

    fn from(fault: CallsFault) -> PlayFault {
        match fault {
            CallsFault::Memory => PlayFault::Memory,
            other => PlayFault::Calls(other),
        }
    }
}

impl From<StoreFault> for PlayFault {
    ghost from_gives = { λ f e. e ≡ store_fault f };

    fn from(fault: StoreFault) -> PlayFault {
        match fault {
            StoreFault::Memory => PlayFault::Memory,
            StoreFault::Failed => PlayFault::Store,
        }
    }
}
