// Laws of stores. Each is the contract of a function that does nothing.
ghost use Rattle.std.specs.Prelude.{◌≡◌, false};
ghost use Rattle.mig_storage.specs.declared.vec_store.VecStore.{VecStore as MemoryStore};

use crate::store::Store;
use crate::vec_store::VecStore;

/// No store in memory is ever broken or has counted a fault. So it never answers `Failed`.
pub fn memory_never_fails()
    ensures whole { (s : MemoryStore) → (⟦<VecStore as Store>⟧.meaning s).broken ≡ false }
    ensures faults { (s : MemoryStore) → (⟦<VecStore as Store>⟧.meaning s).faults ≡ 0 }
{}
