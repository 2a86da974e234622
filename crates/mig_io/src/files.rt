// Files that are asked for by name.
ghost use Rattle.std.specs.Prelude.{◌≡◌, ℕ, ◌^◌, ◌<◌, ◌≤◌, List, [], ◌∷◌, ◌++◌, length, Option, IfOk};
ghost use Rattle.std.specs.Option.{ForSome};
ghost use Rattle.mig_io.specs.Counts.{Rose};

use mig_base::{Bytes, Word};
use std::alloc::Global;
use thiserror::Error;

/// Why a file wasn't handed out.
#[derive(Clone, Copy, Debug, PartialEq, Eq, Error)]
pub enum FetchFault {
    /// There was no memory for the bytes.
    #[error("out of memory")]
    Memory,
    /// The file couldn't be read. The count of faults rose.
    #[error("the file could not be read")]
    Failed,
    /// The file has more bytes than were asked for.
    #[error("the file is too long")]
    Long,
}

/// Files that are asked for by name, with a count of faults from 0 to 2^64 - 1 that never falls.
///
/// They may tell what a name holds. No call changes what they tell, nor whether they tell it.
pub trait Files {
    /// What a name is told to hold; `None` where that isn't told.
    ghost told: { Self → List ℕ → Option (List ℕ) };
    /// The count of faults.
    ghost faults: { Self → ℕ };
    /// The names asked for since the files were made, in order. It takes no memory.
    ghost asked: { Self → List (List ℕ) };

    /// The bytes of the named file, which are at most `cap`; where the files tell, the told ones.
    ///
    /// `Failed` comes only where the count rose, and `Long` only where the file has more than `cap` bytes:
    /// files that don't tell take `cap` + 1 bytes before they say so. The name is appended to those asked for, whatever the answer.
    fn fetch(&mut self, alloc: Global, name: &Word, cap: u64) -> Result<Bytes, FetchFault>
        ensures holds { IfOk result (λ bytes. ForSome (told self.old name.now) (λ held. bytes ≡ held)) }
        ensures capped { IfOk result (λ bytes. length bytes ≤ cap) }
        ensures failed { result ≡ Err FetchFault.Failed → Rose (faults self.old) (faults self.new) }
        ensures long { result ≡ Err FetchFault.Long → ForSome (told self.old name.now) (λ held. cap < length held) }
        ensures later { faults self.old ≤ faults self.new }
        ensures bounded { faults self.new < 2 ^ 64 }
        ensures keeps { told self.new ≡ told self.old }
        ensures asks { asked self.new ≡ asked self.old ++ name.now ∷ [] };
}
