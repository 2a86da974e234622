// Names, and the bytes that they hold.
ghost use Rattle.std.specs.Prelude.{◌≡◌, ℕ, ◌<◌, ◌≤◌, List, None, IfOk, OnOk, OnErr, length};
ghost use Rattle.std.specs.Option.{option_copied, option_map};
ghost use Rattle.mig_io.specs.Told.{HoldsToo};

use crate::files::FetchFault;
use mig_base::{Bytes, Exact, Word, same_text};
use std::alloc::{AllocError, Global};

/// A name, and the bytes that it holds.
#[derive(Drop)]
pub(crate) struct Held {
    name: Word,
    pub(crate) bytes: Bytes,
}

/// What names hold. The newest entry of a name counts.
#[derive(Drop)]
pub(crate) struct Shelf {
    entries: Vec<Held>,
}

impl Shelf {
    ghost use Rattle.mig_io.specs.Shelf.{bytes_on};

    /// No name holds anything. It takes no memory until a name does.
    pub(crate) fn new(alloc: Global) -> Shelf
        ensures { (name : List ℕ) → bytes_on result name ≡ None }
    {
        Shelf {
            entries: Vec::new(alloc),
        }
    }

    /// Makes the name hold the bytes. On want of memory nothing changes.
    pub(crate) fn hold(&mut self, name: Word, bytes: Bytes) -> Result<(), AllocError>
        ensures ok { OnOk result (HoldsToo (bytes_on self.old) (bytes_on self.new) name bytes) }
        ensures err { OnErr result (self.new.entries.items ≡ self.old.entries.items) }
    {
        self.entries.insert(0, Held { name, bytes })?;
        Ok(())
    }

    /// What the name holds, if it was put on the shelf.
    pub(crate) fn find(&self, name: &Word) -> Option<&Bytes>
        ensures { option_copied result ≡ bytes_on self.now name.now }
    {
        let entry = self
            .entries
            .iter()
            .find(|entry| same_text(&entry.name, name))?;
        Some(&entry.bytes)
    }
}

/// A copy of the bytes, where they are no longer than the cap. Its other error is want of memory.
pub(crate) fn copy_within(alloc: Global, bytes: &Bytes, cap: u64) -> Result<Bytes, FetchFault>
    ensures same { IfOk result (λ copy. copy ≡ bytes.now) }
    ensures capped { IfOk result (λ copy. length copy ≤ cap) }
    ensures never { result ≡ Err FetchFault.Failed → ⊥ }
    ensures long { result ≡ Err FetchFault.Long → cap < length bytes.now }
{
    if bytes.len() as u64 > cap {
        return Err(FetchFault::Long);
    }
    bytes.twin(alloc).map_err(|_| FetchFault::Memory)
}
