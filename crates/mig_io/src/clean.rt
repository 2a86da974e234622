// Files and a sink that never fail.
ghost use Rattle.std.specs.Prelude.{◌≡◌, ℕ, List, [], Some, None, Ok, length, OnOk, OnErr, unwrap_or};
ghost use Rattle.mig_io.specs.Told.{HoldsToo};

use crate::asked::Asked;
use crate::files::{FetchFault, Files};
use crate::shelf::{Shelf, copy_within};
use crate::sinks::{Sink, SinkFault};
use mig_base::{Bytes, Seq, Word};
use std::alloc::{AllocError, Global};

/// Files in memory that never fail and tell what each name holds: a name that was not put in is an empty file.
#[derive(Drop)]
pub struct CleanFiles {
    shelf: Shelf,
    names: Asked,
}

impl CleanFiles {
    /// Files in which every name is empty. It takes no memory.
    pub fn new(alloc: Global) -> CleanFiles
        ensures holds { (name : List ℕ) → ⟦<CleanFiles as Files>⟧.told result name ≡ Some [] }
        ensures asked { ⟦<CleanFiles as Files>⟧.asked result ≡ [] }
    {
        CleanFiles {
            shelf: Shelf::new(alloc),
            names: Asked::new(),
        }
    }

    /// Makes the name hold the bytes, in place of those that it held. On want of memory nothing changes.
    pub fn hold(&mut self, name: Word, bytes: Bytes) -> Result<(), AllocError>
        ensures ok { OnOk result (HoldsToo (⟦<CleanFiles as Files>⟧.told self.old) (⟦<CleanFiles as Files>⟧.told self.new) name bytes) }
        ensures err { OnErr result (⟦<CleanFiles as Files>⟧.told self.new ≡ ⟦<CleanFiles as Files>⟧.told self.old) }
        ensures asked { ⟦<CleanFiles as Files>⟧.asked self.new ≡ ⟦<CleanFiles as Files>⟧.asked self.old }
    {
        self.shelf.hold(name, bytes)
    }
}

impl Files for CleanFiles {
    ghost use Rattle.mig_io.specs.Shelf.{bytes_on};

    ghost told = { λ s name. Some (unwrap_or (bytes_on s.shelf name) []) };

    ghost faults = { λ _. 0 };

    ghost asked = { λ s. s.names.names };

    fn fetch(&mut self, alloc: Global, name: &Word, cap: u64) -> Result<Bytes, FetchFault> {
        self.names = Asked::with(&self.names, name);
        match self.shelf.find(name) {
            Some(bytes) => copy_within(alloc, bytes, cap),
            None => Ok(Seq::new(alloc)),
        }
    }
}

/// A sink that never fails and takes each piece whole. It keeps nothing and tells nothing.
#[derive(Clone, Copy, Debug)]
pub struct CleanSink;

impl CleanSink {
    /// The sink. It takes no memory.
    pub fn new() -> CleanSink
        ensures took { ⟦<CleanSink as Sink>⟧.took result ≡ None }
        ensures faults { ⟦<CleanSink as Sink>⟧.faults result ≡ 0 }
    {
        CleanSink
    }
}

impl Sink for CleanSink {
    ghost took = { λ _. None };

    ghost faults = { λ _. 0 };

    fn put(&mut self, piece: &[u8]) -> Result<usize, SinkFault>
        ensures whole { result ≡ Ok (length piece.now) }
    {
        Ok(piece.len())
    }
}
