// Files in memory, for tests: they fail at the calls that are listed.
ghost use Rattle.std.specs.Prelude.{◌≡◌, ℕ, ◌^◌, ◌<◌, ◌≤◌, ◌↔◌, ◌||◌, if◌then◌else◌, List, [], ◌∷◌, ◌++◌, length, None, is_none, IsTrue, IfOk, OnOk, OnErr};
ghost use Rattle.std.specs.Option.{ForSome};
ghost use Rattle.mig_io.specs.Counts.{Rose, raised};
ghost use Rattle.mig_io.specs.Told.{HoldsToo};

use crate::asked::Asked;
use crate::faults::Faults;
use crate::files::{FetchFault, Files};
use crate::shelf::{Shelf, copy_within};
use mig_base::{Bytes, Seq, Word};
use std::alloc::{AllocError, Global};

/// Files in memory, which tell what each name holds. They fail at the calls whose numbers, from 1, are listed,
/// and at a name that holds nothing.
#[derive(Drop)]
pub struct MemFiles {
    shelf: Shelf,
    faults: Faults,
    names: Asked,
}

impl MemFiles {
    ghost use Rattle.mig_io.specs.MemFiles.{calls_of, listed_of};

    /// Files that hold nothing yet, which are to fail at the listed calls. It takes no memory.
    pub fn new(alloc: Global, fails: Seq<u64>) -> MemFiles
        ensures holds { (name : List ℕ) → ⟦<MemFiles as Files>⟧.told result name ≡ None }
        ensures faults { ⟦<MemFiles as Files>⟧.faults result ≡ 0 }
        ensures asked { ⟦<MemFiles as Files>⟧.asked result ≡ [] }
        ensures calls { calls_of result ≡ 0 }
        ensures listed { listed_of result ≡ fails }
    {
        MemFiles {
            shelf: Shelf::new(alloc),
            faults: Faults::new(fails),
            names: Asked::new(),
        }
    }

    /// Makes the name hold the bytes, in place of those that it held. On want of memory nothing changes.
    pub fn hold(&mut self, name: Word, bytes: Bytes) -> Result<(), AllocError>
        ensures ok { OnOk result (HoldsToo (⟦<MemFiles as Files>⟧.told self.old) (⟦<MemFiles as Files>⟧.told self.new) name bytes) }
        ensures err { OnErr result (⟦<MemFiles as Files>⟧.told self.new ≡ ⟦<MemFiles as Files>⟧.told self.old) }
        ensures faults { ⟦<MemFiles as Files>⟧.faults self.new ≡ ⟦<MemFiles as Files>⟧.faults self.old }
        ensures asked { ⟦<MemFiles as Files>⟧.asked self.new ≡ ⟦<MemFiles as Files>⟧.asked self.old }
        ensures calls { calls_of self.new ≡ calls_of self.old }
        ensures listed { listed_of self.new ≡ listed_of self.old }
    {
        self.shelf.hold(name, bytes)
    }
}

impl Files for MemFiles {
    ghost use Rattle.mig_io.specs.MemFiles.{calls_of, listed_of, fault_count, names_asked, held_by, fetch_fails};

    ghost told = { held_by };

    ghost faults = { fault_count };

    ghost asked = { names_asked };

    /// `Failed` comes exactly at a listed call and at a name that holds nothing. Each is one fault more.
    fn fetch(&mut self, alloc: Global, name: &Word, cap: u64) -> Result<Bytes, FetchFault>
        ensures holds { IfOk result (λ bytes. ForSome (held_by self.old name.now) (λ held. bytes ≡ held)) }
        ensures capped { IfOk result (λ bytes. length bytes ≤ cap) }
        ensures failed { result ≡ Err FetchFault.Failed → Rose (fault_count self.old) (fault_count self.new) }
        ensures long { result ≡ Err FetchFault.Long → ForSome (held_by self.old name.now) (λ held. cap < length held) }
        ensures later { fault_count self.old ≤ fault_count self.new }
        ensures bounded { fault_count self.new < 2 ^ 64 }
        ensures keeps { held_by self.new ≡ held_by self.old }
        ensures asks { names_asked self.new ≡ names_asked self.old ++ name.now ∷ [] }

        // Beyond the trait's clauses:
        ensures fails { (result ≡ Err FetchFault.Failed) ↔ IsTrue (fetch_fails self.old name.now) }
        ensures counted { fault_count self.new ≡ (if fetch_fails self.old name.now then raised (fault_count self.old) else fault_count self.old) }
        ensures called { calls_of self.new ≡ raised (calls_of self.old) }
        ensures listed { listed_of self.new ≡ listed_of self.old }
    {
        self.names = Asked::with(&self.names, name);
        let held = self.shelf.find(name);
        let fails = self.faults.fails(held.is_none());
        match held {
            Some(bytes) if !fails => copy_within(alloc, bytes, cap),
            _ => Err(FetchFault::Failed),
        }
    }
}
