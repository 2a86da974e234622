// A sink in memory, for tests: it takes small pieces, has an end, and fails at the calls that are listed.
ghost use Rattle.std.specs.Prelude.{◌≡◌, ℕ, ◌+◌, ◌-◌, ◌^◌, ◌<◌, ◌≤◌, ◌↔◌, ◌++◌, if◌then◌else◌, [], List, take, length, min, Some, IsTrue, IfOk, OnErr, IsErr, vec_capacity};

use crate::faults::Faults;
use crate::sinks::{Sink, SinkFault};
use mig_base::Seq;
use std::alloc::{AllocError, Global};

/// A sink in memory, which tells what it took. It fails at the calls whose numbers, from 1, are listed, and where its
/// room is spent.
#[derive(Drop)]
pub struct MemSink {
    bytes: Vec<u8>,
    room: u64,
    piece: u64,
    faults: Faults,
    ghost fits: { length bytes.items + room ≤ vec_capacity bytes },
    ghost some: { 0 < piece },
}

impl MemSink {
    ghost use Rattle.mig_io.specs.MemSink.{bytes_taken, room_of, piece_of, calls_of, listed_of};

    /// A sink that has taken nothing. It has room for so many bytes, takes at most `piece` in a call and is to fail at
    /// the listed calls. Its only error is want of memory for the room.
    pub fn new(alloc: Global, room: u64, piece: u64, fails: Seq<u64>) -> Result<MemSink, AllocError>
        requires { 0 < piece }
        ensures took { IfOk result (λ sink. ⟦<MemSink as Sink>⟧.took sink ≡ Some []) }
        ensures faults { IfOk result (λ sink. ⟦<MemSink as Sink>⟧.faults sink ≡ 0) }
        ensures room { IfOk result (λ sink. room_of sink ≡ room) }
        ensures piece { IfOk result (λ sink. piece_of sink ≡ piece) }
        ensures calls { IfOk result (λ sink. calls_of sink ≡ 0) }
        ensures listed { IfOk result (λ sink. listed_of sink ≡ fails) }
    {
        Ok(MemSink {
            bytes: Vec::with_capacity(alloc, room as usize)?,
            room,
            piece,
            faults: Faults::new(fails),
        })
    }

    /// All bytes that it took, in order. It takes no memory.
    pub fn taken(&self) -> &[u8]
        ensures { ⟦<MemSink as Sink>⟧.took self.now ≡ Some result.now }
    {
        self.bytes.as_slice()
    }

    /// Keeps these bytes, for which there is room.
    fn keep(&mut self, front: &[u8])
        requires { length front.now ≤ self.old.room }
        ensures bytes { self.new.bytes.items ≡ self.old.bytes.items ++ front.now }
        ensures room { self.new.room ≡ self.old.room - length front.now }
        ensures piece { self.new.piece ≡ self.old.piece }
        ensures faults { self.new.faults ≡ self.old.faults }
    {
        self.bytes.extend_from_slice(front).unwrap();
        self.room -= front.len() as u64;
    }
}

impl Sink for MemSink {
    ghost use Rattle.mig_io.specs.Counts.{Rose, raised};
    ghost use Rattle.mig_io.specs.Taken.{and_then};
    ghost use Rattle.mig_io.specs.MemSink.{bytes_taken, room_of, piece_of, calls_of, listed_of, fault_count, put_fails};

    ghost took = { λ s. Some (bytes_taken s) };

    ghost faults = { fault_count };

    /// Takes as many bytes as the piece has, at most those of one call, and those that there is room for.
    /// `Failed` comes exactly at a listed call, and at a piece that isn't empty where the room is spent. Each is one
    /// fault more.
    fn put(&mut self, piece: &[u8]) -> Result<usize, SinkFault>
        ensures taken { IfOk result (λ n. Some (bytes_taken self.new) ≡ and_then (Some (bytes_taken self.old)) (take n piece.now)) }
        ensures within { IfOk result (λ n. n ≤ length piece.now) }
        ensures some { IfOk result (λ n. 0 < length piece.now → 0 < n) }
        ensures nothing { OnErr result (Some (bytes_taken self.new) ≡ Some (bytes_taken self.old)) }
        ensures failed { OnErr result (Rose (fault_count self.old) (fault_count self.new)) }
        ensures later { fault_count self.old ≤ fault_count self.new }
        ensures bounded { fault_count self.new < 2 ^ 64 }

        // Beyond the trait's clauses:
        ensures fails { IsErr result ↔ IsTrue (put_fails self.old piece.now) }
        ensures amount { IfOk result (λ n. n ≡ min (length piece.now) (min (piece_of self.old) (room_of self.old))) }
        ensures counted { fault_count self.new ≡ (if put_fails self.old piece.now then raised (fault_count self.old) else fault_count self.old) }
        ensures called { calls_of self.new ≡ raised (calls_of self.old) }
        ensures listed { listed_of self.new ≡ listed_of self.old }
        ensures room { room_of self.new + length (bytes_taken self.new) ≡ room_of self.old + length (bytes_taken self.old) }
        ensures piece { piece_of self.new ≡ piece_of self.old }
    {
        if self.faults.fails(self.room == 0 && !piece.is_empty()) {
            return Err(SinkFault::Failed);
        }
        let n = piece
            .len()
            .min((self.piece as usize).min(self.room as usize));
        self.keep(&piece[..n]);
        Ok(n)
    }
}
