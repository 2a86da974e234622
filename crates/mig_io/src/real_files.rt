// The files of the system.
ghost use Rattle.std.specs.Prelude.{◌≡◌, ℕ, ◌+◌, ◌^◌, ◌<◌, ◌≤◌, List, [], length, None, IfOk, IfSome};

use crate::asked::Asked;
use crate::count::Count;
use crate::files::{FetchFault, Files};
use mig_base::{Bytes, Seq, Word};
use std::alloc::Global;
use std::io::Read;
use std::{fs, rt};

/// Why reading stopped before the end.
#[derive(Clone, Copy, Debug, PartialEq, Eq)]
pub enum Stopped {
    /// Memory runs out.
    Memory,
    /// The reader fails.
    Failed,
    /// What the reader has left is longer than the cap.
    Long,
}

/// All bytes up to the end, if these are no more than the cap; else it stops once it took more than the cap.
///
/// Where it is known what the reader has left, the bytes are that, and `Long` comes only where that is too long.
pub fn read_within<F: Read>(alloc: Global, file: &mut F, cap: u64) -> Result<Vec<u8>, Stopped>
    ensures capped { IfOk result (λ bytes. length bytes.items ≤ cap) }
    ensures whole { IfOk result (λ bytes. IfSome (F.remaining file.old) (λ held. bytes.items ≡ held)) }
    ensures long { result ≡ Err Stopped.Long → IfSome (F.remaining file.old) (λ held. cap < length held) }
{
    let mut bytes = Vec::new(alloc);
    let mut buf = [0u8; 4096];
    while bytes.len() as u64 <= cap {
        let n = file.read(&mut buf).map_err(|_| Stopped::Failed)?;
        if n == 0 {
            return Ok(bytes);
        }
        bytes
            .extend_from_slice(&buf[..n])
            .map_err(|_| Stopped::Memory)?;
    }
    Err(Stopped::Long)
}

/// The bytes of the file at the path, if these are no more than the cap. A path that isn't UTF-8 can't be read.
fn read_at<R: rt::Files>(alloc: Global, rt: &R, path: &[u8], cap: u64) -> Result<Vec<u8>, Stopped>
    ensures { IfOk result (λ bytes. length bytes.items ≤ cap) }
{
    let path = str::from_utf8(path).map_err(|_| Stopped::Failed)?;
    let mut file = fs::File::open(rt, path).map_err(|_| Stopped::Failed)?;
    read_within(alloc, &mut file, cap)
}

/// The files of the system, by their paths. They tell nothing. A file that can't be opened or read, and a name that
/// isn't UTF-8, is a fault.
#[derive(Drop)]
pub struct RealFiles<R: rt::Files + Drop> {
    rt: R,
    count: Count,
    names: Asked,
}

impl<R: rt::Files + Drop> RealFiles<R> {
    /// The files that the runtime reaches.
    pub fn new(rt: R) -> RealFiles<R>
        ensures faults { ⟦<RealFiles<R> as Files>⟧.faults result ≡ 0 }
        ensures asked { ⟦<RealFiles<R> as Files>⟧.asked result ≡ [] }
    {
        RealFiles {
            rt,
            count: Count::new(),
            names: Asked::new(),
        }
    }
}

impl<R: rt::Files + Drop> Files for RealFiles<R> {
    ghost told = { λ _ _. None };

    ghost faults = { λ s. s.count.number };

    ghost asked = { λ s. s.names.names };

    fn fetch(&mut self, alloc: Global, name: &Word, cap: u64) -> Result<Bytes, FetchFault> {
        self.names = Asked::with(&self.names, name);
        match read_at(alloc, &self.rt, name.as_slice(), cap) {
            Ok(bytes) => Ok(Seq::from_vec(bytes)),
            Err(Stopped::Memory) => Err(FetchFault::Memory),
            Err(Stopped::Long) => Err(FetchFault::Long),
            Err(Stopped::Failed) => {
                self.count.rise();
                Err(FetchFault::Failed)
            }
        }
    }
}
