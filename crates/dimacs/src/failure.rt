// Why no answer was written, and the status that the program ends with.
ghost use Rattle.std.specs.Prelude.{◌≡◌, ◌⊎◌, ℕ};
ghost use Rattle.dimacs.specs.declared.failure.Failure.TheVariants as at;

use std::io;

/// Why no answer was written.
#[derive(Debug, Clone, Copy, PartialEq, Eq)]
pub enum Failure {
    /// The words of the command line are others.
    Words,
    /// The bytes spell no clauses; the first refused word stands in this line.
    Refused { line: u64 },
    /// Standard input can't be read.
    Input,
    /// A stream takes no more bytes.
    Output,
    /// Memory ran out.
    Memory,
}

impl Failure {
    /// The exit status.
    pub fn status(self) -> u8
        ensures words { self ≡ at.Words → result ≡ 1 }
        ensures refused { (line : ℕ) → self ≡ at.Refused line → result ≡ 2 }
        ensures input { self ≡ at.Input → result ≡ 6 }
        ensures output { self ≡ at.Output → result ≡ 7 }
        ensures memory { self ≡ at.Memory → result ≡ 8 }
    {
        match self {
            Failure::Words => 1,
            Failure::Refused { .. } => 2,
            Failure::Input => 6,
            Failure::Output => 7,
            Failure::Memory => 8,
        }
    }
}

/// Want of memory, if that is what the error of a stream is, and else the other failure.
pub fn failure_of(error: &io::Error, other: Failure) -> Failure
    ensures { (result ≡ other) ⊎ (result ≡ at.Memory) }
{
    if error.kind() == io::ErrorKind::OutOfMemory {
        Failure::Memory
    } else {
        other
    }
}
