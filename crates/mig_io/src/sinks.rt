// What takes bytes, and the writing of a whole text to it.
ghost use Rattle.std.specs.Prelude.{◌≡◌, ℕ, ◌^◌, ◌<◌, ◌≤◌, List, take, length, Option, IfOk, OnOk, OnErr};
ghost use Rattle.mig_io.specs.Counts.{Rose};
ghost use Rattle.mig_io.specs.Taken.{and_then, TookFront};

use thiserror::Error;

/// Why bytes weren't taken.
#[derive(Clone, Copy, Debug, PartialEq, Eq, Error)]
pub enum SinkFault {
    /// Nothing was taken, and the count of faults rose.
    #[error("the output could not be written")]
    Failed,
}

/// What takes bytes, with a count of faults from 0 to 2^64 - 1 that never falls.
///
/// It may tell what it took. No call changes whether it tells.
pub trait Sink {
    /// All bytes that it took, in order; `None` where it doesn't tell.
    ghost took: { Self → Option (List ℕ) };
    /// The count of faults.
    ghost faults: { Self → ℕ };

    /// Takes bytes from the front of the piece and answers how many: at least 1 where the piece isn't empty.
    ///
    /// After `Failed` nothing was taken and the count rose. It takes no memory.
    fn put(&mut self, piece: &[u8]) -> Result<usize, SinkFault>
        ensures taken { IfOk result (λ n. took self.new ≡ and_then (took self.old) (take n piece.now)) }
        ensures within { IfOk result (λ n. n ≤ length piece.now) }
        ensures some { IfOk result (λ n. 0 < length piece.now → 0 < n) }
        ensures nothing { OnErr result (took self.new ≡ took self.old) }
        ensures failed { OnErr result (Rose (faults self.old) (faults self.new)) }
        ensures later { faults self.old ≤ faults self.new }
        ensures bounded { faults self.new < 2 ^ 64 };
}

/// Puts the whole text, in as many pieces as the sink wants. It takes no memory.
///
/// After `Failed` the sink took a prefix of the text and nothing else, and the count rose.
#[tactic(auto, using(crate::proofs::TakenLemmas::fronts_join))]
pub fn emit<W: Sink>(out: &mut W, text: &[u8]) -> Result<(), SinkFault>
    ensures whole { OnOk result (W.took out.new ≡ and_then (W.took out.old) text.now) }
    ensures part { OnErr result (TookFront (W.took out.old) (W.took out.new) text.now) }
    ensures failed { OnErr result (Rose (W.faults out.old) (W.faults out.new)) }
    ensures later { W.faults out.old ≤ W.faults out.new }
{
    let mut at = 0;
    while at < text.len() {
        at += out.put(&text[at..])?;
    }
    Ok(())
}
