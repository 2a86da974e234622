// The words behind a command that takes files alone.
ghost use Rattle.std.specs.Prelude.{◌≤◌, IfOk, IfErr};
ghost use Rattle.mig_words.specs.Files as spec;

use crate::command::WordFault;
use crate::numbers::is_dashed;
use mig_base::Word;

/// Refuses the first of these words that names no file or has `most` before it. One word stands before them all.
pub fn only_files(words: &[Word], most: usize) -> Result<(), WordFault>
    requires { most ≤ 3 }
    ensures files { IfOk result (λ _. spec.AreFiles most words.now) }
    ensures fault { IfErr result (spec.IsNoFile most words.now) }
{
    for (i, word) in words.iter().enumerate() {
        if i == most || is_dashed(word) {
            return Err(WordFault::UnknownWord { at: i as u32 + 2 });
        }
    }
    Ok(())
}
