// The words of `migrate`.
ghost use Rattle.std.specs.Prelude.{◌≡◌, ◌∷◌, ◌⊎◌, IfOk, IfErr, codes};
ghost use Rattle.mig_words.specs.Commands.{IsCommand};
ghost use Rattle.mig_words.specs.Drafts.{IsDraft};
ghost use Rattle.mig_words.specs.Faults.{IsFault};

use crate::command::{Command, WordFault};
use crate::drafts::Draft;
use mig_base::Word;
use std::alloc::Global;

/// What the words behind `migrate` give.
fn drafted(alloc: Global, words: &[Word]) -> Result<Draft, WordFault>
    ensures drafted { IfOk result (IsDraft words.now) }
    ensures fault { IfErr result (λ e. (e ≡ WordFault.Memory) ⊎ IsFault (codes "migrate" ∷ words.now) e) }
{
    let mut draft = Draft::new();
    for (i, word) in words.iter().enumerate() {
        draft.take(alloc, word, i as u32 + 2)?;
    }
    Ok(draft)
}

/// The command `migrate` with these words behind it.
pub fn read_migrate(alloc: Global, words: &[Word]) -> Result<Command, WordFault>
    ensures found { IfOk result (IsCommand (codes "migrate" ∷ words.now)) }
    ensures fault { IfErr result (λ e. (e ≡ WordFault.Memory) ⊎ IsFault (codes "migrate" ∷ words.now) e) }
{
    let draft = drafted(alloc, words)?;
    let options = draft.options();
    match (draft.pending, draft.job) {
        (Some(_), _) => Err(WordFault::Missing),
        (None, None) => Err(WordFault::Missing),
        (None, Some(job)) => Ok(Command::Migrate { job, options }),
    }
}
