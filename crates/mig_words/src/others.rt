// The words of the commands whose words stand in one order: `check`, `run` and `trial`.
ghost use Rattle.std.specs.Prelude.{◌≡◌, ◌≤◌, ◌∷◌, ◌⊎◌, length, IfOk, IfErr, codes};
ghost use Rattle.mig_words.specs.Commands.{IsCommand};
ghost use Rattle.mig_words.specs.Faults.{IsFault};
ghost use Rattle.mig_words.specs.Files.{IsThird};

use crate::command::{Command, WordFault};
use crate::files::only_files;
use crate::numbers::number_in;
use mig_base::{Exact, Word};
use std::alloc::Global;

/// The command `check` with these words behind it: a job and an answer.
pub fn read_check(alloc: Global, words: &[Word]) -> Result<Command, WordFault>
    ensures found { IfOk result (IsCommand (codes "check" ∷ words.now)) }
    ensures fault { IfErr result (λ e. (e ≡ WordFault.Memory) ⊎ IsFault (codes "check" ∷ words.now) e) }
{
    only_files(words, 2)?;
    if words.len() < 2 {
        return Err(WordFault::Missing);
    }
    Ok(Command::Check {
        job: words[0].twin(alloc)?,
        answer: words[1].twin(alloc)?,
    })
}

/// The third of at most three words, if there is one.
fn third_of(alloc: Global, words: &[Word]) -> Result<Option<Word>, WordFault>
    requires { length words.now ≤ 3 }
    ensures third { IfOk result (IsThird words.now) }
    ensures memory { IfErr result (λ e. e ≡ WordFault.Memory) }
{
    if words.len() < 3 {
        Ok(None)
    } else {
        Ok(Some(words[2].twin(alloc)?))
    }
}

/// The command `run` with these words behind it: a job, its calls, and maybe an answer.
pub fn read_run(alloc: Global, words: &[Word]) -> Result<Command, WordFault>
    ensures found { IfOk result (IsCommand (codes "run" ∷ words.now)) }
    ensures fault { IfErr result (λ e. (e ≡ WordFault.Memory) ⊎ IsFault (codes "run" ∷ words.now) e) }
{
    only_files(words, 3)?;
    if words.len() < 2 {
        return Err(WordFault::Missing);
    }
    Ok(Command::Run {
        job: words[0].twin(alloc)?,
        calls: words[1].twin(alloc)?,
        answer: third_of(alloc, words)?,
    })
}

/// The command `trial` with these words behind it: a number from 1 to 8.
pub fn read_trial(words: &[Word]) -> Result<Command, WordFault>
    ensures found { IfOk result (IsCommand (codes "trial" ∷ words.now)) }
    ensures fault { IfErr result (λ e. (e ≡ WordFault.Memory) ⊎ IsFault (codes "trial" ∷ words.now) e) }
{
    let [word, ..] = words else {
        return Err(WordFault::Missing);
    };
    let Some(number) = number_in(word, 1, 8) else {
        return Err(WordFault::Number { at: 2 });
    };
    if words.len() == 1 {
        Ok(Command::Trial { number })
    } else {
        Err(WordFault::UnknownWord { at: 3 })
    }
}
