// The words of a command line, read as a command.
ghost use Rattle.std.specs.Prelude.{◌≡◌, ◌∷◌, ◌⊎◌, Ok, Err, IfOk, IfErr};
ghost use Rattle.mig_words.specs.declared.command.Command.{Command as Asked};
ghost use Rattle.mig_words.specs.declared.command.WordFault.{WordFault as Wrong};
ghost use Rattle.mig_words.specs.Commands.{IsCommand};
ghost use Rattle.mig_words.specs.Faults.{IsFault};

use crate::command::{Command, WordFault};
use crate::migrate::read_migrate;
use crate::others::{read_check, read_run, read_trial};
use mig_base::Word;
use std::alloc::Global;

/// The command with this name and these words behind it.
fn read_named(alloc: Global, name: &Word, words: &[Word]) -> Result<Command, WordFault>
    ensures found { IfOk result (IsCommand (name.now ∷ words.now)) }
    ensures fault { IfErr result (λ e. (e ≡ WordFault.Memory) ⊎ IsFault (name.now ∷ words.now) e) }
{
    let name = name.as_slice();
    if name == b"migrate".as_slice() {
        read_migrate(alloc, words)
    } else if name == b"check".as_slice() {
        read_check(alloc, words)
    } else if name == b"run".as_slice() {
        read_run(alloc, words)
    } else if name == b"trial".as_slice() {
        read_trial(words)
    } else {
        Err(WordFault::UnknownWord { at: 1 })
    }
}

/// The command that words are, in the words of a command line without the program's name.
///
/// | words | command |
/// |---|---|
/// | `migrate JOB`, and anywhere behind `migrate` at most once each `--budget N` (1 to 10,000; else 500), `--maps N` (1 to 256; else 16), `--tests N` (0 to 1,000,000; else 20,000) | `Migrate` |
/// | `check JOB ANSWER` | `Check` |
/// | `run JOB CALLS`, `run JOB CALLS ANSWER` | `Run` |
/// | `trial N` (1 to 8) | `Trial` |
///
/// A file's name is any word that does not begin with a dash. N is decimal, without sign or leading zeros.
///
/// Other words have a fault. `NoCommand`: there is no word. `Missing`: a command begins with these words, and none is
/// these words. Else it is the first word that, with all words before it, begins no command, counted from 1: `Number`
/// where it stands for a number, `Twice` where it is an option that stands before it, and `UnknownWord` otherwise.
/// Want of memory is `Memory`.
pub fn read_words(alloc: Global, words: &[Word]) -> Result<Command, WordFault>
    ensures found { IfOk result (IsCommand words.now) }
    ensures only { (c : Asked) → IsCommand words.now c → (result ≡ Ok c) ⊎ (result ≡ Err WordFault.Memory) }
    ensures fault { IfErr result (λ e. (e ≡ WordFault.Memory) ⊎ IsFault words.now e) }
    ensures only_fault { (e : Wrong) → IsFault words.now e → (result ≡ Err e) ⊎ (result ≡ Err WordFault.Memory) }
{
    match words {
        [] => Err(WordFault::NoCommand),
        [name, more @ ..] => read_named(alloc, name, more),
    }
}
