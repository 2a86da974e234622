// Commands, and why words are none.
ghost use Rattle.std.specs.Prelude.{◌≡◌};
ghost use Rattle.mig_words.specs.declared.command.WordFault.TheVariants.{Memory};

use mig_base::Word;
use std::alloc::AllocError;

/// How far a migration searches.
#[derive(Clone, Copy, Debug, PartialEq, Eq)]
pub struct Options {
    /// How many candidates it tries, 1 to 10,000.
    pub budget: u32,
    /// How many correspondences it tries, 1 to 256.
    pub maps: u32,
    /// How many lists of calls a candidate is tested with, 0 to 1,000,000.
    pub tests: u32,
}

/// What the words of a command line ask for. Each word is a file's name as it was given.
#[derive(Debug, Drop)]
pub enum Command {
    Migrate {
        job: Word,
        options: Options,
    },
    Check {
        job: Word,
        answer: Word,
    },
    Run {
        job: Word,
        calls: Word,
        answer: Option<Word>,
    },
    /// The number is 1 to 8.
    Trial {
        number: u32,
    },
}

/// The first fault of words that are no command, with its word's number from 1 on; or want of memory.
#[derive(Clone, Copy, Debug, PartialEq, Eq)]
pub enum WordFault {
    Memory,
    /// There is no word.
    NoCommand,
    /// No command has this word here.
    UnknownWord { at: u32 },
    /// The words end too soon.
    Missing,
    /// An option is given a second time.
    Twice { at: u32 },
    /// The word stands for a number, and is none in its range.
    Number { at: u32 },
}

impl From<AllocError> for WordFault {
    ghost from_gives = { λ _ e. e ≡ Memory };

    fn from(_e: AllocError) -> WordFault {
        WordFault::Memory
    }
}
