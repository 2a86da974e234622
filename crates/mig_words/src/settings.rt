// The options of `migrate`: their words, their ranges, and what they are where they are not given.
ghost use Rattle.std.specs.Prelude.{◌≡◌, cond, Some, None};
ghost use Rattle.mig_words.specs.Settings as spec;
ghost use Rattle.mig_words.specs.Words.{number_of};

use crate::numbers::number_in;
use mig_base::Word;

/// An option of `migrate`. A number follows it.
#[derive(Clone, Copy, Debug, PartialEq, Eq)]
pub enum Setting {
    Budget,
    Maps,
    Tests,
}

impl Setting {
    /// The option that a word is, if it is one.
    pub fn named(word: &Word) -> Option<Setting>
        ensures { result ≡ spec.setting_named word.now }
    {
        let word = word.as_slice();
        if word == b"--budget".as_slice() {
            Some(Setting::Budget)
        } else if word == b"--maps".as_slice() {
            Some(Setting::Maps)
        } else if word == b"--tests".as_slice() {
            Some(Setting::Tests)
        } else {
            None
        }
    }

    /// The least number that it takes.
    fn least(self) -> u32
        ensures { result ≡ spec.least self }
    {
        match self {
            Setting::Budget | Setting::Maps => 1,
            Setting::Tests => 0,
        }
    }

    /// The greatest number that it takes.
    fn greatest(self) -> u32
        ensures { result ≡ spec.greatest self }
    {
        match self {
            Setting::Budget => 10_000,
            Setting::Maps => 256,
            Setting::Tests => 1_000_000,
        }
    }

    /// Its number where it is not given.
    pub fn usual(self) -> u32
        ensures { result ≡ spec.usual self }
    {
        match self {
            Setting::Budget => 500,
            Setting::Maps => 16,
            Setting::Tests => 20_000,
        }
    }

    /// The number that a word gives it, if it takes that word.
    pub fn number(self, word: &Word) -> Option<u32>
        ensures { result ≡ cond (spec.takes self word.now) (Some (number_of word.now)) None }
    {
        number_in(word, self.least(), self.greatest())
    }
}
