// What the words behind `migrate` have given, one word after the other.
ghost use Rattle.std.specs.Prelude.{◌≡◌, ◌⊎◌, IfErr, OnOk, Some, None};
ghost use Rattle.mig_words.specs.Drafts as spec;
ghost use Rattle.mig_words.specs.Settings.{setting_named};

use crate::command::{Options, WordFault};
use crate::numbers::is_dashed;
use crate::settings::Setting;
use mig_base::{Exact, Word};
use std::alloc::Global;

/// What the words behind `migrate` have given.
#[derive(Drop)]
pub struct Draft {
    pub job: Option<Word>,
    pub budget: Option<u32>,
    pub maps: Option<u32>,
    pub tests: Option<u32>,
    /// The option whose number is next.
    pub pending: Option<Setting>,
}

impl Draft {
    /// Nothing is given.
    pub fn new() -> Draft
        ensures { result ≡ record { job = None; budget = None; maps = None; tests = None; pending = None } }
    {
        Draft {
            job: None,
            budget: None,
            maps: None,
            tests: None,
            pending: None,
        }
    }

    /// The number that an option was given.
    fn given(&self, setting: Setting) -> Option<u32>
        ensures { result ≡ spec.given setting self.now }
    {
        match setting {
            Setting::Budget => self.budget,
            Setting::Maps => self.maps,
            Setting::Tests => self.tests,
        }
    }

    /// Gives an option its number.
    fn give(&mut self, setting: Setting, number: u32)
        ensures { self.new ≡ spec.with_number setting number self.old }
    {
        self.pending = None;
        match setting {
            Setting::Budget => self.budget = Some(number),
            Setting::Maps => self.maps = Some(number),
            Setting::Tests => self.tests = Some(number),
        }
    }

    /// Takes a word as the number of an option.
    fn take_number(&mut self, setting: Setting, word: &Word, at: u32) -> Result<(), WordFault>
        requires { self.old.pending ≡ Some setting }
        ensures taken { OnOk result (spec.Takes self.old word.now self.new) }
        ensures refused { IfErr result (λ e. spec.Refuses self.old word.now at e) }
    {
        match setting.number(word) {
            Some(number) => {
                self.give(setting, number);
                Ok(())
            }
            None => Err(WordFault::Number { at }),
        }
    }

    /// Takes the word of an option.
    fn take_option(&mut self, setting: Setting, word: &Word, at: u32) -> Result<(), WordFault>
        requires free { self.old.pending ≡ None }
        requires named { setting_named word.now ≡ Some setting }
        ensures taken { OnOk result (spec.Takes self.old word.now self.new) }
        ensures refused { IfErr result (λ e. spec.Refuses self.old word.now at e) }
    {
        match self.given(setting) {
            Some(_) => Err(WordFault::Twice { at }),
            None => {
                self.pending = Some(setting);
                Ok(())
            }
        }
    }

    /// Takes the word of a file.
    fn take_file(&mut self, alloc: Global, word: &Word, at: u32) -> Result<(), WordFault>
        requires free { self.old.pending ≡ None }
        requires other { setting_named word.now ≡ None }
        ensures taken { OnOk result (spec.Takes self.old word.now self.new) }
        ensures refused { IfErr result (λ e. (e ≡ WordFault.Memory) ⊎ spec.Refuses self.old word.now at e) }
    {
        if is_dashed(word) || self.job.is_some() {
            return Err(WordFault::UnknownWord { at });
        }
        self.job = Some(word.twin(alloc)?);
        Ok(())
    }

    /// Takes one word more, which has this number among all words; on a fault the draft is not used again.
    pub fn take(&mut self, alloc: Global, word: &Word, at: u32) -> Result<(), WordFault>
        ensures taken { OnOk result (spec.Takes self.old word.now self.new) }
        ensures refused { IfErr result (λ e. (e ≡ WordFault.Memory) ⊎ spec.Refuses self.old word.now at e) }
    {
        match (self.pending, Setting::named(word)) {
            (Some(setting), _) => self.take_number(setting, word, at),
            (None, Some(setting)) => self.take_option(setting, word, at),
            (None, None) => self.take_file(alloc, word, at),
        }
    }

    /// The options, each with its usual number where none was given.
    pub fn options(&self) -> Options
        ensures { result ≡ spec.options_of self.now }
    {
        Options {
            budget: self.budget.unwrap_or(Setting::Budget.usual()),
            maps: self.maps.unwrap_or(Setting::Maps.usual()),
            tests: self.tests.unwrap_or(Setting::Tests.usual()),
        }
    }
}
