// Words that are numbers, and those that begin with a dash.
ghost use Rattle.std.specs.Prelude.{◌≡◌, cond, Some, None};
ghost use Rattle.mig_words.specs.Words as spec;

use mig_base::{Word, is_numeral, number_within};

/// Whether a word begins with a dash.
pub fn is_dashed(word: &Word) -> bool
    ensures { result ≡ spec.is_dashed word.now }
{
    match word.as_slice() {
        [b, ..] => *b == b'-',
        [] => false,
    }
}

/// The number that a word spells, where it is in this range.
pub fn number_in(word: &Word, least: u32, most: u32) -> Option<u32>
    ensures { result ≡ cond (spec.is_within least most word.now) (Some (spec.number_of word.now)) None }
{
    if !is_numeral(word.as_slice()) {
        return None;
    }
    match number_within(u64::from(most), word.as_slice()) {
        Some(value) if u64::from(least) <= value => Some(value as u32),
        _ => None,
    }
}
