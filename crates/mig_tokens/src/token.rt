// The tokens of a text.
use mig_base::Txt;

/// A token, with the bytes that spell it.
#[derive(Debug, Drop)]
pub enum Token {
    /// A name or a reserved word.
    Word(Txt),
    /// Digits, with a minus sign directly before them or not.
    Int(Txt),
    /// A text between quotes: the bytes that it says, its escapes replaced.
    Text(Txt),
    /// A sign.
    Sign(Txt),
    /// A byte that begins no token. It fits nowhere.
    Bad,
    /// The end of the text.
    End,
}
