// The tokens of a text, each with its line.

/// A number as it is spelled: its absolute value, and whether a minus sign stands before it.
#[derive(Debug, Clone, Copy, PartialEq, Eq)]
pub struct Number {
    pub negative: bool,
    pub size: u64,
}

/// What a word is.
#[derive(Debug, Clone, Copy, PartialEq, Eq)]
pub enum Token {
    /// `p`
    Problem,
    /// `cnf`
    Plain,
    /// `wcnf`
    Weighted,
    /// Digits, with a minus sign directly before them or not.
    Number(Number),
    /// Any other word. It fits nowhere.
    Other,
    /// The end of the text.
    End,
}

/// A token, and the number of its line from 1 on.
#[derive(Debug, Clone, Copy, PartialEq, Eq)]
pub struct Piece {
    pub line: u64,
    pub token: Token,
}

/// Where in a line the next byte stands.
#[derive(Debug, Clone, Copy, PartialEq, Eq)]
pub enum Spot {
    /// First in its line.
    Start,
    /// Behind other bytes.
    Inside,
    /// In a comment.
    Comment,
}
