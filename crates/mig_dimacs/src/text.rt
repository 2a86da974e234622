// What a text says: a header, and clauses as numbers.
use crate::token::Number;
use mig_base::Seq;

/// The header of a text. With a `top`, clauses have weights, and one that weighs as much is hard.
#[derive(Debug, Clone, Copy, PartialEq, Eq)]
pub struct Head {
    pub vars: u32,
    pub top: Option<u64>,
    pub count: u64,
}

/// A text: its header, and the numbers of each clause without the 0 at its end.
#[derive(Debug, Drop)]
pub struct Text {
    pub head: Head,
    pub clauses: Seq<Seq<Number>>,
}
