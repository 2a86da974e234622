// What a search does with clauses: steps, and what is found of the clauses under them.
use crate::clauses::SatLit;

/// A literal that was made true, by choice or because it follows from older choices.
#[derive(Debug, Clone, Copy)]
pub struct Step {
    pub lit: SatLit,
    pub chosen: bool,
}

/// What a clause is under some steps.
#[derive(Debug, Clone, Copy)]
pub enum Judged {
    /// Each literal is false.
    Falsified,
    /// Each literal is false but this one, whose variable has no value.
    Unit(SatLit),
    /// Neither; nothing follows.
    Open,
}

/// What the clauses are under some steps.
#[derive(Debug, Clone, Copy)]
pub enum Found {
    /// No model follows the steps.
    Conflict,
    /// This literal is true in each model that follows the steps.
    Forced(SatLit),
    /// The least variable that has no value.
    Free(u32),
    /// Each variable has a value, and no clause is false.
    Full,
}
