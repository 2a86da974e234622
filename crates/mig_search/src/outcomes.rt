// How far to search, what was tried, and how the search ended.
use mig_base::Seq;
use mig_certificate::Certificate;
use mig_meaning::Calls;
use mig_schema::Program;

/// How far a search goes.
#[derive(Clone, Copy, Debug, PartialEq, Eq)]
pub struct Options {
    /// It ends with so many entries.
    pub budget: u32,
    /// It takes so many correspondences, or all where there are fewer.
    pub maps: u32,
    /// A completion is tested with so many lists of calls, or with all where there are fewer.
    pub tests: u32,
}

/// An entry: why a completion, or a whole correspondence, is not the answer.
#[derive(Debug, Drop)]
pub enum Tried {
    /// The completion answers these calls differently; no earlier list of calls tells it from the old program.
    Refuted(Calls),
    /// No list of calls tells the completion from the old program; the query of this function is the first that is not closed.
    Unproved(u32),
    /// Under the correspondence a hole of this function has no option, and each hole before it has some, and not too many.
    NoOption(u32),
    /// Under the correspondence a hole of this function has more than 4,096 options, and each hole before it has some, and not more.
    Wide(u32),
}

/// How a search ended, with the entries in the order in which they were made.
#[derive(Debug, Drop)]
pub enum Outcome {
    /// This program is closed: its certificate shows that it is equivalent. The entries are those before it.
    Found {
        program: Program,
        certificate: Certificate,
        tried: Seq<Tried>,
    },
    /// All completions of all correspondences that were to be taken are no answer, and these are all entries.
    Exhausted {
        tried: Seq<Tried>,
    },
    /// The entries are as many as the budget.
    Spent {
        tried: Seq<Tried>,
    },
}
