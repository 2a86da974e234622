// Plans: functions whose statements and queries are holes, what may stand in each, and choices of it.
ghost use Rattle.std.specs.Prelude.{◌↔◌, IsTrue};
ghost use Rattle.mig_sketch.specs.Choices.{IsChoice, sizes_of};

use mig_base::Seq;
use mig_schema::{Function, Query, Stmt};

/// A statement or a query.
#[derive(Debug, Drop)]
pub enum Part {
    Stmt(Stmt),
    Query(Query),
}

/// A place of a function that is open: its function, its number among the function's statements, where a query is statement 0,
/// and what may stand there.
#[derive(Debug, Drop)]
pub struct Hole {
    pub function: u32,
    pub statement: u32,
    pub options: Seq<Part>,
}

/// The old functions, and a hole for each of their statements and queries, by function, then by statement.
#[derive(Debug, Drop)]
pub struct Plan {
    pub functions: Seq<Function>,
    pub holes: Seq<Hole>,
}

/// One option of each hole, by its number from 0.
#[derive(Debug, Drop)]
pub struct Choice {
    pub picks: Seq<u32>,
}

/// A plan in which each hole has 1 to 4,096 options; or the function of the first hole that has none, or more.
#[derive(Debug, Drop)]
pub enum Made {
    Plan(Plan),
    Empty { function: u32 },
    Wide { function: u32 },
}

/// Whether there is one pick for each hole, in range.
fn is_choice(holes: &[Hole], picks: &[u32]) -> bool
    ensures { IsTrue result ↔ IsChoice (sizes_of holes.now) picks.now }
{
    match holes {
        [] => picks.is_empty(),
        [hole, more @ ..] => match picks {
            [] => false,
            [pick, rest @ ..] => (*pick as usize) < hole.options.len() && is_choice(more, rest),
        },
    }
}

impl Plan {
    /// Whether the choice has one pick for each hole, each the number of an option that the hole has, as `fill` asks.
    pub fn takes(&self, choice: &Choice) -> bool
        ensures { IsTrue result ↔ IsChoice (sizes_of self.now.holes) choice.now.picks }
    {
        is_choice(self.holes.as_slice(), choice.picks.as_slice())
    }
}
