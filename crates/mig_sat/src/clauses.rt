// Clauses over numbered variables, and values for the variables.
ghost use Rattle.std.specs.Prelude.{◌↔◌, ◌<◌, All, IsTrue};
ghost use Rattle.mig_sat.specs.Models.{IsInRange};
ghost use Rattle.mig_sat.specs.declared.clauses.SatLit.{SatLit as Lit};

use mig_base::Seq;

/// A variable, or its negation where it is not positive.
#[derive(Debug, Clone, Copy, PartialEq, Eq)]
pub struct SatLit {
    pub var: u32,
    pub positive: bool,
}

/// Clauses over the variables below `vars`: in each, one literal or more must be true.
#[derive(Debug, Drop)]
pub struct Cnf {
    pub vars: u32,
    pub clauses: Seq<Seq<SatLit>>,
}

/// A value for each variable, by its number.
#[derive(Debug, Drop)]
pub struct Model {
    pub values: Seq<bool>,
}

/// Whether the variable of each literal is below `vars`.
fn is_below(lits: &[SatLit], vars: u32) -> bool
    ensures { IsTrue result ↔ All (λ (l : Lit). l.var < vars) lits.now }
{
    lits.iter().all(|lit| lit.var < vars)
}

impl Cnf {
    /// Whether the variable of each literal is below `vars`, as the solvers ask.
    pub fn is_in_range(&self) -> bool
        ensures { IsTrue result ↔ IsInRange self.now }
    {
        let vars = self.vars;
        self.clauses
            .as_slice()
            .iter()
            .all(|clause| is_below(clause.as_slice(), vars))
    }
}
