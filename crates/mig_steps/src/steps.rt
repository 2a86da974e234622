// Steps: a rule, and where in an expression it is used.
use mig_algebra::Invariants;
use mig_base::{Exact, Seq};
use mig_obligations::Pair;
use std::alloc::{AllocError, Global};

/// What may be used of a pair: each invariant holds before the call, and no row holds one of the call's keys then.
#[derive(Clone, Copy)]
pub struct Facts<'a> {
    pub pair: &'a Pair<'a>,
    pub invariants: &'a Invariants,
}

/// A rule that rewrites an expression to one of the same bag, in the order in which rules are tried.
#[derive(Clone, Copy, Debug, PartialEq, Eq, PartialOrd, Ord)]
pub enum Rule {
    /// A variable of a term is unfolded by the statement before its stage.
    Stage,
    /// A variable of a body is unfolded by the statement before its stage.
    StageIn,
    /// A term whose literals contradict each other goes.
    Dead,
    /// Each atom becomes the least of its class.
    Same,
    /// A literal that the others give goes.
    Implied,
    /// A held body without variables becomes its literals.
    Lift,
    /// A body without variables that is not held becomes one alternative for each of its literals.
    Split,
    /// A body is met by variables in scope.
    Found,
    /// A body's variable is one outside it, since their table's column is unique.
    Alone,
    /// A body's variable that is used once is there in any case, since one column is within the other.
    Inside,
    /// A body that no rows meet is decided.
    Never,
    /// Two variables of a term are one, since their table's column is unique.
    Merge,
    /// A term that equates two columns that are apart goes.
    Apart,
    /// A term's variable that is used once goes, since exactly one row meets it.
    Lossless,
    /// In a term, the old view's variables become the new view's.
    Fold,
    /// In a body, the old view's variables become the new view's.
    FoldIn,
    /// Two terms that differ in a literal and its complement become one without it.
    Rejoin,
}

/// One use of a rule.
#[derive(Debug, Drop)]
pub struct Step {
    pub rule: Rule,
    /// The number of a term, from 0.
    pub term: u32,
    /// The number of a literal of the term, then of a literal in that one's body, and so on; empty for the term itself.
    pub path: Seq<u32>,
    /// Numbers of variables, invariants, terms or literals, as the rule wants.
    pub args: Seq<u32>,
}

/// Why a step gives no expression.
#[derive(Clone, Copy, Debug, PartialEq, Eq)]
pub enum StepFault {
    /// Memory ran out.
    Memory,
    /// The rule does not allow the step, or a limit does not.
    NoFollow,
}

impl Exact for Rule {
    fn same(&self, other: &Rule) -> bool {
        *self == *other
    }

    fn twin(&self, _alloc: Global) -> Result<Rule, AllocError> {
        Ok(*self)
    }
}

impl Exact for Step {
    fn same(&self, other: &Step) -> bool {
        self.rule == other.rule
            && self.term == other.term
            && self.path.same(&other.path)
            && self.args.same(&other.args)
    }

    fn twin(&self, alloc: Global) -> Result<Step, AllocError> {
        let path = self.path.twin(alloc)?;
        let args = self.args.twin(alloc)?;
        Ok(Step {
            rule: self.rule,
            term: self.term,
            path,
            args,
        })
    }
}
