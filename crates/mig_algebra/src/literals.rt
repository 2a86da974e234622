// What a choice of rows has to meet: literals, which may hold bodies of further variables and literals.
ghost use Rattle.std.specs.Prelude.{◌≡◌, ◌↔◌, IsTrue, IfOk};

use crate::atoms::{Atom, Var};
use mig_base::{Exact, Seq};
use mig_schema::Op;
use std::alloc::{AllocError, Global};

/// A body: variables that it binds, and what their rows have to meet. Its own variables have the numbers after those of what it stands in.
#[cycle(lit)]
#[derive(Drop)]
pub struct Inner {
    pub vars: Seq<Var>,
    pub lits: Seq<Lit>,
}

/// A literal: it is met, or not, by a choice of a row for each variable in scope.
#[cycle(lit)]
#[derive(Drop)]
pub enum Lit {
    /// Two values compare so.
    Cmp { op: Op, left: Atom, right: Atom },
    /// Two variables of one side and table have rows of different ids.
    Other { left: u32, right: u32 },
    /// Where `held`, some choice of rows for the body's variables meets its literals; else none does.
    Any { held: bool, inner: Inner },
}

/// Whether two literals are the same.
#[cycle(same_lit)]
fn same_lit(left: &Lit, right: &Lit) -> bool
    ensures { IsTrue result ↔ (left.now ≡ right.now) }
{
    match (left, right) {
        (
            Lit::Cmp { op, left, right },
            Lit::Cmp {
                op: op2,
                left: left2,
                right: right2,
            },
        ) => *op == *op2 && left.same(left2) && right.same(right2),
        (
            Lit::Other { left, right },
            Lit::Other {
                left: left2,
                right: right2,
            },
        ) => *left == *left2 && *right == *right2,
        (
            Lit::Any { held, inner },
            Lit::Any {
                held: held2,
                inner: inner2,
            },
        ) => {
            *held == *held2
                && inner.vars.same(&inner2.vars)
                && same_lits(inner.lits.as_slice(), inner2.lits.as_slice())
        }
        _ => false,
    }
}

/// Whether two lists have the same literals in the same order.
#[cycle(same_lit)]
fn same_lits(left: &[Lit], right: &[Lit]) -> bool
    ensures { IsTrue result ↔ (left.now ≡ right.now) }
{
    if left.len() != right.len() {
        return false;
    }
    for i in 0..left.len() {
        if !same_lit(&left[i], &right[i]) {
            return false;
        }
    }
    true
}

/// A copy of a literal.
#[cycle(twin_lit)]
fn twin_lit(alloc: Global, lit: &Lit) -> Result<Lit, AllocError>
    ensures { IfOk result (λ x. x ≡ lit.now) }
{
    match lit {
        Lit::Cmp { op, left, right } => Ok(Lit::Cmp {
            op: *op,
            left: left.twin(alloc)?,
            right: right.twin(alloc)?,
        }),
        Lit::Other { left, right } => Ok(Lit::Other {
            left: *left,
            right: *right,
        }),
        Lit::Any { held, inner } => {
            let vars = inner.vars.twin(alloc)?;
            let lits = Seq::from_vec(twin_lits(alloc, inner.lits.as_slice())?);
            Ok(Lit::Any {
                held: *held,
                inner: Inner { vars, lits },
            })
        }
    }
}

/// A copy of each literal, in order.
#[cycle(twin_lit)]
fn twin_lits(alloc: Global, lits: &[Lit]) -> Result<Vec<Lit>, AllocError>
    ensures { IfOk result (λ v. v.items ≡ lits.now) }
{
    let mut twins = Vec::with_capacity(alloc, lits.len())?;
    for lit in lits {
        twins.push(twin_lit(alloc, lit)?)?;
    }
    Ok(twins)
}

impl Exact for Inner {
    fn same(&self, other: &Inner) -> bool {
        self.vars.same(&other.vars) && same_lits(self.lits.as_slice(), other.lits.as_slice())
    }

    fn twin(&self, alloc: Global) -> Result<Inner, AllocError> {
        let vars = self.vars.twin(alloc)?;
        let lits = Seq::from_vec(twin_lits(alloc, self.lits.as_slice())?);
        Ok(Inner { vars, lits })
    }
}

impl Exact for Lit {
    fn same(&self, other: &Lit) -> bool {
        same_lit(self, other)
    }

    fn twin(&self, alloc: Global) -> Result<Lit, AllocError> {
        twin_lit(alloc, self)
    }
}
