// The orders of variables, literals and terms.
ghost use Rattle.std.specs.Prelude.{◌≡◌};
ghost use Rattle.std.specs.Cmp.Lexicographic.{slice_cmp};
ghost use Rattle.mig_algebra.specs.Orders as spec;

use crate::atoms::{Atom, Var};
use crate::literals::Lit;
use crate::ordered::{Ordered, list_order};
use crate::orienting::atom_order;
use crate::terms::Term;
use mig_schema::{Op, Side};
use std::cmp::Ordering;

impl Ordered for Atom {
    ghost use Rattle.mig_algebra.specs.Atoms.{atom_order};

    ghost order = { atom_order };

    fn compare(&self, other: &Atom) -> Ordering {
        atom_order(self, other)
    }
}

/// The place of a side among the sides.
fn side_rank(side: Side) -> u8
    ensures { result ≡ spec.side_rank side }
{
    match side {
        Side::Old => 0,
        Side::New => 1,
    }
}

/// How two variables stand: by side, the old one first, then by table and stage. It takes no memory, and `Equal` comes exactly where both are the same.
pub fn var_order(left: &Var, right: &Var) -> Ordering
    ensures { result ≡ spec.var_order left.now right.now }
{
    let side = side_rank(left.side).cmp(&side_rank(right.side));
    let table = left.table.cmp(&right.table);
    side.then(table.then(left.stage.cmp(&right.stage)))
}

impl Ordered for Var {
    ghost use Rattle.mig_algebra.specs.Orders.{var_order};

    ghost order = { var_order };

    fn compare(&self, other: &Var) -> Ordering {
        var_order(self, other)
    }
}

/// The place of an operator among the operators.
fn op_rank(op: Op) -> u8
    ensures { result ≡ spec.op_rank op }
{
    match op {
        Op::Eq => 0,
        Op::Ne => 1,
        Op::Lt => 2,
        Op::Le => 3,
        Op::Gt => 4,
        Op::Ge => 5,
    }
}

/// The place of a literal's form among the forms.
fn lit_rank(lit: &Lit) -> u8
    ensures { result ≡ spec.lit_rank lit.now }
{
    match lit {
        Lit::Cmp { .. } => 0,
        Lit::Other { .. } => 1,
        Lit::Any { .. } => 2,
    }
}

/// How two literals stand: comparisons, then different rows, then bodies, each by their parts in the order of their declaration, and lists by their first difference, a front first. It takes no memory, and `Equal` comes exactly where both are the same.
#[cycle(lit_order)]
pub fn lit_order(left: &Lit, right: &Lit) -> Ordering
    ensures { result ≡ spec.lit_order left.now right.now }
{
    match (left, right) {
        (
            Lit::Cmp { op, left, right },
            Lit::Cmp {
                op: op2,
                left: left2,
                right: right2,
            },
        ) => {
            let op = op_rank(*op).cmp(&op_rank(*op2));
            op.then(atom_order(left, left2).then(atom_order(right, right2)))
        }
        (
            Lit::Other { left, right },
            Lit::Other {
                left: left2,
                right: right2,
            },
        ) => left.cmp(left2).then(right.cmp(right2)),
        (
            Lit::Any { held, inner },
            Lit::Any {
                held: held2,
                inner: inner2,
            },
        ) => {
            let vars = list_order(inner.vars.as_slice(), inner2.vars.as_slice());
            let lits = lits_order(inner.lits.as_slice(), inner2.lits.as_slice());
            held.cmp(held2).then(vars.then(lits))
        }
        _ => lit_rank(left).cmp(&lit_rank(right)),
    }
}

/// How two lists of literals stand.
#[cycle(lit_order)]
fn lits_order(left: &[Lit], right: &[Lit]) -> Ordering
    ensures { result ≡ slice_cmp spec.lit_order left.now right.now }
{
    for i in 0..left.len().min(right.len()) {
        match lit_order(&left[i], &right[i]) {
            Ordering::Equal => {}
            order => return order,
        }
    }
    left.len().cmp(&right.len())
}

impl Ordered for Lit {
    ghost use Rattle.mig_algebra.specs.Orders.{lit_order};

    ghost order = { lit_order };

    fn compare(&self, other: &Lit) -> Ordering {
        lit_order(self, other)
    }
}

/// How two terms stand: by variables, then by literals, then by heads, each a list that is compared by its first difference, a front first. It takes no memory, and `Equal` comes exactly where both are the same.
pub fn term_order(left: &Term, right: &Term) -> Ordering
    ensures { result ≡ spec.term_order left.now right.now }
{
    let vars = list_order(left.vars.as_slice(), right.vars.as_slice());
    let lits = list_order(left.lits.as_slice(), right.lits.as_slice());
    let head = list_order(left.head.as_slice(), right.head.as_slice());
    vars.then(lits.then(head))
}

impl Ordered for Term {
    ghost use Rattle.mig_algebra.specs.Orders.{term_order};

    ghost order = { term_order };

    fn compare(&self, other: &Term) -> Ordering {
        term_order(self, other)
    }
}
