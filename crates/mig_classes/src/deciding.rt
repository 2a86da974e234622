// Which comparisons a list of literals gives, and whether it contradicts itself.
ghost use Rattle.std.specs.Prelude.{◌≡◌, ◌&&◌, ◌||◌, IfOk};
ghost use Rattle.std.specs.List.{list_any};
ghost use Rattle.mig_algebra.specs.Atoms.{oriented as oriented_by};
ghost use Rattle.mig_algebra.specs.Orders as order;
ghost use Rattle.mig_classes.specs.Classes as class;
ghost use Rattle.mig_classes.specs.Given as spec;

use crate::comparing::{Constants, DifferentKeys, NeverEqual};
use crate::complements::negated;
use crate::grouping::Groups;
use mig_algebra::{Atom, Lit, Var, oriented};
use mig_base::Exact;
use mig_schema::Op;
use std::alloc::{AllocError, Global};

/// Whether an operator is true of each value and itself.
fn is_reflexive(op: Op) -> bool
    ensures { result ≡ spec.is_reflexive op }
{
    match op {
        Op::Eq | Op::Le => true,
        Op::Ne | Op::Lt | Op::Gt | Op::Ge => false,
    }
}

/// Whether the sides of an operator may be exchanged.
fn is_symmetric(op: Op) -> bool
    ensures { result ≡ spec.is_symmetric op }
{
    match op {
        Op::Eq | Op::Ne => true,
        Op::Lt | Op::Le | Op::Gt | Op::Ge => false,
    }
}

/// Whether an operator is the inequality.
fn is_unequal(op: Op) -> bool
    ensures { result ≡ spec.is_unequal op }
{
    match op {
        Op::Ne => true,
        Op::Eq | Op::Lt | Op::Le | Op::Gt | Op::Ge => false,
    }
}

/// The place of an operator among the operators.
fn op_rank(op: Op) -> u8
    ensures { result ≡ order.op_rank op }
{
    match op {
        Op::Eq => 0,
        Op::Ne => 1,
        Op::Lt => 2,
        Op::Le => 3,
        Op::Gt => 4,
        Op::Ge => 5,
    }
}

/// Whether two atoms are in the classes of two others.
fn in_classes(groups: &Groups, left: &Atom, right: &Atom, x: &Atom, y: &Atom) -> bool
    ensures { result ≡ (class.one_class groups.now.lits.now left.now x.now && class.one_class groups.now.lits.now right.now y.now) }
{
    groups.one_class(left, x) && groups.one_class(right, y)
}

/// Whether a literal compares two classes by an operator.
fn says(groups: &Groups, op: Op, left: &Atom, right: &Atom, lit: &Lit) -> bool
    ensures { result ≡ spec.says groups.now.lits.now op left.now right.now lit.now }
{
    match lit {
        Lit::Cmp {
            op: op2,
            left: x,
            right: y,
        } => {
            op_rank(op) == op_rank(*op2)
                && (in_classes(groups, left, right, x, y)
                    || is_symmetric(op) && in_classes(groups, left, right, y, x))
        }
        _ => false,
    }
}

/// Whether a literal of the list says so.
fn is_said(groups: &Groups, op: Op, left: &Atom, right: &Atom) -> bool
    ensures { result ≡ list_any (spec.says groups.now.lits.now op left.now right.now) groups.now.lits.now }
{
    for lit in groups.lits {
        if says(groups, op, left, right, lit) {
            return true;
        }
    }
    false
}

/// Whether constants of two classes compare so.
fn by_constants(groups: &Groups, op: Op, left: &Atom, right: &Atom) -> bool
    ensures { result ≡ spec.by_constants groups.now.lits.now op left.now right.now }
{
    groups.some_of_classes(&Constants { op }, left, right)
}

/// Whether an inequality is one of keys of two classes.
fn by_keys(groups: &Groups, scope: &[Var], op: Op, left: &Atom, right: &Atom) -> bool
    ensures { result ≡ spec.by_keys scope.now groups.now.lits.now op left.now right.now }
{
    is_unequal(op) && groups.some_of_classes(&DifferentKeys { scope }, left, right)
}

/// Whether some class holds two atoms that never have one value.
fn never_equal(groups: &Groups, scope: &[Var]) -> bool
    ensures { result ≡ list_any (λ a. spec.some_of_classes groups.now.lits.now (spec.never_equal scope.now) a a) (class.equated groups.now.lits.now) }
{
    groups.clash(&NeverEqual { scope })
}

/// Whether two atoms of a class are compared by an operator that is true of a value and itself.
fn by_class(groups: &Groups, op: Op, left: &Atom, right: &Atom) -> bool
    ensures { result ≡ spec.by_class groups.now.lits.now op left.now right.now }
{
    is_reflexive(op) && groups.one_class(left, right)
}

/// Whether a list gives a comparison.
fn given(groups: &Groups, scope: &[Var], op: Op, left: &Atom, right: &Atom) -> bool
    ensures { result ≡ spec.given scope.now groups.now.lits.now op left.now right.now }
{
    by_class(groups, op, left, right)
        || by_constants(groups, op, left, right)
        || by_keys(groups, scope, op, left, right)
        || is_said(groups, op, left, right)
}

/// Whether a list gives the complement of a comparison.
fn denies(
    alloc: Global,
    groups: &Groups,
    scope: &[Var],
    op: Op,
    left: &Atom,
    right: &Atom,
) -> Result<bool, AllocError>
    ensures { IfOk result (λ b. b ≡ spec.is_given scope.now groups.now.lits.now (oriented_by (spec.negated op) left.now right.now)) }
{
    let left = left.twin(alloc)?;
    let right = right.twin(alloc)?;
    let complement = oriented(negated(op), left, right);
    Ok(groups.gives(scope, &complement))
}

/// Whether a literal is a comparison whose complement a list gives.
fn is_denied(alloc: Global, groups: &Groups, scope: &[Var], lit: &Lit) -> Result<bool, AllocError>
    ensures { IfOk result (λ b. b ≡ spec.is_denied scope.now groups.now.lits.now lit.now) }
{
    match lit {
        Lit::Cmp { op, left, right } => {
            let denied = denies(alloc, groups, scope, *op, left, right)?;
            Ok(denied)
        }
        _ => Ok(false),
    }
}

/// Whether some literal of the list is denied.
fn some_denied(alloc: Global, groups: &Groups, scope: &[Var]) -> Result<bool, AllocError>
    ensures { IfOk result (λ b. b ≡ list_any (spec.is_denied scope.now groups.now.lits.now) groups.now.lits.now) }
{
    for lit in groups.lits {
        let denied = is_denied(alloc, groups, scope, lit)?;
        if denied {
            return Ok(true);
        }
    }
    Ok(false)
}

/// Whether a literal parts a row from itself.
fn parts_itself(lit: &Lit) -> bool
    ensures { result ≡ spec.parts_itself lit.now }
{
    match lit {
        Lit::Other { left, right } => *left == *right,
        _ => false,
    }
}

/// Whether some literal of a list does so.
fn some_parts_itself(lits: &[Lit]) -> bool
    ensures { result ≡ list_any spec.parts_itself lits.now }
{
    for lit in lits {
        if parts_itself(lit) {
            return true;
        }
    }
    false
}

impl<'a> Groups<'a> {
    /// Whether the list gives a literal, these variables being in scope: a comparison may be given, an `Other` or a body is not.
    pub fn gives(&self, scope: &[Var], lit: &Lit) -> bool
        ensures { result ≡ spec.is_given scope.now self.now.lits.now lit.now }
    {
        match lit {
            Lit::Cmp { op, left, right } => given(self, scope, *op, left, right),
            _ => false,
        }
    }

    /// Whether the list contradicts itself, these variables being in scope. The only error is want of memory.
    pub fn contradict(&self, alloc: Global, scope: &[Var]) -> Result<bool, AllocError>
        ensures { IfOk result (λ b. b ≡ spec.contradictory scope.now self.now.lits.now) }
    {
        let clash = never_equal(self, scope);
        if clash {
            return Ok(true);
        }
        let denied = some_denied(alloc, self, scope)?;
        Ok(denied || some_parts_itself(self.lits))
    }
}

/// Whether a list of literals gives a literal, these variables being in scope: a comparison whose sides are in one class, or whose classes hold constants, or keys, that make it true, or that the list itself has between the same classes. The only error is want of memory.
pub fn is_given(alloc: Global, scope: &[Var], lits: &[Lit], lit: &Lit) -> Result<bool, AllocError>
    ensures { IfOk result (λ b. b ≡ spec.is_given scope.now lits.now lit.now) }
{
    let groups = Groups::of(alloc, lits)?;
    Ok(groups.gives(scope, lit))
}

/// Whether a list of literals contradicts itself, these variables being in scope: a class holds two values that are never equal, or the complement of a comparison is given, or a row is parted from itself. The only error is want of memory.
pub fn contradictory(alloc: Global, scope: &[Var], lits: &[Lit]) -> Result<bool, AllocError>
    ensures { IfOk result (λ b. b ≡ spec.contradictory scope.now lits.now) }
{
    let groups = Groups::of(alloc, lits)?;
    let found = groups.contradict(alloc, scope)?;
    Ok(found)
}

/// Whether two atoms are in one class by the equalities of a list. The only error is want of memory.
pub fn one_class(alloc: Global, lits: &[Lit], left: &Atom, right: &Atom) -> Result<bool, AllocError>
    ensures { IfOk result (λ b. b ≡ class.one_class lits.now left.now right.now) }
{
    let groups = Groups::of(alloc, lits)?;
    Ok(groups.one_class(left, right))
}
