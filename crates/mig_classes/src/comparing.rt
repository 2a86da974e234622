// Pairs of atoms: constants that compare, keys that differ, values that are never equal.
ghost use Rattle.std.specs.Prelude.{◌≡◌};
ghost use Rattle.mig_classes.specs.Given as spec;
ghost use Rattle.mig_classes.specs.Deciding as deciding;

use mig_algebra::{Atom, Var};
use mig_base::Exact;
use mig_schema::Op;

/// A test of two atoms.
pub(crate) trait PairTest {
    ghost use Rattle.std.specs.Prelude.{◌≡◌, Bool};
    ghost use Rattle.mig_algebra.specs.declared.atoms.Atom.{Atom};

    ghost test: { Self → Atom → Atom → Bool };

    /// Whether two atoms pass.
    fn passes(&self, left: &Atom, right: &Atom) -> bool
        ensures { result ≡ test self.now left.now right.now };
}

/// Whether an operator is true of two texts, or of two values of different forms that are not ordered.
fn unordered(op: Op, same: bool) -> bool
    ensures { result ≡ deciding.unordered op same }
{
    match op {
        Op::Eq => same,
        Op::Ne => !same,
        Op::Lt | Op::Gt => false,
        Op::Le | Op::Ge => true,
    }
}

/// Whether an operator is true of two numbers.
fn ordered(op: Op, left: i64, right: i64) -> bool
    ensures { result ≡ deciding.ordered op left right }
{
    match op {
        Op::Eq => left == right,
        Op::Ne => left != right,
        Op::Lt => left < right,
        Op::Le => left <= right,
        Op::Gt => left > right,
        Op::Ge => left >= right,
    }
}

/// The comparison of two constants; of other atoms it is false.
fn constants_compare(op: Op, left: &Atom, right: &Atom) -> bool
    ensures { result ≡ spec.constants_compare op left.now right.now }
{
    match (left, right) {
        (Atom::Int(a), Atom::Int(b)) => ordered(op, *a, *b),
        (Atom::Text(a), Atom::Text(b)) => unordered(op, a.same(b)),
        (Atom::Int(_), Atom::Text(_)) | (Atom::Text(_), Atom::Int(_)) => unordered(op, false),
        _ => false,
    }
}

/// Whether two constants compare so; of other atoms it is false.
#[derive(Drop)]
pub(crate) struct Constants {
    pub(crate) op: Op,
}

impl PairTest for Constants {
    ghost use Rattle.mig_classes.specs.Given.{constants_compare};

    ghost test = { λ t a b. constants_compare t.op a b };

    fn passes(&self, left: &Atom, right: &Atom) -> bool {
        constants_compare(self.op, left, right)
    }
}

/// Whether a variable ranges over the rows from before the call.
fn is_from_before(scope: &[Var], var: u32) -> bool
    ensures { result ≡ spec.is_from_before scope.now var }
{
    match scope.get(var as usize) {
        Some(var) => var.stage == 0,
        None => false,
    }
}

/// Whether two atoms are keys that differ.
fn keys_differ(scope: &[Var], left: &Atom, right: &Atom) -> bool
    ensures { result ≡ spec.keys_differ scope.now left.now right.now }
{
    match (left, right) {
        (Atom::Fresh(m), Atom::Fresh(n)) => *m != *n,
        (Atom::Fresh(_), Atom::Col { var, .. }) => is_from_before(scope, *var),
        (Atom::Col { var, .. }, Atom::Fresh(_)) => is_from_before(scope, *var),
        _ => false,
    }
}

/// Whether two atoms are keys that differ.
#[derive(Drop)]
pub(crate) struct DifferentKeys<'a> {
    pub(crate) scope: &'a [Var],
}

impl<'a> PairTest for DifferentKeys<'a> {
    ghost use Rattle.mig_classes.specs.Given.{keys_differ};

    ghost test = { λ t a b. keys_differ t.scope.now a b };

    fn passes(&self, left: &Atom, right: &Atom) -> bool {
        keys_differ(self.scope, left, right)
    }
}

/// Whether two atoms never have one value.
#[derive(Drop)]
pub(crate) struct NeverEqual<'a> {
    pub(crate) scope: &'a [Var],
}

impl<'a> PairTest for NeverEqual<'a> {
    ghost use Rattle.mig_classes.specs.Given.{never_equal};

    ghost test = { λ t a b. never_equal t.scope.now a b };

    fn passes(&self, left: &Atom, right: &Atom) -> bool {
        constants_compare(Op::Ne, left, right) || keys_differ(self.scope, left, right)
    }
}
