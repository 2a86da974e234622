// The order of atoms, and comparisons that are kept oriented.
ghost use Rattle.std.specs.Prelude.{◌≡◌};
ghost use Rattle.mig_algebra.specs.Atoms as spec;

use crate::atoms::Atom;
use crate::literals::Lit;
use mig_schema::Op;
use std::cmp::Ordering;

/// The place of an atom's form among the forms.
fn atom_rank(atom: &Atom) -> u8
    ensures { result ≡ spec.atom_rank atom.now }
{
    match atom {
        Atom::Int(_) => 0,
        Atom::Text(_) => 1,
        Atom::Param(_) => 2,
        Atom::Fresh(_) => 3,
        Atom::Col { .. } => 4,
    }
}

/// How two atoms stand: numbers before texts, parameters, labels and columns, each by value, columns by variable and then by column. It takes no memory, and `Equal` comes exactly where both are the same.
pub fn atom_order(left: &Atom, right: &Atom) -> Ordering
    ensures { result ≡ spec.atom_order left.now right.now }
{
    match (left, right) {
        (Atom::Int(a), Atom::Int(b)) => a.cmp(b),
        (Atom::Text(a), Atom::Text(b)) => a.as_slice().cmp(b.as_slice()),
        (Atom::Param(a), Atom::Param(b)) => a.cmp(b),
        (Atom::Fresh(a), Atom::Fresh(b)) => a.cmp(b),
        (
            Atom::Col { var, column },
            Atom::Col {
                var: var2,
                column: column2,
            },
        ) => var.cmp(var2).then(column.cmp(column2)),
        _ => atom_rank(left).cmp(&atom_rank(right)),
    }
}

/// Whether an atom stands before another.
fn is_before(left: &Atom, right: &Atom) -> bool
    ensures { result ≡ spec.atom_lt left.now right.now }
{
    atom_order(left, right).is_lt()
}

/// The comparison, kept oriented: without greater-than, and with the lesser atom left where the sides may be exchanged. It takes no memory.
pub fn oriented(op: Op, left: Atom, right: Atom) -> Lit
    ensures { result ≡ spec.oriented op left right }
{
    let (op, left, right) = match op {
        Op::Gt => (Op::Lt, right, left),
        Op::Ge => (Op::Le, right, left),
        Op::Eq | Op::Ne if is_before(&right, &left) => (op, right, left),
        _ => (op, left, right),
    };
    Lit::Cmp { op, left, right }
}
