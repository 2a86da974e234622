// Whether a variable of a term may be written away.
ghost use Rattle.std.specs.Prelude.{◌≡◌, ◌↔◌, ◌&&◌, IsTrue};
ghost use Rattle.std.specs.List.{list_all};
ghost use Rattle.mig_algebra.specs.Rename.{lit_all, is_not};
ghost use Rattle.mig_classes.specs.Substituted as spec;

use mig_algebra::{Atom, Lit, Term};
use mig_base::Seq;

/// Whether an atom is no column of a variable, or one of its first `count`.
fn column_within(var: u32, count: usize, atom: &Atom) -> bool
    ensures { result ≡ spec.column_within var count atom.now }
{
    match atom {
        Atom::Col { var: v, column } => *v != var || (*column as usize) < count,
        _ => true,
    }
}

/// Whether a literal names no other columns of a variable, and parts it from no row.
#[cycle(lit_passes)]
fn lit_passes(var: u32, count: usize, lit: &Lit) -> bool
    ensures { result ≡ lit_all (spec.column_within var count) (is_not var) lit.now }
{
    match lit {
        Lit::Cmp { left, right, .. } => {
            column_within(var, count, left) && column_within(var, count, right)
        }
        Lit::Other { left, right } => *left != var && *right != var,
        Lit::Any { inner, .. } => lits_pass(var, count, inner.lits.as_slice()),
    }
}

/// Whether each literal does so.
#[cycle(lit_passes)]
fn lits_pass(var: u32, count: usize, lits: &[Lit]) -> bool
    ensures { result ≡ list_all (lit_all (spec.column_within var count) (is_not var)) lits.now }
{
    for lit in lits {
        if !lit_passes(var, count, lit) {
            return false;
        }
    }
    true
}

/// Whether each atom is no other column of a variable.
fn columns_within(var: u32, count: usize, atoms: &[Atom]) -> bool
    ensures { result ≡ list_all (spec.column_within var count) atoms.now }
{
    atoms.iter().all(|a| column_within(var, count, a))
}

/// Whether an atom is no column, or one of another of the first `count` variables.
fn is_of_others(var: u32, count: usize, atom: &Atom) -> bool
    ensures { result ≡ spec.is_of_others var count atom.now }
{
    match atom {
        Atom::Col { var: v, .. } => (*v as usize) < count && *v != var,
        _ => true,
    }
}

/// Whether each atom is so.
fn are_of_others(var: u32, count: usize, atoms: &[Atom]) -> bool
    ensures { result ≡ list_all (spec.is_of_others var count) atoms.now }
{
    atoms.iter().all(|a| is_of_others(var, count, a))
}

/// Whether all four hold.
fn all_four(a: bool, b: bool, c: bool, d: bool) -> bool
    ensures { result ≡ (a && (b && (c && d))) }
{
    a && b && c && d
}

/// Whether `substitute` may write these atoms for the columns of a variable: the variable is the term's own, no `Other` names it, there is an atom at the number of each of its columns that the term names, and the atoms name none but the term's other variables. It takes no memory.
pub fn may_go(term: &Term, var: u32, atoms: &Seq<Atom>) -> bool
    ensures { IsTrue result ↔ spec.MayGo var atoms.now term.now }
{
    let own = (var as usize) < term.vars.len();
    let lits = lits_pass(var, atoms.len(), term.lits.as_slice());
    let head = columns_within(var, atoms.len(), term.head.as_slice());
    let others = are_of_others(var, term.vars.len(), atoms.as_slice());
    all_four(own, lits, head, others)
}
