// Whether the variables that an expression names are in scope.
ghost use Rattle.std.specs.Prelude.{◌≡◌, ◌↔◌, IsTrue};
ghost use Rattle.std.specs.List.{list_all};
ghost use Rattle.mig_algebra.specs.Scope as spec;

use crate::atoms::Atom;
use crate::literals::Lit;
use crate::terms::{Expr, Term};

/// So many variables are never in scope at one place.
const MANY: usize = 2147483648;

/// Whether an atom names none but the first `count` variables.
fn atom_scoped(count: usize, atom: &Atom) -> bool
    ensures { result ≡ spec.atom_scoped count atom.now }
{
    match atom {
        Atom::Col { var, .. } => (*var as usize) < count,
        _ => true,
    }
}

/// Whether a literal names none but variables in scope, of which there are `count` around it.
#[cycle(lit_scoped)]
fn lit_scoped(count: usize, lit: &Lit) -> bool
    ensures { result ≡ spec.lit_scoped count lit.now }
{
    match lit {
        Lit::Cmp { left, right, .. } => atom_scoped(count, left) && atom_scoped(count, right),
        Lit::Other { left, right } => (*left as usize) < count && (*right as usize) < count,
        Lit::Any { inner, .. } => match count.checked_add(inner.vars.len()) {
            Some(all) => all < MANY && lits_scoped(all, inner.lits.as_slice()),
            None => false,
        },
    }
}

/// Whether each literal does.
#[cycle(lit_scoped)]
fn lits_scoped(count: usize, lits: &[Lit]) -> bool
    ensures { result ≡ list_all (spec.lit_scoped count) lits.now }
{
    for lit in lits {
        if !lit_scoped(count, lit) {
            return false;
        }
    }
    true
}

/// Whether each atom names none but the first `count` variables.
fn atoms_scoped(count: usize, atoms: &[Atom]) -> bool
    ensures { result ≡ list_all (spec.atom_scoped count) atoms.now }
{
    atoms.iter().all(|a| atom_scoped(count, a))
}

/// Whether a term names none but variables in scope.
fn term_scoped(term: &Term) -> bool
    ensures { result ≡ spec.term_scoped term.now }
{
    let count = term.vars.len();
    count < MANY
        && lits_scoped(count, term.lits.as_slice())
        && atoms_scoped(count, term.head.as_slice())
}

/// Whether each of these terms does.
fn terms_scoped(terms: &[Term]) -> bool
    ensures { result ≡ list_all spec.term_scoped terms.now }
{
    terms.iter().all(|t| term_scoped(t))
}

/// Whether each variable that an expression names is in scope there, and fewer than 2^31 are in scope at each place, as `tidy` asks. It takes no memory.
pub fn is_scoped(expr: &Expr) -> bool
    ensures { IsTrue result ↔ spec.IsScoped expr.now }
{
    terms_scoped(expr.terms.as_slice())
}
