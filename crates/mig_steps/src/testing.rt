// Whether all that a literal names passes a test.
ghost use Rattle.std.specs.Prelude.{◌≡◌};
ghost use Rattle.std.specs.List.{list_all};
ghost use Rattle.mig_algebra.specs.Rename.{lit_all};

use mig_algebra::{Atom, Lit};

/// A test of atoms, and of the variables that an `Other` names.
pub trait Naming {
    ghost use Rattle.std.specs.Prelude.{ℕ, Bool};
    ghost use Rattle.mig_algebra.specs.declared.atoms.Atom.{Atom};

    ghost atom_passes: { Self → Atom → Bool };

    ghost id_passes: { Self → ℕ → Bool };

    /// Whether an atom passes.
    fn passes(&self, atom: &Atom) -> bool
        ensures { result ≡ atom_passes self.now atom.now };

    /// Whether a variable passes that an `Other` names.
    fn passes_id(&self, var: u32) -> bool
        ensures { result ≡ id_passes self.now var };
}

/// Whether all that a literal names passes, at every depth.
#[cycle(passing)]
pub fn lit_passes<T: Naming>(test: &T, lit: &Lit) -> bool
    ensures { result ≡ lit_all (T.atom_passes test.now) (T.id_passes test.now) lit.now }
{
    match lit {
        Lit::Cmp { left, right, .. } => test.passes(left) && test.passes(right),
        Lit::Other { left, right } => test.passes_id(*left) && test.passes_id(*right),
        Lit::Any { inner, .. } => lits_pass(test, inner.lits.as_slice()),
    }
}

/// The same of each literal of a list.
#[cycle(passing)]
pub fn lits_pass<T: Naming>(test: &T, lits: &[Lit]) -> bool
    ensures { result ≡ list_all (lit_all (T.atom_passes test.now) (T.id_passes test.now)) lits.now }
{
    for lit in lits {
        if !lit_passes(test, lit) {
            return false;
        }
    }
    true
}

/// The same of each atom of a list.
pub fn atoms_pass<T: Naming>(test: &T, atoms: &[Atom]) -> bool
    ensures { result ≡ list_all (T.atom_passes test.now) atoms.now }
{
    for atom in atoms {
        if !test.passes(atom) {
            return false;
        }
    }
    true
}
