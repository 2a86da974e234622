// Literals in which atoms and variables are written as others.
ghost use Rattle.std.specs.Prelude.{◌≡◌, map, IfOk};
ghost use Rattle.mig_algebra.specs.Rename.{lit_with};

use crate::atoms::Atom;
use crate::literals::{Inner, Lit};
use crate::orienting::oriented;
use mig_base::{Exact, Seq};
use std::alloc::{AllocError, Global};

/// What is written for atoms, and for the variables that an `Other` names.
pub trait Renaming {
    ghost use Rattle.std.specs.Prelude.{ℕ};
    ghost use Rattle.mig_algebra.specs.declared.atoms.Atom.{Atom};

    ghost atom_for: { Self → Atom → Atom };

    ghost id_for: { Self → ℕ → ℕ };

    /// What is written for an atom.
    fn atom(&self, alloc: Global, atom: &Atom) -> Result<Atom, AllocError>
        ensures { IfOk result (λ a. a ≡ atom_for self.now atom.now) };

    /// The number of the variable that is written for one. A number that is no u32 counts as want of memory.
    fn id(&self, var: u32) -> Result<u32, AllocError>
        ensures { IfOk result (λ v. v ≡ id_for self.now var) };
}

/// A literal in which what a renaming says is written, at every depth; comparisons are oriented again.
#[cycle(renamed)]
pub fn renamed_lit<R: Renaming>(alloc: Global, renaming: &R, lit: &Lit) -> Result<Lit, AllocError>
    ensures { IfOk result (λ l. l ≡ lit_with (R.atom_for renaming.now) (R.id_for renaming.now) lit.now) }
{
    match lit {
        Lit::Cmp { op, left, right } => {
            let left = renaming.atom(alloc, left)?;
            let right = renaming.atom(alloc, right)?;
            Ok(oriented(*op, left, right))
        }
        Lit::Other { left, right } => {
            let left = renaming.id(*left)?;
            let right = renaming.id(*right)?;
            Ok(Lit::Other { left, right })
        }
        Lit::Any { held, inner } => {
            let vars = inner.vars.twin(alloc)?;
            let lits = Seq::from_vec(renamed_lits(alloc, renaming, inner.lits.as_slice())?);
            Ok(Lit::Any {
                held: *held,
                inner: Inner { vars, lits },
            })
        }
    }
}

/// The literals of a list, each so written.
#[cycle(renamed)]
pub fn renamed_lits<R: Renaming>(
    alloc: Global,
    renaming: &R,
    lits: &[Lit],
) -> Result<Vec<Lit>, AllocError>
    ensures { IfOk result (λ v. v.items ≡ map (lit_with (R.atom_for renaming.now) (R.id_for renaming.now)) lits.now) }
{
    let mut written = Vec::with_capacity(alloc, lits.len())?;
    for lit in lits {
        written.push(renamed_lit(alloc, renaming, lit)?)?;
    }
    Ok(written)
}

/// The atoms of a list, each so written.
pub fn renamed_atoms<R: Renaming>(
    alloc: Global,
    renaming: &R,
    atoms: &[Atom],
) -> Result<Vec<Atom>, AllocError>
    ensures { IfOk result (λ v. v.items ≡ map (R.atom_for renaming.now) atoms.now) }
{
    let mut written = Vec::with_capacity(alloc, atoms.len())?;
    for atom in atoms {
        written.push(renaming.atom(alloc, atom)?)?;
    }
    Ok(written)
}
