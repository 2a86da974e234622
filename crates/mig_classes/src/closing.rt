// The classes of the atoms that a term's equalities name.
ghost use Rattle.std.specs.Prelude.{◌≡◌, ◌<◌, ◌++◌, ◌∷◌, List, [], length, map, IfOk, OnOk};
ghost use Rattle.mig_algebra.specs.declared.atoms.Atom.{Atom as AnAtom};
ghost use Rattle.mig_algebra.specs.declared.literals.Lit.{Lit as ALit};
ghost use Rattle.mig_algebra.specs.Atoms as order;
ghost use Rattle.mig_algebra.specs.Sorted as sorting;
ghost use Rattle.mig_meaning.specs.Lists.{In};
ghost use Rattle.mig_classes.specs.Classes as spec;
ghost use Rattle.mig_classes.specs.Forests.{IsForest, LeadsTo, RisesTo, atom_of};

use crate::forests::{root, singles, unite};
use mig_algebra::{Atom, Classes, Lit, Term, atom_order};
use mig_base::{Exact, Seq};
use mig_schema::Op;
use std::alloc::{AllocError, Global};

/// Puts both sides of an equality at the end; of another literal nothing.
fn push_sides(alloc: Global, atoms: &mut Vec<Atom>, lit: &Lit) -> Result<(), AllocError>
    ensures { OnOk result (atoms.new.items ≡ atoms.old.items ++ spec.equated (lit.now ∷ [])) }
{
    match lit {
        Lit::Cmp {
            op: Op::Eq,
            left,
            right,
        } => {
            atoms.push(left.twin(alloc)?)?;
            atoms.push(right.twin(alloc)?)?;
            Ok(())
        }
        _ => Ok(()),
    }
}

/// Both sides of each equality, in their order.
pub(crate) fn equated(alloc: Global, lits: &[Lit]) -> Result<Vec<Atom>, AllocError>
    ensures { IfOk result (λ v. v.items ≡ spec.equated lits.now) }
{
    let mut atoms = Vec::new(alloc);
    for lit in lits {
        push_sides(alloc, &mut atoms, lit)?;
    }
    Ok(atoms)
}

/// The atoms in order, each once.
pub(crate) fn in_order(atoms: Vec<Atom>) -> Vec<Atom>
    ensures { result.items ≡ sorting.sorted_once order.atom_order atoms.items }
{
    let mut atoms = atoms;
    atoms.sort_unstable_by(|a, b| atom_order(a, b));
    atoms.dedup_by(|atom, kept| atom_order(atom, kept).is_eq());
    atoms
}

/// The number of an atom among atoms in order.
fn number_of(atoms: &[Atom], atom: &Atom) -> usize
    requires rising { RisesTo (length atoms.now) (atom_of atoms.now) }
    requires there { In atom.now atoms.now }
    ensures within { result < length atoms.now }
    ensures is { atom_of atoms.now result ≡ atom.now }
{
    match atoms.binary_search_by(|a| atom_order(a, atom)) {
        Ok(at) => at,
        Err(at) => at,
    }
}

/// Makes the classes of both sides of an equality one; another literal changes nothing.
fn unite_sides(parents: &mut Vec<usize>, atoms: &[Atom], lit: &Lit)
    requires forest { IsForest parents.old.items }
    requires count { length parents.old.items ≡ length atoms.now }
    requires rising { RisesTo (length atoms.now) (atom_of atoms.now) }
    requires there { (a : AnAtom) → In a (spec.equated (lit.now ∷ [])) → In a atoms.now }
    ensures count { length parents.new.items ≡ length atoms.now }
    ensures forest { IsForest parents.new.items }
    ensures leads { (ls : List ALit) → LeadsTo (atom_of atoms.now) (λ k. spec.least ls (atom_of atoms.now k)) parents.old.items → LeadsTo (atom_of atoms.now) (λ k. spec.least (lit.now ∷ ls) (atom_of atoms.now k)) parents.new.items }
{
    match lit {
        Lit::Cmp { op, left, right } => match op {
            Op::Eq => {
                let left = number_of(atoms, left);
                let right = number_of(atoms, right);
                unite(parents, left, right);
            }
            _ => {}
        },
        _ => {}
    }
}

/// The atoms that the equalities name, each of which leads to the least of its class.
pub(crate) fn united(alloc: Global, atoms: &[Atom], lits: &[Lit]) -> Result<Vec<usize>, AllocError>
    requires { atoms.now ≡ spec.named lits.now }
    ensures count { IfOk result (λ v. length v.items ≡ length atoms.now) }
    ensures forest { IfOk result (λ v. IsForest v.items) }
    ensures leads { IfOk result (λ v. LeadsTo (atom_of atoms.now) (λ k. spec.least lits.now (atom_of atoms.now k)) v.items) }
{
    let mut parents = singles(alloc, atoms.len())?;
    for done in 0..lits.len() {
        unite_sides(&mut parents, atoms, &lits[lits.len() - 1 - done]);
    }
    Ok(parents)
}

/// An empty list for each atom.
fn empty_groups(alloc: Global, atoms: &[Atom]) -> Result<Vec<Seq<Atom>>, AllocError>
    ensures { IfOk result (λ v. v.items ≡ map (λ (a : AnAtom). []) atoms.now) }
{
    let mut groups = Vec::with_capacity(alloc, atoms.len())?;
    for _atom in atoms {
        groups.push(Seq::new(alloc))?;
    }
    Ok(groups)
}

/// For each atom those of whose class it is the least, in order.
fn grouped(
    alloc: Global,
    atoms: &[Atom],
    parents: &mut Vec<usize>,
) -> Result<Vec<Seq<Atom>>, AllocError>
    requires forest { IsForest parents.old.items }
    requires count { length parents.old.items ≡ length atoms.now }
    requires rising { RisesTo (length atoms.now) (atom_of atoms.now) }
    ensures { IfOk result (λ v. (ls : List ALit) → LeadsTo (atom_of atoms.now) (λ k. spec.least ls (atom_of atoms.now k)) parents.old.items → v.items ≡ map (spec.led_by ls atoms.now) atoms.now) }
{
    let mut groups = empty_groups(alloc, atoms)?;
    for number in 0..atoms.len() {
        let least = root(parents, number);
        groups[least].push(atoms[number].twin(alloc)?)?;
    }
    Ok(groups)
}

/// The classes of two and more atoms by these literals, each sorted, in the order of their least atoms.
fn classes_of(alloc: Global, lits: &[Lit]) -> Result<Seq<Seq<Atom>>, AllocError>
    ensures { IfOk result (λ g. g ≡ spec.classes lits.now) }
{
    let atoms = in_order(equated(alloc, lits)?);
    let mut parents = united(alloc, atoms.as_slice(), lits)?;
    let mut groups = grouped(alloc, atoms.as_slice(), &mut parents)?;
    groups.retain(|group| group.len() > 1);
    Ok(Seq::from_vec(groups))
}

/// The classes into which the term's own equalities group atoms: each of two and more atoms, sorted, in the order of their least atoms. An atom that no equality names is in no class of two; equalities in bodies don't count. The only error is want of memory.
pub fn closure(alloc: Global, term: &Term) -> Result<Classes, AllocError>
    ensures { IfOk result (λ c. c.groups ≡ spec.classes term.now.lits) }
{
    let groups = classes_of(alloc, term.lits.as_slice())?;
    Ok(Classes { groups })
}
