// The classes into which a list of literals groups atoms, found once and asked often.
ghost use Rattle.std.specs.Prelude.{◌≡◌, ◌<◌, ◌&&◌, List, length, map, IfOk};
ghost use Rattle.std.specs.Option.{MatchOption};
ghost use Rattle.std.specs.List.{list_any};
ghost use Rattle.mig_algebra.specs.declared.atoms.Atom.{Atom as AnAtom};
ghost use Rattle.mig_algebra.specs.declared.literals.Lit.{Lit as ALit};
ghost use Rattle.mig_meaning.specs.Lists.{In};
ghost use Rattle.mig_classes.specs.Classes as class;
ghost use Rattle.mig_classes.specs.Forests.{IsForest, LeadsTo, RisesTo, atom_of};
ghost use Rattle.mig_classes.specs.Deciding as deciding;
ghost use Rattle.mig_classes.specs.Given as given;

use crate::closing::{equated, in_order, united};
use crate::comparing::PairTest;
use crate::forests::root;
use mig_algebra::{Atom, Lit, atom_order};
use mig_base::Exact;
use std::alloc::{AllocError, Global};

/// The classes into which the equalities of a list group atoms.
#[derive(Drop)]
pub struct Groups<'a> {
    /// The list.
    pub lits: &'a [Lit],
    atoms: Vec<Atom>,
    leasts: Vec<Atom>,
    ghost named: { atoms.items ≡ class.named lits.now },
    ghost led: { leasts.items ≡ map (class.least lits.now) (class.named lits.now) },
}

/// Whether two atoms are one.
fn atom_eq(left: &Atom, right: &Atom) -> bool
    ensures { result ≡ class.atom_eq left.now right.now }
{
    atom_order(left, right).is_eq()
}

/// The number of an atom among atoms in order, if it is one of them.
fn place_of(atoms: &[Atom], atom: &Atom) -> Option<usize>
    requires { RisesTo (length atoms.now) (atom_of atoms.now) }
    ensures within { MatchOption result (In atom.now atoms.now → ⊥) (λ at. at < length atoms.now) }
    ensures is { MatchOption result (In atom.now atoms.now → ⊥) (λ at. atom_of atoms.now at ≡ atom.now) }
{
    match atoms.binary_search_by(|a| atom_order(a, atom)) {
        Ok(at) => Some(at),
        Err(passed) => {
            let _passed = passed;
            None
        }
    }
}

/// The least atom of each atom's class, where the atoms lead there.
fn leasts_of(
    alloc: Global,
    atoms: &[Atom],
    parents: &mut Vec<usize>,
) -> Result<Vec<Atom>, AllocError>
    requires forest { IsForest parents.old.items }
    requires count { length parents.old.items ≡ length atoms.now }
    ensures { IfOk result (λ v. (ls : List ALit) → LeadsTo (atom_of atoms.now) (λ k. class.least ls (atom_of atoms.now k)) parents.old.items → v.items ≡ map (class.least ls) atoms.now) }
{
    let mut leasts = Vec::with_capacity(alloc, atoms.len())?;
    for number in 0..atoms.len() {
        let least = root(parents, number);
        leasts.push(atoms[least].twin(alloc)?)?;
    }
    Ok(leasts)
}

impl<'a> Groups<'a> {
    /// The classes of a list of literals: its own equalities count, those in bodies don't. The only error is want of memory.
    pub fn of(alloc: Global, lits: &'a [Lit]) -> Result<Groups<'a>, AllocError>
        ensures { IfOk result (λ g. g.lits.now ≡ lits.now) }
    {
        let atoms = in_order(equated(alloc, lits)?);
        let mut parents = united(alloc, atoms.as_slice(), lits)?;
        let leasts = leasts_of(alloc, atoms.as_slice(), &mut parents)?;
        Ok(Groups {
            lits,
            atoms,
            leasts,
        })
    }

    /// The least atom of an atom's class; of an atom that no equality names, itself.
    pub fn least<'b>(&'b self, atom: &'b Atom) -> &'b Atom
        ensures { result.now ≡ class.least self.now.lits.now atom.now }
    {
        match place_of(self.atoms.as_slice(), atom) {
            Some(at) => &self.leasts[at],
            None => atom,
        }
    }

    /// Whether two atoms are in one class.
    pub fn one_class(&self, left: &Atom, right: &Atom) -> bool
        ensures { result ≡ class.one_class self.now.lits.now left.now right.now }
    {
        atom_eq(self.least(left), self.least(right))
    }

    /// Whether the atom of this number is one of the class with this least one.
    fn is_led(&self, least: &Atom, at: usize) -> bool
        requires { at < length (class.named self.now.lits.now) }
        ensures { result ≡ class.atom_eq least.now (class.least self.now.lits.now (atom_of (class.named self.now.lits.now) at)) }
    {
        atom_eq(least, &self.leasts[at])
    }

    /// Whether the atom of this number is so, and an atom and it pass.
    fn passes_at<T: PairTest>(&self, test: &T, left: &Atom, least: &Atom, at: usize) -> bool
        requires { at < length (class.named self.now.lits.now) }
        ensures { result ≡ deciding.is_led_by self.now.lits.now least.now (T.test test.now left.now) (atom_of (class.named self.now.lits.now) at) }
    {
        self.is_led(least, at) && test.passes(left, &self.atoms[at])
    }

    /// Whether an atom and some atom of the class with this least one pass.
    fn passes_led<T: PairTest>(&self, test: &T, left: &Atom, least: &Atom) -> bool
        ensures { result ≡ list_any (deciding.is_led_by self.now.lits.now least.now (T.test test.now left.now)) (class.named self.now.lits.now) }
    {
        for at in 0..self.atoms.len() {
            if self.passes_at(test, left, least, at) {
                return true;
            }
        }
        false
    }

    /// Whether an atom and some atom of another one's class pass.
    fn passes_class<T: PairTest>(&self, test: &T, left: &Atom, right: &Atom) -> bool
        ensures { result ≡ list_any (T.test test.now left.now) (given.class_of self.now.lits.now right.now) }
    {
        test.passes(left, right) || self.passes_led(test, left, self.least(right))
    }

    /// Whether the atom of this number is one of the class with this least one, and it and some atom of another one's class pass.
    fn meets_at<T: PairTest>(&self, test: &T, least: &Atom, right: &Atom, at: usize) -> bool
        requires { at < length (class.named self.now.lits.now) }
        ensures { result ≡ deciding.is_led_by self.now.lits.now least.now (λ x. list_any (T.test test.now x) (given.class_of self.now.lits.now right.now)) (atom_of (class.named self.now.lits.now) at) }
    {
        self.is_led(least, at) && self.passes_class(test, &self.atoms[at], right)
    }

    /// Whether some atom of the class with this least one, and some atom of another one's class, pass.
    fn some_led<T: PairTest>(&self, test: &T, least: &Atom, right: &Atom) -> bool
        ensures { result ≡ list_any (deciding.is_led_by self.now.lits.now least.now (λ x. list_any (T.test test.now x) (given.class_of self.now.lits.now right.now))) (class.named self.now.lits.now) }
    {
        for at in 0..self.atoms.len() {
            if self.meets_at(test, least, right, at) {
                return true;
            }
        }
        false
    }

    /// Whether some atom of one class and some of another pass.
    pub(crate) fn some_of_classes<T: PairTest>(&self, test: &T, left: &Atom, right: &Atom) -> bool
        ensures { result ≡ given.some_of_classes self.now.lits.now (T.test test.now) left.now right.now }
    {
        let here = self.passes_class(test, left, right);
        if here {
            return true;
        }
        let led = self.some_led(test, self.least(left), right);
        led
    }

    /// Whether the atom of this number is the least of a class that holds two atoms that pass.
    fn clashes<T: PairTest>(&self, test: &T, at: usize) -> bool
        requires { at < length (class.named self.now.lits.now) }
        ensures { result ≡ deciding.clashes self.now.lits.now (T.test test.now) (atom_of (class.named self.now.lits.now) at) }
    {
        atom_eq(&self.leasts[at], &self.atoms[at])
            && self.some_of_classes(test, &self.atoms[at], &self.atoms[at])
    }

    /// Whether some atom that an equality names is so.
    fn some_clash<T: PairTest>(&self, test: &T) -> bool
        ensures { result ≡ list_any (deciding.clashes self.now.lits.now (T.test test.now)) (class.named self.now.lits.now) }
    {
        for at in 0..self.atoms.len() {
            if self.clashes(test, at) {
                return true;
            }
        }
        false
    }

    /// Whether the class of some atom that an equality names holds two atoms that pass.
    pub(crate) fn clash<T: PairTest>(&self, test: &T) -> bool
        ensures { result ≡ list_any (λ a. given.some_of_classes self.now.lits.now (T.test test.now) a a) (class.equated self.now.lits.now) }
    {
        let found = self.some_clash(test);
        found
    }
}
