// What is written in a host of which variables are folded.
ghost use Rattle.std.specs.Prelude.{◌≡◌, ◌+◌, ◌++◌, map, length, IfOk};
ghost use Rattle.mig_schema.specs.Joins.{tables_of};
ghost use Rattle.mig_algebra.specs.Rename as rename;
ghost use Rattle.mig_folding.specs.Folding as spec;
ghost use Rattle.mig_folding.specs.Writing as writing;

use crate::images::{Named, image_of, is_there, place_of};
use crate::staying::kept_vars;
use mig_algebra::{Atom, Lit, Renaming, Var, View, renamed_atoms, renamed_lit, renamed_lits};
use mig_base::{Exact, Seq};
use mig_obligations::{join_lits, join_vars, number, place_in};
use mig_schema::Side;
use std::alloc::{AllocError, Global};

/// Which variables of a host are folded, and by which view; the numbers of those that stay, and the first one behind them.
#[derive(Drop)]
pub(crate) struct Folding<'a> {
    pub base: u32,
    pub vars: &'a [Var],
    pub named: &'a Named<'a>,
    pub target: &'a View,
    pub kept: &'a [u32],
    pub first: u32,
}

impl<'a> Folding<'a> {
    /// The number of a variable that is not named.
    fn moved(&self, var: u32) -> Result<u32, AllocError>
        ensures { IfOk result (λ v. v ≡ writing.moved_by self.now var) }
    {
        let own = number(self.vars.len())?;
        let end = self.base as usize + own as usize;
        if var < self.base {
            Ok(var)
        } else if (var as usize) < end {
            let place = number(place_of(self.kept, var))?;
            number(self.base as usize + place as usize)
        } else {
            let more = number(self.target.join.more.len())?;
            number(var as usize - end + (self.first as usize + (more as usize + 1)))
        }
    }

    /// What is written for a column of a named variable.
    fn image(&self, var: u32, column: u32) -> Result<Atom, AllocError>
        ensures { IfOk result (λ a. a ≡ writing.image_by self.now var column) }
    {
        let source = self.named.source;
        let image = image_of(
            &source.join,
            source.outs.as_slice(),
            self.target.outs.as_slice(),
            self.named.old_column(var, column),
        );
        let place = number(place_in(&self.target.join, image.table))?;
        Ok(Atom::Col {
            var: number(self.first as usize + place as usize)?,
            column: image.column,
        })
    }
}

impl<'a> Renaming for Folding<'a> {
    ghost atom_for = { λ w a. writing.folded_by w a };

    ghost id_for = { λ w v. writing.moved_by w v };

    fn atom(&self, alloc: Global, atom: &Atom) -> Result<Atom, AllocError> {
        match atom {
            Atom::Int(i) => Ok(Atom::Int(*i)),
            Atom::Text(t) => Ok(Atom::Text(t.twin(alloc)?)),
            Atom::Param(p) => Ok(Atom::Param(*p)),
            Atom::Fresh(n) => Ok(Atom::Fresh(*n)),
            Atom::Col { var, column } => if is_there(self.named.numbers, *var) {
                self.image(*var, *column)
            } else {
                Ok(Atom::Col {
                    var: self.moved(*var)?,
                    column: *column,
                })
            },
        }
    }

    fn id(&self, var: u32) -> Result<u32, AllocError> {
        self.moved(var)
    }
}

/// Variables that stand behind a host's others.
#[derive(Drop)]
struct Behind {
    first: u32,
}

impl Behind {
    /// The number of the k-th of them.
    fn number(&self, k: u32) -> Result<u32, AllocError>
        ensures { IfOk result (λ v. v ≡ self.now.first + k) }
    {
        number(self.first as usize + k as usize)
    }
}

impl Renaming for Behind {
    ghost use Rattle.std.specs.Prelude.{◌+◌};

    ghost atom_for = { λ w a. rename.renumbered (λ k. w.first + k) a };

    ghost id_for = { λ w v. w.first + v };

    fn atom(&self, alloc: Global, atom: &Atom) -> Result<Atom, AllocError> {
        match atom {
            Atom::Int(i) => Ok(Atom::Int(*i)),
            Atom::Text(t) => Ok(Atom::Text(t.twin(alloc)?)),
            Atom::Param(p) => Ok(Atom::Param(*p)),
            Atom::Fresh(n) => Ok(Atom::Fresh(*n)),
            Atom::Col { var, column } => Ok(Atom::Col {
                var: self.number(*var)?,
                column: *column,
            }),
        }
    }

    fn id(&self, var: u32) -> Result<u32, AllocError> {
        self.number(var)
    }
}

/// The literals that stay, with what is written in them.
fn outer_written(alloc: Global, folding: &Folding, lits: &[Lit]) -> Result<Vec<Lit>, AllocError>
    ensures { IfOk result (λ v. v.items ≡ map (rename.lit_with (writing.folded_by folding.now) (writing.moved_by folding.now)) (spec.outer_lits (writing.fold_now folding.now) lits.now)) }
{
    let mut written = Vec::new(alloc);
    for lit in lits {
        if !folding.named.is_inner(lit) {
            written.push(renamed_lit(alloc, folding, lit)?)?;
        }
    }
    Ok(written)
}

/// The literals that stay, and the new view's equalities, by the numbers that are counted.
fn lits_by(alloc: Global, folding: &Folding, lits: &[Lit]) -> Result<Seq<Lit>, AllocError>
    ensures { IfOk result (λ s. s ≡ writing.lits_by folding.now lits.now) }
{
    let mut written = outer_written(alloc, folding, lits)?;
    let first = folding.first;
    let added = join_lits(alloc, &folding.target.join)?;
    written.append(&mut renamed_lits(alloc, &Behind { first }, added.as_slice())?)?;
    Ok(Seq::from_vec(written))
}

/// The literals that stay, and the new view's equalities.
pub(crate) fn folded_lits(
    alloc: Global,
    folding: &Folding,
    lits: &[Lit],
) -> Result<Seq<Lit>, AllocError>
    requires { writing.IsCounted folding.now }
    ensures { IfOk result (λ s. s ≡ spec.folded_lits (writing.fold_now folding.now) lits.now) }
{
    let written = lits_by(alloc, folding, lits)?;
    Ok(written)
}

/// Atoms, each so written.
pub(crate) fn folded_atoms(
    alloc: Global,
    folding: &Folding,
    atoms: &[Atom],
) -> Result<Seq<Atom>, AllocError>
    requires { writing.IsCounted folding.now }
    ensures { IfOk result (λ s. s ≡ map (spec.folded_atom (writing.fold_now folding.now)) atoms.now) }
{
    let written = renamed_atoms(alloc, folding, atoms)?;
    Ok(Seq::from_vec(written))
}

/// The variables that stay, and the new view's.
pub(crate) fn folded_vars(alloc: Global, folding: &Folding) -> Result<Seq<Var>, AllocError>
    ensures { IfOk result (λ s. s ≡ spec.folded_vars (writing.fold_now folding.now)) }
{
    let mut kept = kept_vars(alloc, folding.base, folding.vars, folding.named.numbers)?;
    let mut added = join_vars(alloc, Side::New, 0, &folding.target.join)?;
    kept.append(&mut added)?;
    Ok(Seq::from_vec(kept))
}
