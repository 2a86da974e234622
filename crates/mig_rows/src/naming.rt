// Whether one equality alone names a variable.
ghost use Rattle.std.specs.Prelude.{◌≡◌, ◌≤◌, ◌<◌, ◌++◌, length, IfOk};
ghost use Rattle.std.specs.List.{list_all};
ghost use Rattle.mig_replacing.specs.Given as placed;
ghost use Rattle.mig_replacing.specs.Places.{others};
ghost use Rattle.mig_rows.specs.Naming as spec;
ghost use Rattle.mig_rows.specs.Writing as writing;

use mig_algebra::{Atom, Lit, atom_order};
use mig_base::Seq;
use mig_classes::Groups;
use mig_schema::Op;
use mig_steps::{Naming, atoms_pass, lit_passes, lits_pass, push_plain, twins};
use std::alloc::{AllocError, Global};

/// A column of a variable that may go, and the column of another one to which an equality is to tie it.
#[derive(Clone, Copy)]
pub(crate) struct Tie {
    pub gone: u32,
    pub column: u32,
    pub other: u32,
    pub other_column: u32,
}

/// All but a variable and its columns.
#[derive(Drop)]
struct Avoiding {
    var: u32,
}

impl Naming for Avoiding {
    ghost use Rattle.mig_algebra.specs.Rename.{is_not};
    ghost use Rattle.mig_rows.specs.Writing.{avoids};

    ghost atom_passes = { λ t a. avoids t.var a };

    ghost id_passes = { λ t v. is_not t.var v };

    fn passes(&self, atom: &Atom) -> bool {
        match atom {
            Atom::Col { var, .. } => *var != self.var,
            _ => true,
        }
    }

    fn passes_id(&self, var: u32) -> bool {
        var != self.var
    }
}

/// Whether an atom is no column of a variable.
fn avoids(var: u32, atom: &Atom) -> bool
    ensures { result ≡ writing.avoids var atom.now }
{
    let test = Avoiding { var };
    test.passes(atom)
}

/// The same of each atom of a head.
pub(crate) fn head_avoids(var: u32, head: &[Atom]) -> bool
    ensures { result ≡ list_all (writing.avoids var) head.now }
{
    atoms_pass(&Avoiding { var }, head)
}

/// Whether a literal does not name a variable.
fn leaves(var: u32, lit: &Lit) -> bool
    ensures { result ≡ writing.leaves var lit.now }
{
    lit_passes(&Avoiding { var }, lit)
}

/// Whether the other literals than that of a number do not name a variable.
fn others_leave(var: u32, at: usize, lits: &[Lit]) -> bool
    requires { at < length lits.now }
    ensures { result ≡ list_all (writing.leaves var) (others lits.now at) }
{
    let test = Avoiding { var };
    lits_pass(&test, &lits[..at]) && lits_pass(&test, &lits[at + 1..])
}

/// The number of the first literal that names a variable; their count where none does.
pub(crate) fn first_naming(var: u32, lits: &[Lit]) -> usize
    ensures { result ≡ spec.first_naming var lits.now }
{
    for (at, lit) in lits.iter().enumerate() {
        if !leaves(var, lit) {
            return at;
        }
    }
    lits.len()
}

/// Whether an atom is the column that goes, and another one is of the class of the column to which it is tied.
fn is_pair(groups: &Groups, tie: Tie, left: &Atom, right: &Atom) -> bool
    ensures { result ≡ spec.is_pair groups.now.lits.now tie.gone tie.column tie.other tie.other_column left.now right.now }
{
    let gone = Atom::Col {
        var: tie.gone,
        column: tie.column,
    };
    let other = Atom::Col {
        var: tie.other,
        column: tie.other_column,
    };
    atom_order(left, &gone).is_eq() && avoids(tie.gone, right) && groups.one_class(right, &other)
}

/// Whether a literal equates the two, either way round.
fn pairs(groups: &Groups, tie: Tie, lit: &Lit) -> bool
    ensures { result ≡ spec.pairs groups.now.lits.now tie.gone tie.column tie.other tie.other_column lit.now }
{
    match lit {
        Lit::Cmp {
            op: Op::Eq,
            left,
            right,
        } => is_pair(groups, tie, left, right) || is_pair(groups, tie, right, left),
        _ => false,
    }
}

/// The plain literals around a list, and those of the list but that of a number.
fn known(alloc: Global, around: &[Lit], at: usize, lits: &[Lit]) -> Result<Seq<Lit>, AllocError>
    requires { at < length lits.now }
    ensures { IfOk result (λ s. s ≡ around.now ++ placed.plain (others lits.now at)) }
{
    let mut known = twins(alloc, around)?;
    push_plain(alloc, &mut known, &lits[..at])?;
    push_plain(alloc, &mut known, &lits[at + 1..])?;
    Ok(known)
}

/// Whether the literal of a number, and no other, names the variable that goes, and ties its column.
fn names_at(
    alloc: Global,
    at: usize,
    around: &[Lit],
    tie: Tie,
    lits: &[Lit],
) -> Result<bool, AllocError>
    ensures { IfOk result (λ b. b ≡ spec.names_at at around.now tie.gone tie.column tie.other tie.other_column lits.now) }
{
    if at >= lits.len() || !others_leave(tie.gone, at, lits) {
        return Ok(false);
    }
    let known = known(alloc, around, at, lits)?;
    let groups = Groups::of(alloc, known.as_slice())?;
    Ok(pairs(&groups, tie, &lits[at]))
}

/// Whether one equality alone names the variable that goes, and ties its column, by the other literals and those around.
pub(crate) fn names_once(
    alloc: Global,
    around: &[Lit],
    tie: Tie,
    lits: &[Lit],
) -> Result<bool, AllocError>
    ensures { IfOk result (λ b. b ≡ spec.names_once around.now tie.gone tie.column tie.other tie.other_column lits.now) }
{
    let at = first_naming(tie.gone, lits);
    let found = names_at(alloc, at, around, tie, lits)?;
    Ok(found)
}
