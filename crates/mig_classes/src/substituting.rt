// A variable of a term written away.
ghost use Rattle.std.specs.Prelude.{◌≡◌, ◌+◌, ◌<◌, ◌++◌, List, length, take, drop, IfOk};
ghost use Rattle.mig_algebra.specs.Proper.{Sides, IsProperTerm};
ghost use Rattle.mig_algebra.specs.Rename as rename;
ghost use Rattle.mig_schema.specs.declared.tables.Kind.{Kind};
ghost use Rattle.mig_classes.specs.Forests as forest;
ghost use Rattle.mig_classes.specs.Substituted as spec;

use mig_algebra::{Atom, Renaming, Term, Var, renamed_atoms, renamed_lits};
use mig_base::{Exact, Seq};
use std::alloc::{AllocError, Global};

/// A variable that goes, and the atoms that are written for its columns.
#[derive(Drop)]
struct Going<'a> {
    var: u32,
    atoms: &'a [Atom],
}

/// A variable's number where another one is taken away.
fn below(gone: u32, var: u32) -> u32
    ensures { result ≡ rename.below gone var }
{
    if var < gone {
        var
    } else {
        var.saturating_sub(1)
    }
}

/// An atom in the numbers where a variable is taken away.
fn lowered(alloc: Global, gone: u32, atom: &Atom) -> Result<Atom, AllocError>
    ensures { IfOk result (λ a. a ≡ rename.renumbered (rename.below gone) atom.now) }
{
    match atom {
        Atom::Col { var, column } => Ok(Atom::Col {
            var: below(gone, *var),
            column: *column,
        }),
        _ => atom.twin(alloc),
    }
}

/// What is written for a column of the variable that goes; a number past the last atom.
fn column_atom(alloc: Global, gone: u32, atoms: &[Atom], column: u32) -> Result<Atom, AllocError>
    ensures { IfOk result (λ a. a ≡ rename.renumbered (rename.below gone) (forest.atom_of atoms.now column)) }
{
    match atoms.get(column as usize) {
        Some(atom) => lowered(alloc, gone, atom),
        None => Ok(Atom::Int(0)),
    }
}

impl<'a> Renaming for Going<'a> {
    ghost atom_for = { λ g a. spec.written g.var g.atoms.now a };

    ghost id_for = { λ g v. rename.below g.var v };

    fn atom(&self, alloc: Global, atom: &Atom) -> Result<Atom, AllocError> {
        match atom {
            Atom::Int(i) => Ok(Atom::Int(*i)),
            Atom::Text(t) => Ok(Atom::Text(t.twin(alloc)?)),
            Atom::Param(p) => Ok(Atom::Param(*p)),
            Atom::Fresh(n) => Ok(Atom::Fresh(*n)),
            Atom::Col { var, column } => if *var == self.var {
                column_atom(alloc, self.var, self.atoms, *column)
            } else {
                Ok(Atom::Col {
                    var: below(self.var, *var),
                    column: *column,
                })
            },
        }
    }

    fn id(&self, var: u32) -> Result<u32, AllocError> {
        Ok(below(self.var, var))
    }
}

/// A list without its item of number `at`.
fn leaving_out(alloc: Global, vars: &[Var], at: usize) -> Result<Seq<Var>, AllocError>
    requires { at < length vars.now }
    ensures { IfOk result (λ s. s ≡ take at vars.now ++ drop (at + 1) vars.now) }
{
    let mut rest = Seq::from_slice(alloc, &vars[..at])?;
    rest.extend_from_slice(&vars[at + 1..])?;
    Ok(rest)
}

/// The term without one of its variables: an atom is written for each of the variable's columns, in the literals at every depth and in the head, comparisons are oriented again, and variables of greater number get the number below. Each choice of rows for the other variables meets its literals, and gives the same values, exactly where the choice with a row whose columns have the atoms' values does for `term`. It is proper where `term` is, if there is one atom for each column, of its kind.
///
/// The variable is the term's own and stands in no `Other`; there is an atom for each of its columns that the term names; the atoms name none but the term's other variables, in the term's numbers. The only error is want of memory.
pub fn substitute(
    alloc: Global,
    term: &Term,
    var: u32,
    atoms: &Seq<Atom>,
) -> Result<Term, AllocError>
    requires { spec.MayGo var atoms.now term.now }
    ensures substituted { IfOk result (λ t. t ≡ spec.substituted var atoms.now term.now) }
    ensures means { IfOk result (λ t. spec.MeansAsBefore var atoms.now term.now t) }
    ensures proper { IfOk result (λ t. (p : Sides) (kinds : List Kind) → IsProperTerm p kinds term.now → spec.FitsColumns p var atoms.now term.now → IsProperTerm p kinds t) }
{
    let going = Going {
        var,
        atoms: atoms.as_slice(),
    };
    let vars = leaving_out(alloc, term.vars.as_slice(), var as usize)?;
    let lits = Seq::from_vec(renamed_lits(alloc, &going, term.lits.as_slice())?);
    let head = Seq::from_vec(renamed_atoms(alloc, &going, term.head.as_slice())?);
    Ok(Term { vars, lits, head })
}
