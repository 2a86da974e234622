// A variable goes, and another one is written for it.
ghost use Rattle.std.specs.Prelude.{◌≡◌, ◌<◌, length, IfOk};
ghost use Rattle.mig_algebra.specs.Rename as rename;
ghost use Rattle.mig_replacing.specs.Places.{others};
ghost use Rattle.mig_rows.specs.Writing as spec;

use mig_algebra::{Atom, Inner, Lit, Renaming, Term, renamed_atoms, renamed_lits};
use mig_base::{Exact, Seq};
use mig_steps::leaving_out;
use std::alloc::{AllocError, Global};

/// A variable that goes, and the one that is written for it.
#[derive(Drop)]
pub(crate) struct Written {
    pub gone: u32,
    pub kept: u32,
}

/// A variable's number where another one is taken away.
fn below(gone: u32, var: u32) -> u32
    ensures { result ≡ rename.below gone var }
{
    if var < gone {
        var
    } else {
        var.saturating_sub(1)
    }
}

/// A variable's number where another one is written for the one that goes.
fn into(gone: u32, kept: u32, var: u32) -> u32
    ensures { result ≡ spec.into gone kept var }
{
    if var == gone {
        below(gone, kept)
    } else {
        below(gone, var)
    }
}

impl Renaming for Written {
    ghost atom_for = { λ w a. rename.renumbered (spec.into w.gone w.kept) a };

    ghost id_for = { λ w v. spec.into w.gone w.kept v };

    fn atom(&self, alloc: Global, atom: &Atom) -> Result<Atom, AllocError> {
        match atom {
            Atom::Int(i) => Ok(Atom::Int(*i)),
            Atom::Text(t) => Ok(Atom::Text(t.twin(alloc)?)),
            Atom::Param(p) => Ok(Atom::Param(*p)),
            Atom::Fresh(n) => Ok(Atom::Fresh(*n)),
            Atom::Col { var, column } => Ok(Atom::Col {
                var: into(self.gone, self.kept, *var),
                column: *column,
            }),
        }
    }

    fn id(&self, var: u32) -> Result<u32, AllocError> {
        Ok(into(self.gone, self.kept, var))
    }
}

/// Literals where one variable is written for another, which goes.
pub(crate) fn lits_into(
    alloc: Global,
    gone: u32,
    kept: u32,
    lits: &[Lit],
) -> Result<Seq<Lit>, AllocError>
    ensures { IfOk result (λ s. s ≡ spec.lits_into gone kept lits.now) }
{
    let written = renamed_lits(alloc, &Written { gone, kept }, lits)?;
    Ok(Seq::from_vec(written))
}

/// Literals without that of a number and without a variable that the others do not name.
pub(crate) fn lits_left(
    alloc: Global,
    gone: u32,
    at: usize,
    lits: &[Lit],
) -> Result<Seq<Lit>, AllocError>
    requires { at < length lits.now }
    ensures { IfOk result (λ s. s ≡ spec.lits_left gone (others lits.now at)) }
{
    let written = Written { gone, kept: gone };
    let mut all = renamed_lits(alloc, &written, &lits[..at])?;
    let mut rest = renamed_lits(alloc, &written, &lits[at + 1..])?;
    all.append(&mut rest)?;
    Ok(Seq::from_vec(all))
}

/// The atoms of a head where one variable is written for another, which goes.
pub(crate) fn head_into(
    alloc: Global,
    gone: u32,
    kept: u32,
    head: &[Atom],
) -> Result<Seq<Atom>, AllocError>
    ensures { IfOk result (λ s. s ≡ spec.head_into gone kept head.now) }
{
    let written = renamed_atoms(alloc, &Written { gone, kept }, head)?;
    Ok(Seq::from_vec(written))
}

/// A term where one of its variables is written for another, which goes.
pub(crate) fn term_into(
    alloc: Global,
    gone: u32,
    kept: u32,
    term: &Term,
) -> Result<Term, AllocError>
    requires { gone < length term.now.vars }
    ensures { IfOk result (λ t. t ≡ spec.term_into gone kept term.now) }
{
    let vars = leaving_out(alloc, term.vars.as_slice(), gone as usize)?;
    let lits = lits_into(alloc, gone, kept, term.lits.as_slice())?;
    let head = head_into(alloc, gone, kept, term.head.as_slice())?;
    Ok(Term { vars, lits, head })
}
