// A list of variables without one of them, and whether an `Other` names a variable.
ghost use Rattle.std.specs.Prelude.{◌≡◌, ◌<◌, IfOk, length};
ghost use Rattle.mig_algebra.specs.Rename as rename;
ghost use Rattle.mig_steps.specs.Variables as spec;

use crate::testing::{Naming, lits_pass};
use mig_algebra::{Atom, Term, Var};
use mig_base::Seq;
use std::alloc::{AllocError, Global};

/// Any atom, and any variable but one.
#[derive(Drop)]
struct Unnamed {
    var: u32,
}

impl Naming for Unnamed {
    ghost use Rattle.std.specs.Prelude.{true};

    ghost atom_passes = { λ t a. true };

    ghost id_passes = { λ t v. rename.is_not t.var v };

    fn passes(&self, _atom: &Atom) -> bool {
        true
    }

    fn passes_id(&self, var: u32) -> bool {
        var != self.var
    }
}

/// Whether no `Other` of a term names a variable.
pub fn is_unnamed(var: u32, term: &Term) -> bool
    ensures { result ≡ spec.is_unnamed var term.now }
{
    lits_pass(&Unnamed { var }, term.lits.as_slice())
}

/// A list without its item of number `at`.
pub fn leaving_out(alloc: Global, vars: &[Var], at: usize) -> Result<Seq<Var>, AllocError>
    requires { at < length vars.now }
    ensures { IfOk result (λ s. s ≡ spec.leaving_out at vars.now) }
{
    let mut rest = Seq::from_slice(alloc, &vars[..at])?;
    rest.extend_from_slice(&vars[at + 1..])?;
    Ok(rest)
}
