// Which variables are tried in place of a body's.
ghost use Rattle.std.specs.Prelude.{◌≡◌, ◌+◌, Some, IfOk, length};
ghost use Rattle.std.specs.List.{list_all};
ghost use Rattle.mig_algebra.specs.Scope.{atom_scoped};
ghost use Rattle.mig_steps.specs.Seeing.{seen};
ghost use Rattle.mig_folding.specs.Found as spec;

use crate::finding::stand_first;
use crate::knowing::is_known;
use crate::sifting::{Sieve, sifted};
use mig_algebra::{Atom, Inner, Lit, Term, Var};
use mig_base::Seq;
use mig_steps::{Spot, spot_at};
use std::alloc::{AllocError, Global};

/// Whether an atom names none but the first variables.
fn is_below(count: usize, atom: &Atom) -> bool
    ensures { result ≡ atom_scoped count atom.now }
{
    match atom {
        Atom::Col { var, .. } => (*var as usize) < count,
        Atom::Int(_) | Atom::Text(_) | Atom::Param(_) | Atom::Fresh(_) => true,
    }
}

/// Whether a comparison or an `Other` names none but the first variables.
fn names_first(count: usize, lit: &Lit) -> bool
    ensures { result ≡ spec.names_first count lit.now }
{
    match lit {
        Lit::Cmp { left, right, .. } => is_below(count, left) && is_below(count, right),
        Lit::Other { left, right } => (*left as usize) < count && (*right as usize) < count,
        Lit::Any { .. } => false,
    }
}

/// Whether a literal may be known where these stand for the first of the body's variables.
fn may_be_known(alloc: Global, spot: &Spot, front: &[u32], lit: &Lit) -> Result<bool, AllocError>
    ensures { IfOk result (λ b. b ≡ spec.may_be_known (seen spot.now) front.now lit.now) }
{
    let Some(count) = spot.scope.len().checked_add(front.len()) else {
        return Err(AllocError);
    };
    if !names_first(count, lit) {
        return Ok(true);
    }
    let known = is_known(alloc, spot, front, lit)?;
    Ok(known)
}

/// Whether all may.
fn all_may_be_known(
    alloc: Global,
    spot: &Spot,
    front: &[u32],
    lits: &[Lit],
) -> Result<bool, AllocError>
    ensures { IfOk result (λ b. b ≡ list_all (spec.may_be_known (seen spot.now) front.now) lits.now) }
{
    for lit in lits {
        if !may_be_known(alloc, spot, front, lit)? {
            return Ok(false);
        }
    }
    Ok(true)
}

/// Variables outside a body, by which all may be known that it asks of them.
#[derive(Drop)]
struct Sought<'a> {
    spot: &'a Spot<'a>,
    vars: &'a [Var],
    lits: &'a [Lit],
}

impl<'a> Sieve for Sought<'a> {
    ghost may = { λ t front. spec.may_find (seen t.spot.now) t.vars.now t.lits.now front };

    fn goes_on(&self, alloc: Global, front: &[u32]) -> Result<bool, AllocError> {
        if !stand_first(self.spot.scope.as_slice(), front, self.vars) {
            return Ok(false);
        }
        let may = all_may_be_known(alloc, self.spot, front, self.lits)?;
        Ok(may)
    }
}

/// The arguments for a body.
fn found_among(alloc: Global, spot: &Spot, inner: &Inner) -> Result<Seq<Seq<u32>>, AllocError>
    ensures { IfOk result (λ s. s ≡ spec.found_among (seen spot.now) inner.now.vars inner.now.lits) }
{
    let vars = inner.vars.as_slice();
    let lits = inner.lits.as_slice();
    let none = Seq::new(alloc);
    let test = Sought { spot, vars, lits };
    let all = sifted(alloc, &test, spot.scope.len(), vars.len(), &none)?;
    Ok(Seq::from_vec(all))
}

/// The arguments for a literal.
fn found_at(alloc: Global, spot: &Spot, lit: &Lit) -> Result<Seq<Seq<u32>>, AllocError>
    requires { lit.now ≡ spot.now.lit.now }
    ensures { IfOk result (λ s. s ≡ spec.found_at (Some (seen spot.now))) }
{
    match lit {
        Lit::Any { inner, .. } => {
            let all = found_among(alloc, spot, inner)?;
            Ok(all)
        }
        _ => Ok(Seq::new(alloc)),
    }
}

/// The arguments that are tried for the rule `found` at a path, in order: all lists of variables outside the body there that are alike its own, one for each, but those of which a front leaves a comparison or an `Other` of the body unknown. Want of memory is the only error.
pub fn found_args(alloc: Global, path: &[u32], term: &Term) -> Result<Seq<Seq<u32>>, AllocError>
    ensures { IfOk result (λ s. s ≡ spec.found_args path.now term.now) }
{
    let found = spot_at(alloc, term, path)?;
    let Some(spot) = found else {
        return Ok(Seq::new(alloc));
    };
    let all = found_at(alloc, &spot, spot.lit)?;
    Ok(all)
}
