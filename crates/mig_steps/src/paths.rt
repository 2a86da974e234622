// The paths to the literals of a term, in order.
ghost use Rattle.std.specs.Prelude.{◌≡◌, ◌∷◌, ◌++◌, map, [], IfOk, OnOk};
ghost use Rattle.mig_steps.specs.Paths as spec;

use crate::lists::one;
use crate::parts::is_body;
use mig_algebra::{Lit, Term};
use mig_base::Seq;
use mig_obligations::number;
use std::alloc::{AllocError, Global};

/// A path that begins with a number.
fn longer(alloc: Global, at: u32, path: &[u32]) -> Result<Seq<u32>, AllocError>
    ensures { IfOk result (λ s. s ≡ at ∷ path.now) }
{
    let mut longer = one(alloc, at)?;
    longer.extend_from_slice(path)?;
    Ok(longer)
}

/// Puts each path, with a number before it, at the end.
pub(crate) fn push_longer(
    alloc: Global,
    all: &mut Vec<Seq<u32>>,
    at: u32,
    paths: &[Seq<u32>],
) -> Result<(), AllocError>
    ensures { OnOk result (all.new.items ≡ all.old.items ++ map (λ p. at ∷ p) paths.now) }
{
    for path in paths {
        all.push(longer(alloc, at, path.as_slice())?)?;
    }
    Ok(())
}

/// A literal's own path, from itself, where it is wanted.
fn own_paths(alloc: Global, bodies: bool, lit: &Lit) -> Result<Vec<Seq<u32>>, AllocError>
    ensures { IfOk result (λ v. v.items ≡ spec.own_paths bodies lit.now) }
{
    let mut own = Vec::new(alloc);
    if !bodies || is_body(lit) {
        own.push(Seq::new(alloc))?;
    }
    Ok(own)
}

/// Puts a literal's path, of one number, where it is wanted, and the paths in it at the end.
#[cycle(paths)]
fn push_at(
    alloc: Global,
    bodies: bool,
    all: &mut Vec<Seq<u32>>,
    at: u32,
    lit: &Lit,
) -> Result<(), AllocError>
    ensures { OnOk result (all.new.items ≡ all.old.items ++ map (λ p. at ∷ p) (spec.own_paths bodies lit.now ++ spec.paths_in bodies lit.now)) }
{
    let own = own_paths(alloc, bodies, lit)?;
    push_longer(alloc, all, at, own.as_slice())?;
    match lit {
        Lit::Any { inner, .. } => {
            let inside = paths_from(alloc, bodies, inner.lits.as_slice())?;
            push_longer(alloc, all, at, inside.as_slice())?;
            Ok(())
        }
        _ => Ok(()),
    }
}

/// The paths to the literals of a list, and in them.
#[cycle(paths)]
fn paths_from(alloc: Global, bodies: bool, lits: &[Lit]) -> Result<Vec<Seq<u32>>, AllocError>
    ensures { IfOk result (λ v. v.items ≡ spec.paths_from bodies 0 lits.now) }
{
    let mut all = Vec::new(alloc);
    for at in 0..lits.len() {
        push_at(alloc, bodies, &mut all, number(at)?, &lits[at])?;
    }
    Ok(all)
}

/// The paths to all literals of a term, in order.
pub fn lit_paths(alloc: Global, term: &Term) -> Result<Seq<Seq<u32>>, AllocError>
    ensures { IfOk result (λ s. s ≡ spec.lit_paths term.now) }
{
    Ok(Seq::from_vec(paths_from(alloc, false, term.lits.as_slice())?))
}

/// The paths to all literals of a term that have a body, in order.
pub fn body_paths(alloc: Global, term: &Term) -> Result<Seq<Seq<u32>>, AllocError>
    ensures { IfOk result (λ s. s ≡ spec.body_paths term.now) }
{
    Ok(Seq::from_vec(paths_from(alloc, true, term.lits.as_slice())?))
}

/// The path of a term alone, or the arguments of a rule that has none: one empty list.
pub fn one_empty(alloc: Global) -> Result<Seq<Seq<u32>>, AllocError>
    ensures { IfOk result (λ s. s ≡ [] ∷ []) }
{
    one(alloc, Seq::new(alloc))
}
