// What stands for a literal whose body became several, and a list in which a literal became several lists.
ghost use Rattle.std.specs.Prelude.{◌≡◌, ◌+◌, ◌<◌, ◌++◌, ◌∷◌, length, map, take, drop, slice_index_or, true, false, [], IfOk, OnOk};
ghost use Rattle.mig_algebra.specs.declared.literals.Inner.{Inner as AnInner};
ghost use Rattle.mig_algebra.specs.declared.literals.Lit.TheVariants.{Any};
ghost use Rattle.mig_replacing.specs.Replaced as spec;

use mig_algebra::{Inner, Lit};
use mig_base::{Exact, Seq};
use std::alloc::{AllocError, Global};

/// A literal of a copy of a body.
fn any(alloc: Global, held: bool, body: &Inner) -> Result<Lit, AllocError>
    ensures { IfOk result (λ l. l ≡ Any held body.now) }
{
    let inner = body.twin(alloc)?;
    Ok(Lit::Any { held, inner })
}

/// None of the bodies is met.
fn none_met(alloc: Global, bodies: &[Inner]) -> Result<Vec<Lit>, AllocError>
    ensures { IfOk result (λ v. v.items ≡ map (Any false) bodies.now) }
{
    let mut lits = Vec::with_capacity(alloc, bodies.len())?;
    for body in bodies {
        lits.push(any(alloc, false, body)?)?;
    }
    Ok(lits)
}

/// The body of this number is met, and none of those before it.
fn met_first(alloc: Global, bodies: &[Inner], at: usize) -> Result<Vec<Lit>, AllocError>
    requires { at < length bodies.now }
    ensures { IfOk result (λ v. (d : AnInner) → v.items ≡ Any true (slice_index_or bodies.now at d) ∷ map (Any false) (take at bodies.now)) }
{
    let mut lits = Vec::new(alloc);
    lits.push(any(alloc, true, &bodies[at])?)?;
    for k in 0..at {
        lits.push(any(alloc, false, &bodies[k])?)?;
    }
    Ok(lits)
}

/// For each body: it is met, and none of those before it.
fn each_first(alloc: Global, bodies: &[Inner]) -> Result<Vec<Seq<Lit>>, AllocError>
    ensures { IfOk result (λ v. v.items ≡ spec.first_met [] bodies.now) }
{
    let mut alternatives = Vec::with_capacity(alloc, bodies.len())?;
    for at in 0..bodies.len() {
        alternatives.push(Seq::from_vec(met_first(alloc, bodies, at)?))?;
    }
    Ok(alternatives)
}

/// The alternatives of a literal whose body becomes these bodies (`docs/EXPRESSIONS.md`). Where it is held there is one for each body: that body is met, and none of those before it. Where it is not, there is one: none of the bodies is met. At each choice of rows exactly one is true where some body is met, or none, as `held` asks. The only error is want of memory.
pub fn spread(alloc: Global, held: bool, bodies: &[Inner]) -> Result<Vec<Seq<Lit>>, AllocError>
    ensures spread { IfOk result (λ v. v.items ≡ spec.spread held bodies.now) }
    ensures one { IfOk result (λ v. spec.OneIsTrue held bodies.now v.items) }
{
    if held {
        return each_first(alloc, bodies);
    }
    let mut alternatives = Vec::new(alloc);
    alternatives.push(Seq::from_vec(none_met(alloc, bodies)?))?;
    Ok(alternatives)
}

/// A list with an alternative in place of its literal of number `at`.
fn with_alternative(
    alloc: Global,
    lits: &[Lit],
    at: usize,
    alternative: &[Lit],
) -> Result<Vec<Lit>, AllocError>
    requires { at < length lits.now }
    ensures { IfOk result (λ v. v.items ≡ take at lits.now ++ (alternative.now ++ drop (at + 1) lits.now)) }
{
    let mut all = Vec::new(alloc);
    push_copies(alloc, &mut all, &lits[..at])?;
    push_copies(alloc, &mut all, alternative)?;
    push_copies(alloc, &mut all, &lits[at + 1..])?;
    Ok(all)
}

/// Puts a copy of each literal at the end.
fn push_copies(alloc: Global, all: &mut Vec<Lit>, lits: &[Lit]) -> Result<(), AllocError>
    ensures { OnOk result (all.new.items ≡ all.old.items ++ lits.now) }
{
    for lit in lits {
        all.push(lit.twin(alloc)?)?;
    }
    Ok(())
}

/// A list of literals, with each alternative in turn in place of its literal of number `at`, in order: what becomes of a body, or of a term, of which that literal is replaced. The literal is one of the list. The only error is want of memory.
pub fn put_at(
    alloc: Global,
    lits: &[Lit],
    at: usize,
    alternatives: &[Seq<Lit>],
) -> Result<Vec<Seq<Lit>>, AllocError>
    requires { at < length lits.now }
    ensures { IfOk result (λ v. v.items ≡ spec.put_at lits.now at alternatives.now) }
{
    let mut lists = Vec::with_capacity(alloc, alternatives.len())?;
    for alternative in alternatives {
        let list = with_alternative(alloc, lits, at, alternative.as_slice())?;
        lists.push(Seq::from_vec(list))?;
    }
    Ok(lists)
}
