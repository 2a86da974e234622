// The terms in which the literal at a path has alternatives in its place.
ghost use Rattle.std.specs.Prelude.{◌≡◌, true, map, slice_get, IfOk};
ghost use Rattle.mig_replacing.specs.Replaced as replaced;
ghost use Rattle.mig_steps.specs.Reached as spec;

use crate::lists::next_turn;
use crate::parts::body_of;
use mig_algebra::{Inner, Lit, Term, Var};
use mig_base::{Exact, Seq};
use mig_replacing::{put_at, spread};
use std::alloc::{AllocError, Global};

/// Bodies with these variables and each of these lists.
fn bodies_of(alloc: Global, vars: &Seq<Var>, lists: Vec<Seq<Lit>>) -> Result<Vec<Inner>, AllocError>
    ensures { IfOk result (λ v. v.items ≡ replaced.bodies_of vars.now lists.items) }
{
    let mut bodies = Vec::with_capacity(alloc, lists.len())?;
    for list in &lists {
        let vars = vars.twin(alloc)?;
        let lits = list.twin(alloc)?;
        bodies.push(Inner { vars, lits })?;
    }
    Ok(bodies)
}

/// The alternatives of a literal, where those for the literal at a path in it are given.
fn alternatives_at(
    alloc: Global,
    path: &[u32],
    alternatives: Vec<Seq<Lit>>,
    lit: &Lit,
) -> Result<Vec<Seq<Lit>>, AllocError>
    requires { spec.is_path lit.now path.now ≡ true }
    ensures { IfOk result (λ v. v.items ≡ replaced.alternatives_at path.now alternatives.items lit.now) }
{
    let Some(next) = next_turn(path) else {
        return Ok(alternatives);
    };
    let Some(body) = body_of(lit) else {
        return Ok(alternatives);
    };
    let inner = body.inner;
    let Some(inside) = inner.lits.get(next.at as usize) else {
        return Ok(alternatives);
    };
    let deeper = alternatives_at(alloc, next.rest, alternatives, inside)?;
    let lists = put_at(
        alloc,
        inner.lits.as_slice(),
        next.at as usize,
        deeper.as_slice(),
    )?;
    let bodies = bodies_of(alloc, &inner.vars, lists)?;
    let made = spread(alloc, body.held, bodies.as_slice())?;
    Ok(made)
}

/// A term with each of these lists in place of its literals.
fn terms_of(alloc: Global, term: &Term, lists: Vec<Seq<Lit>>) -> Result<Seq<Term>, AllocError>
    ensures { IfOk result (λ s. s ≡ map (replaced.with_lits term.now) lists.items) }
{
    let mut terms = Seq::new(alloc);
    for list in &lists {
        let vars = term.vars.twin(alloc)?;
        let lits = list.twin(alloc)?;
        let head = term.head.twin(alloc)?;
        terms.push(Term { vars, lits, head })?;
    }
    Ok(terms)
}

/// The terms that a term becomes, where the literal at a path is replaced by alternatives.
pub(crate) fn replaced(
    alloc: Global,
    term: &Term,
    path: &[u32],
    alternatives: Seq<Seq<Lit>>,
) -> Result<Seq<Term>, AllocError>
    requires { spec.is_path_of term.now path.now ≡ true }
    ensures { IfOk result (λ s. s ≡ replaced.replaced term.now path.now alternatives) }
{
    let Some(next) = next_turn(path) else {
        return Ok(Seq::new(alloc));
    };
    let Some(lit) = term.lits.get(next.at as usize) else {
        return Ok(Seq::new(alloc));
    };
    let deeper = alternatives_at(alloc, next.rest, alternatives.into_vec(), lit)?;
    let lists = put_at(
        alloc,
        term.lits.as_slice(),
        next.at as usize,
        deeper.as_slice(),
    )?;
    let terms = terms_of(alloc, term, lists)?;
    Ok(terms)
}
