// What a rule sees of a literal at a path.
ghost use Rattle.std.specs.Prelude.{◌≡◌, ◌++◌, ◌∷◌, ◌<◌, [], length, map, take, slice_get, IfOk, OnOk};
ghost use Rattle.mig_replacing.specs.Given.{plain};
ghost use Rattle.mig_replacing.specs.Places.{others};
ghost use Rattle.std.specs.Option.{option_map};
ghost use Rattle.mig_steps.specs.Seeing.{seen, shown};
ghost use Rattle.mig_steps.specs.Spots as spec;

use crate::lists::next_turn;
use crate::parts::{body_of, lit_at};
use mig_algebra::{Lit, Term, Var};
use mig_base::{Exact, Seq};
use std::alloc::{AllocError, Global};

/// A list in or around which a literal stands.
#[derive(Clone, Copy)]
pub struct Enclosing<'a> {
    /// How many variables are in scope there.
    pub count: usize,
    pub lits: &'a [Lit],
    /// The number of the literal that leads to the one that is seen, or is it.
    pub at: usize,
}

/// A literal at its place.
#[derive(Drop)]
pub struct Spot<'a> {
    /// The variables in scope there, in their order.
    pub scope: Seq<Var>,
    /// The lists around it, its own among them, from the outside in.
    pub lists: Vec<Enclosing<'a>>,
    /// The other plain literals of these lists.
    pub around: Seq<Lit>,
    /// The literals before it in its list.
    pub earlier: &'a [Lit],
    /// The literal itself.
    pub lit: &'a Lit,
}

/// Puts a copy of each plain literal at the end.
pub fn push_plain(alloc: Global, all: &mut Seq<Lit>, lits: &[Lit]) -> Result<(), AllocError>
    ensures { OnOk result (all.new ≡ all.old ++ plain lits.now) }
{
    for lit in lits {
        match lit {
            Lit::Any { .. } => {}
            _ => all.push(lit.twin(alloc)?)?,
        }
    }
    Ok(())
}

/// Puts a copy of each other plain literal at the end.
fn push_others(alloc: Global, all: &mut Seq<Lit>, lits: &[Lit], at: usize) -> Result<(), AllocError>
    requires { at < length lits.now }
    ensures { OnOk result (all.new ≡ all.old ++ plain (others lits.now at)) }
{
    push_plain(alloc, all, &lits[..at])?;
    push_plain(alloc, all, &lits[at + 1..])?;
    Ok(())
}

/// Copies of literals.
pub fn twins(alloc: Global, lits: &[Lit]) -> Result<Seq<Lit>, AllocError>
    ensures { IfOk result (λ s. s ≡ lits.now) }
{
    let mut copies = Seq::new(alloc);
    for lit in lits {
        copies.push(lit.twin(alloc)?)?;
    }
    Ok(copies)
}

/// What is known on the way to a literal: the variables in scope, and the lists and the plain literals around.
#[derive(Drop)]
struct Way<'a> {
    scope: Seq<Var>,
    lists: Vec<Enclosing<'a>>,
    around: Seq<Lit>,
}

/// What is known of the literal of a number in a list, where the way leads to the list.
fn reach<'a>(alloc: Global, way: Way<'a>, lits: &'a [Lit], at: usize) -> Result<Way<'a>, AllocError>
    requires { at < length lits.now }
    ensures scope { IfOk result (λ w. w.scope ≡ way.entry.scope) }
    ensures lists { IfOk result (λ w. map shown w.lists.items ≡ map shown way.entry.lists.items ++ spec.list_at (length way.entry.scope) lits.now at ∷ []) }
    ensures around { IfOk result (λ w. w.around ≡ way.entry.around ++ plain (others lits.now at)) }
{
    let Way {
        scope,
        lists,
        around,
    } = way;
    let mut lists = lists;
    let mut around = around;
    let count = scope.len();
    lists.push(Enclosing { count, lits, at })?;
    push_others(alloc, &mut around, lits, at)?;
    Ok(Way {
        scope,
        lists,
        around,
    })
}

/// The literal of a list where the path ends.
fn spot_here<'a>(way: Way<'a>, lits: &'a [Lit], at: usize, lit: &'a Lit) -> Spot<'a>
    requires { at < length lits.now }
    ensures { seen result ≡ spec.seen_of way.entry.scope (map shown way.entry.lists.items) way.entry.around (take at lits.now) lit.now }
{
    let Way {
        scope,
        lists,
        around,
    } = way;
    Spot {
        scope,
        lists,
        around,
        earlier: &lits[..at],
        lit,
    }
}

/// The literal at a path that begins in a list to which the way leads.
fn spot_in<'a>(
    alloc: Global,
    way: Way<'a>,
    lits: &'a [Lit],
    at: u32,
    path: &[u32],
) -> Result<Option<Spot<'a>>, AllocError>
    ensures { IfOk result (λ o. option_map seen o ≡ spec.spot_in way.entry.scope (map shown way.entry.lists.items ++ spec.list_at (length way.entry.scope) lits.now at ∷ []) (way.entry.around ++ plain (others lits.now at)) (take at lits.now) (slice_get lits.now at) path.now) }
{
    let Some(lit) = lit_at(lits, at as usize) else {
        return Ok(None);
    };
    let way = reach(alloc, way, lits, at as usize)?;
    let Some(next) = next_turn(path) else {
        let spot = spot_here(way, lits, at as usize, lit);
        return Ok(Some(spot));
    };
    let Some(body) = body_of(lit) else {
        return Ok(None);
    };
    let inner = body.inner;
    let way = enter(way, inner.vars.as_slice())?;
    let spot = spot_in(alloc, way, inner.lits.as_slice(), next.at, next.rest)?;
    Ok(spot)
}

/// What is known in a body with these variables.
fn enter<'a>(way: Way<'a>, vars: &[Var]) -> Result<Way<'a>, AllocError>
    ensures scope { IfOk result (λ w. w.scope ≡ way.entry.scope ++ vars.now) }
    ensures lists { IfOk result (λ w. w.lists.items ≡ way.entry.lists.items) }
    ensures around { IfOk result (λ w. w.around ≡ way.entry.around) }
{
    let Way {
        scope,
        lists,
        around,
    } = way;
    let mut scope = scope;
    scope.extend_from_slice(vars)?;
    Ok(Way {
        scope,
        lists,
        around,
    })
}

/// The literal at a path in a term, if there is one.
pub fn spot_at<'a>(
    alloc: Global,
    term: &'a Term,
    path: &[u32],
) -> Result<Option<Spot<'a>>, AllocError>
    ensures { IfOk result (λ o. option_map seen o ≡ spec.spot_at term.now path.now) }
{
    let Some(next) = next_turn(path) else {
        return Ok(None);
    };
    let way = Way {
        scope: term.vars.twin(alloc)?,
        lists: Vec::new(alloc),
        around: Seq::new(alloc),
    };
    let spot = spot_in(alloc, way, term.lits.as_slice(), next.at, next.rest)?;
    Ok(spot)
}
