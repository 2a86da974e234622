// What is to be shown where two queries are to answer alike.
ghost use Rattle.std.specs.Prelude.{◌≡◌, ◌++◌, map, IfOk};
ghost use Rattle.mig_schema.specs.declared.faults.Side.TheVariants.{Old, New};
ghost use Rattle.mig_schema.specs.Joins.{tables_of};
ghost use Rattle.mig_algebra.specs.Obligations as spec;
ghost use Rattle.mig_obligations.specs.Forming.{case_term, body_terms};

use crate::forming::{case_lits, col_atoms, join_lits, join_vars, not_case};
use crate::proving::{Obligation, Pair};
use mig_algebra::{Expr, Lit, Term};
use mig_base::Seq;
use mig_schema::{Body, Cmp, Function, Join, Query, Side};
use std::alloc::{AllocError, Global};

/// Adds that none of these cases is true.
fn add_denied(
    alloc: Global,
    join: &Join,
    before: &[Seq<Cmp>],
    lits: &mut Vec<Lit>,
) -> Result<(), AllocError>
    ensures { IfOk result (λ u. lits.new.items ≡ lits.old.items ++ map (spec.not_case (tables_of join.now)) before.now) }
{
    for case in before {
        lits.push(not_case(alloc, join, case.as_slice())?)?;
    }
    Ok(())
}

/// The rows of a query's join in which a case is true, and none of those before it.
fn case_term(
    alloc: Global,
    side: Side,
    query: &Query,
    before: &[Seq<Cmp>],
    case: &[Cmp],
) -> Result<Term, AllocError>
    ensures { IfOk result (λ t. t ≡ case_term side query.now before.now case.now) }
{
    let mut lits = join_lits(alloc, &query.join)?;
    lits.append(&mut case_lits(alloc, &query.join, case)?)?;
    add_denied(alloc, &query.join, before, &mut lits)?;
    Ok(Term {
        vars: Seq::from_vec(join_vars(alloc, side, 0, &query.join)?),
        lits: Seq::from_vec(lits),
        head: Seq::from_vec(col_atoms(alloc, &query.join, query.columns.as_slice())?),
    })
}

/// What stands on a side for a query: a term for each case.
fn answer_terms(alloc: Global, side: Side, query: &Query) -> Result<Seq<Term>, AllocError>
    ensures { IfOk result (λ ts. ts ≡ spec.answer_terms side query.now) }
{
    let cases = query.cond.cases.as_slice();
    let mut terms = Vec::with_capacity(alloc, cases.len())?;
    for i in 0..cases.len() {
        terms.push(case_term(alloc, side, query, &cases[..i], cases[i].as_slice())?)?;
    }
    Ok(Seq::from_vec(terms))
}

/// What stands on a side for a function; nothing for an update.
fn terms_of(alloc: Global, side: Side, function: &Function) -> Result<Seq<Term>, AllocError>
    ensures { IfOk result (λ ts. ts ≡ body_terms side function.now.body) }
{
    match &function.body {
        Body::Update(_) => Ok(Seq::new(alloc)),
        Body::Query(query) => answer_terms(alloc, side, query),
    }
}

/// What is to be shown where two queries are to answer alike: for each case of a query's condition the rows in which
/// it is true and no earlier one is. An update counts as a query that answers nothing.
/// A number that is no u32 is answered as want of memory.
pub fn answers(alloc: Global, pair: &Pair) -> Result<Obligation, AllocError>
    ensures { IfOk result (λ o. (o.source.terms ≡ body_terms Old pair.now.source_fn.now.body) × (o.target.terms ≡ body_terms New pair.now.target_fn.now.body)) }
{
    let terms = terms_of(alloc, Side::Old, pair.source_fn)?;
    let source = Expr { terms };
    let terms = terms_of(alloc, Side::New, pair.target_fn)?;
    let target = Expr { terms };
    Ok(Obligation { source, target })
}
