// The list of the candidate invariants.
ghost use Rattle.std.specs.Prelude.{◌≡◌, ◌++◌, ◌∷◌, [], cond, IfOk, OnOk};
ghost use Rattle.std.specs.List.{list_any};
ghost use Rattle.mig_invariant.specs.Candidates as spec;
ghost use Rattle.mig_invariant.specs.Same.{same_invariant};

use crate::columns::all_columns;
use crate::corresp::Corr;
use crate::facts::{add_aparts, add_uniques, add_withins};
use crate::joining::{equalities_of, joins_of};
use crate::viewing::add_views;
use mig_base::{Exact, Seq};
use mig_meaning::{Invariant, Invariants};
use mig_schema::{ColId, Job, Join, Joined, Program, Side};
use std::alloc::{AllocError, Global};

/// How many candidates there are at most.
const CANDIDATES: usize = 4096;

/// Adds the facts of these columns: unique ones, then those that are apart, then those that are within others.
fn add_facts(
    alloc: Global,
    job: &Job,
    sources: &[ColId],
    targets: &[ColId],
    olds: &[Joined],
    news: &[Joined],
    list: &mut Vec<Invariant>,
) -> Result<(), AllocError>
    ensures { OnOk result (list.new.items ≡ list.old.items ++ spec.facts job.now sources.now targets.now olds.now news.now) }
{
    add_uniques(Side::Old, &job.source, sources, olds, list)?;
    add_uniques(Side::New, &job.target, targets, news, list)?;
    add_aparts(alloc, Side::Old, &job.source, sources, list)?;
    add_aparts(alloc, Side::New, &job.target, targets, list)?;
    add_withins(Side::Old, olds, sources, list)?;
    add_withins(Side::New, news, targets, list)
}

/// The views of these joins of the old and the new program, then the facts of these columns.
fn listed(
    alloc: Global,
    job: &Job,
    corr: &Corr,
    sources: &[ColId],
    targets: &[ColId],
    olds: &[Join],
    news: &[Join],
) -> Result<Vec<Invariant>, AllocError>
    ensures { IfOk result (λ v. v.items ≡ spec.listed job.now corr.now sources.now targets.now olds.now news.now) }
{
    let mut list = Vec::new(alloc);
    add_views(alloc, sources, targets, corr, olds, news, &mut list)?;
    let old_equalities = equalities_of(alloc, olds)?;
    let new_equalities = equalities_of(alloc, news)?;
    add_facts(
        alloc,
        job,
        sources,
        targets,
        old_equalities.as_slice(),
        new_equalities.as_slice(),
        &mut list,
    )?;
    Ok(list)
}

/// Whether the two are one invariant.
fn is_same(left: &Invariant, right: &Invariant) -> bool
    ensures { result ≡ same_invariant left.now right.now }
{
    left.same(right)
}

/// Whether the invariant stands in the list.
fn stands(list: &[Invariant], fact: &Invariant) -> bool
    ensures { result ≡ list_any (λ known. same_invariant known fact.now) list.now }
{
    list.iter().any(|known| is_same(known, fact))
}

/// Puts the invariant at the end of the list, unless it stands there.
fn add_once(list: &mut Vec<Invariant>, fact: Invariant) -> Result<(), AllocError>
    ensures { OnOk result (list.new.items ≡ cond (list_any (λ known. same_invariant known fact) list.old.items) list.old.items (list.old.items ++ fact ∷ [])) }
{
    if stands(list.as_slice(), &fact) {
        return Ok(());
    }
    list.push(fact)?;
    Ok(())
}

/// The invariants, each only where it stands first.
fn once(alloc: Global, facts: Vec<Invariant>) -> Result<Vec<Invariant>, AllocError>
    ensures { IfOk result (λ v. v.items ≡ spec.once facts.items) }
{
    let mut kept = Vec::new(alloc);
    for fact in facts {
        add_once(&mut kept, fact)?;
    }
    Ok(kept)
}

/// The candidate invariants, in order: those that are worth trying for the migration to `program` under the correspondence.
///
/// First come the views of each old statement's or query's join and of the new one in its place, with all pairs of an old column and
/// its images; a view without such columns is left out. Then each key column and each column of a join's equality is unique, each two
/// key columns of different tables are apart, and both columns of each equality are within one another; of each kind the old side comes
/// first, in schema order. Each stands once, and there are at most 4,096.
///
/// `program` should have as many statements in each function as the job's program. The only error is want of memory, as which a schema
/// of 2^32 tables, or a table of 2^32 columns, counts.
pub fn candidates(
    alloc: Global,
    job: &Job,
    corr: &Corr,
    program: &Program,
) -> Result<Invariants, AllocError>
    ensures { IfOk result (λ i. i.list ≡ spec.candidates job.now corr.now program.now) }
{
    let olds = joins_of(alloc, &job.program)?;
    let news = joins_of(alloc, program)?;
    let sources = all_columns(alloc, &job.source)?;
    let targets = all_columns(alloc, &job.target)?;
    let facts = listed(
        alloc,
        job,
        corr,
        sources.as_slice(),
        targets.as_slice(),
        olds.as_slice(),
        news.as_slice(),
    )?;
    let mut list = once(alloc, facts)?;
    list.truncate(CANDIDATES);
    Ok(Invariants {
        list: Seq::from_vec(list),
    })
}
