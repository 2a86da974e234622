// The pairs of an old and a new column of one kind, and those that are taken.
ghost use Rattle.std.specs.Prelude.{◌≡◌, ◌++◌, ◌∷◌, [], cond, length, IfOk, OnOk};
ghost use Rattle.std.specs.List.{flat_map};
ghost use Rattle.mig_corresp.specs.Pairs as spec;
ghost use Rattle.mig_corresp.specs.Coding as coding;

use mig_base::Seq;
use mig_invariant::{ColPair, all_columns};
use mig_schema::{ColId, Job, kind_of};
use std::alloc::{AllocError, Global};

/// Adds the old column with each of these new ones that has its kind.
fn add_pairs(
    job: &Job,
    source: ColId,
    targets: &[ColId],
    list: &mut Seq<ColPair>,
) -> Result<(), AllocError>
    ensures { OnOk result (list.new ≡ list.old ++ spec.pairs_among job.now targets.now source) }
{
    let kind = kind_of(&job.source, source);
    for target in targets {
        if kind == kind_of(&job.target, *target) {
            list.push(ColPair {
                source,
                target: *target,
            })?;
        }
    }
    Ok(())
}

/// Adds the pairs of each of these old columns with these new ones.
fn add_all(
    job: &Job,
    sources: &[ColId],
    targets: &[ColId],
    list: &mut Seq<ColPair>,
) -> Result<(), AllocError>
    ensures { OnOk result (list.new ≡ list.old ++ flat_map (spec.pairs_among job.now targets.now) sources.now) }
{
    for source in sources {
        add_pairs(job, *source, targets, list)?;
    }
    Ok(())
}

/// All pairs of an old and a new column of one kind, by old, then by new column in schema order.
pub fn all_pairs(alloc: Global, job: &Job) -> Result<Seq<ColPair>, AllocError>
    ensures { IfOk result (λ list. list ≡ spec.pairs job.now) }
{
    let sources = all_columns(alloc, &job.source)?;
    let targets = all_columns(alloc, &job.target)?;
    let mut list = Seq::new(alloc);
    add_all(job, sources.as_slice(), targets.as_slice(), &mut list)?;
    Ok(list)
}

/// Adds the pair, if it is taken.
fn add_taken(list: &mut Seq<ColPair>, pair: ColPair, taken: bool) -> Result<(), AllocError>
    ensures { OnOk result (list.new ≡ list.old ++ cond taken (pair ∷ []) []) }
{
    if taken {
        list.push(pair)?;
    }
    Ok(())
}

/// The pairs whose values are true.
pub fn picked(alloc: Global, pairs: &[ColPair], values: &[bool]) -> Result<Seq<ColPair>, AllocError>
    requires { length values.now ≡ length pairs.now }
    ensures { IfOk result (λ list. list ≡ coding.picked pairs.now values.now) }
{
    let mut list = Seq::new(alloc);
    for i in 0..pairs.len() {
        add_taken(&mut list, pairs[i], values[i])?;
    }
    Ok(list)
}
