// Views of holes: the old part's join and the new one's, with the columns that correspond.
ghost use Rattle.std.specs.Prelude.{◌≡◌, ◌++◌, map, IfOk, OnOk};
ghost use Rattle.std.specs.List.{flat_map};
ghost use Rattle.mig_invariant.specs.Candidates as spec;

use crate::columns::columns_within;
use crate::corresp::{ColPair, Corr};
use mig_base::{Exact, Seq};
use mig_meaning::{Invariant, View};
use mig_schema::{ColId, Join, tables_of};
use std::alloc::{AllocError, Global};

/// Adds an old column with each of its images among these new ones.
fn add_images(
    corr: &Corr,
    targets: &[ColId],
    source: ColId,
    list: &mut Vec<ColPair>,
) -> Result<(), AllocError>
    ensures { OnOk result (list.new.items ≡ list.old.items ++ spec.outputs_from targets.now corr.now source) }
{
    for target in targets {
        if corr.has(source, *target) {
            list.push(ColPair {
                source,
                target: *target,
            })?;
        }
    }
    Ok(())
}

/// Each of the old columns with each of its images among the new ones.
fn all_images(
    alloc: Global,
    corr: &Corr,
    sources: &[ColId],
    targets: &[ColId],
) -> Result<Vec<ColPair>, AllocError>
    ensures { IfOk result (λ v. v.items ≡ flat_map (spec.outputs_from targets.now corr.now) sources.now) }
{
    let mut list = Vec::new(alloc);
    for source in sources {
        add_images(corr, targets, *source, &mut list)?;
    }
    Ok(list)
}

/// Those of the columns whose table the join has.
fn joined_columns(alloc: Global, columns: &[ColId], join: &Join) -> Result<Seq<ColId>, AllocError>
    ensures { IfOk result (λ list. list ≡ spec.joined_columns columns.now join.now) }
{
    let tables = tables_of(alloc, join)?;
    columns_within(alloc, columns, tables.as_slice())
}

/// The pairs of a column of the old join's tables and an image of it in the new join's.
fn outputs(
    alloc: Global,
    sources: &[ColId],
    targets: &[ColId],
    corr: &Corr,
    old: &Join,
    new: &Join,
) -> Result<Vec<ColPair>, AllocError>
    ensures { IfOk result (λ v. v.items ≡ spec.outputs sources.now targets.now corr.now old.now new.now) }
{
    let sources = joined_columns(alloc, sources, old)?;
    let targets = joined_columns(alloc, targets, new)?;
    all_images(alloc, corr, sources.as_slice(), targets.as_slice())
}

/// The old columns of the pairs.
fn sources_of(alloc: Global, pairs: &[ColPair]) -> Result<Seq<ColId>, AllocError>
    ensures { IfOk result (λ list. list ≡ map (λ q. q.source) pairs.now) }
{
    let mut list = Seq::new(alloc);
    for pair in pairs {
        list.push(pair.source)?;
    }
    Ok(list)
}

/// The new columns of the pairs.
fn targets_of(alloc: Global, pairs: &[ColPair]) -> Result<Seq<ColId>, AllocError>
    ensures { IfOk result (λ list. list ≡ map (λ q. q.target) pairs.now) }
{
    let mut list = Seq::new(alloc);
    for pair in pairs {
        list.push(pair.target)?;
    }
    Ok(list)
}

/// The two views of the joins with these columns.
fn view_of(
    alloc: Global,
    old: &Join,
    new: &Join,
    pairs: &[ColPair],
) -> Result<Invariant, AllocError>
    ensures { IfOk result (λ i. i ≡ spec.view_of old.now new.now pairs.now) }
{
    let source = View {
        join: old.twin(alloc)?,
        outs: sources_of(alloc, pairs)?,
    };
    let target = View {
        join: new.twin(alloc)?,
        outs: targets_of(alloc, pairs)?,
    };
    Ok(Invariant::Views { source, target })
}

/// Adds the views of the two joins with these columns, if there are any.
fn add_view(
    alloc: Global,
    old: &Join,
    new: &Join,
    pairs: &[ColPair],
    list: &mut Vec<Invariant>,
) -> Result<(), AllocError>
    ensures { OnOk result (list.new.items ≡ list.old.items ++ spec.views_with old.now new.now pairs.now) }
{
    if !pairs.is_empty() {
        list.push(view_of(alloc, old, new, pairs)?)?;
    }
    Ok(())
}

/// Adds the views of each old join and the new one in its place.
pub(crate) fn add_views(
    alloc: Global,
    sources: &[ColId],
    targets: &[ColId],
    corr: &Corr,
    olds: &[Join],
    news: &[Join],
    list: &mut Vec<Invariant>,
) -> Result<(), AllocError>
    ensures { OnOk result (list.new.items ≡ list.old.items ++ spec.views sources.now targets.now corr.now olds.now news.now) }
{
    for (old, new) in olds.iter().zip(news) {
        let pairs = outputs(alloc, sources, targets, corr, old, new)?;
        add_view(alloc, old, new, pairs.as_slice(), list)?;
    }
    Ok(())
}
