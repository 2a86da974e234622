// What pairs of columns weigh.
ghost use Rattle.std.specs.Prelude.{◌≡◌, ◌≤ℤ◌, pos, IfOk, map};
ghost use Rattle.std.specs.Option.{option_copied};
ghost use Rattle.mig_corresp.specs.Weights as spec;

use crate::naming::{column_name, table_name};
use mig_base::Seq;
use mig_invariant::ColPair;
use mig_schema::{Hint, Job, same_col};
use std::alloc::{AllocError, Global};

/// What the names weigh: 12 where those of the table and of the column are the same, 8 for the column's alone, 3 for the table's.
fn name_weight(tables: bool, columns: bool) -> i64
    ensures value { result ≡ spec.name_weight tables columns }
    ensures least { pos 0 ≤ℤ result }
    ensures most { result ≤ℤ pos 12 }
{
    match (tables, columns) {
        (true, true) => 12,
        (false, true) => 8,
        (true, false) => 3,
        (false, false) => 0,
    }
}

/// The hint of the pair: the first one, if there are more.
fn hint_of(hints: &[Hint], pair: ColPair) -> Option<&Hint>
    ensures { option_copied result ≡ spec.hint_of hints.now pair }
{
    hints.iter().find(|hint| same_col(hint.source, pair.source)
        && same_col(hint.target, pair.target))
}

/// The weight of the pair's hint; 0 where it has none.
fn hint_weight(hints: &[Hint], pair: ColPair) -> u32
    ensures { result ≡ spec.hint_weight hints.now pair }
{
    match hint_of(hints, pair) {
        Some(hint) => hint.weight,
        None => 0,
    }
}

/// Whether the tables of the pair have one name.
fn same_tables(job: &Job, pair: ColPair) -> bool
    ensures { result ≡ spec.same_tables job.now pair }
{
    table_name(&job.source, pair.source.table) == table_name(&job.target, pair.target.table)
}

/// Whether the columns of the pair have one name.
fn same_columns(job: &Job, pair: ColPair) -> bool
    ensures { result ≡ spec.same_columns job.now pair }
{
    column_name(&job.source, pair.source) == column_name(&job.target, pair.target)
}

/// What the pair weighs, by its names and its hint.
fn pair_weight(job: &Job, pair: ColPair) -> i64
    ensures { result ≡ spec.pair_weight job.now pair }
{
    let names = name_weight(same_tables(job, pair), same_columns(job, pair));
    names + i64::from(hint_weight(job.hints.as_slice(), pair)) - 9
}

/// What each pair weighs.
pub fn weights(alloc: Global, job: &Job, pairs: &[ColPair]) -> Result<Seq<i64>, AllocError>
    ensures { IfOk result (λ list. list ≡ map (spec.pair_weight job.now) pairs.now) }
{
    let mut list = Seq::new(alloc);
    for pair in pairs {
        list.push(pair_weight(job, *pair))?;
    }
    Ok(list)
}
