// Pairs of an old and a new column of one kind.
ghost use Rattle.std.specs.Prelude.{◌≡◌, ◌*◌, ◌-◌, ◌<◌, ◌^◌, ◌↔◌, min, IsTrue};
ghost use Rattle.std.specs.List.{count_by};
ghost use Rattle.mig_schema.specs.Columns.{same_kind};
ghost use Rattle.mig_schema.specs.declared.tables.Column.{Column};
ghost use Rattle.mig_syntax.specs.Pairs.{all_columns, of_kind, pairs_of};

use mig_schema::{Column, Job, Kind, Schema};

/// How many of the columns are of a kind.
fn count_in(columns: &[Column], kind: Kind) -> usize
    ensures { result ≡ of_kind kind columns.now }
{
    columns.iter().filter(|c| c.kind == kind).count()
}

/// How many columns of a kind a schema has, up to the greatest `usize`.
fn count_of_kind(schema: &Schema, kind: Kind) -> usize
    ensures { result ≡ min (of_kind kind (all_columns schema.now)) (2 ^ 64 - 1) }
{
    let mut count: usize = 0;
    for table in schema.tables.as_slice() {
        count = count.saturating_add(count_in(table.columns.as_slice(), kind));
    }
    count
}

/// How many pairs of columns of a kind there are, up to the greatest `usize`.
#[tactic(auto, using(crate::proofs::PairLemmas::capped))]
fn pairs_of_kind(job: &Job, kind: Kind) -> usize
    ensures { result ≡ min (of_kind kind (all_columns job.now.source) * of_kind kind (all_columns job.now.target)) (2 ^ 64 - 1) }
{
    count_of_kind(&job.source, kind).saturating_mul(count_of_kind(&job.target, kind))
}

/// Whether there are more than 256 pairs of an old and a new column of one kind.
#[tactic(auto, using(crate::proofs::PairLemmas::by_kinds))]
pub(crate) fn has_many_pairs(job: &Job) -> bool
    ensures { IsTrue result ↔ (256 < pairs_of job.now) }
{
    let ints = pairs_of_kind(job, Kind::Int);
    let texts = pairs_of_kind(job, Kind::Text);
    let keys = pairs_of_kind(job, Kind::Key);
    256 < ints.saturating_add(texts).saturating_add(keys)
}
