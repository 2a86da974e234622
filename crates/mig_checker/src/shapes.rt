// The first invariant that speaks of what the schemas don't have.
ghost use Rattle.std.specs.Prelude.{◌≡◌, ◌∷◌, ◌&&◌, [], not};
ghost use Rattle.std.specs.List.{list_all};
ghost use Rattle.mig_schema.specs.Columns as columns;
ghost use Rattle.mig_schema.specs.Joins as joins;
ghost use Rattle.mig_typing.specs.First.{IsFirst};
ghost use Rattle.mig_typing.specs.Broken.{item_has};
ghost use Rattle.mig_obligations.specs.Shaped as spec;

use crate::functions::same_kinds;
use mig_algebra::{Invariant, Invariants, View};
use mig_schema::{
    ColId, Job, Join, Joined, Schema, Side, all_join_on, has_column, has_table, is_in_join,
    joins_twice, kind_of, same_kind,
};

/// Whether the table of each joined one is in the schema.
fn has_joined(schema: &Schema, joined: &[Joined]) -> bool
    ensures { result ≡ list_all (λ m. columns.has_table schema.now m.table) joined.now }
{
    joined.iter().all(|m| has_table(schema, m.table))
}

/// Whether each table of a join is in the schema.
#[tactic(auto, using(crate::proofs::Joined::joined_there))]
fn has_tables(schema: &Schema, join: &Join) -> bool
    ensures { result ≡ list_all (columns.has_table schema.now) (joins.tables_of join.now) }
{
    has_table(schema, join.first) && has_joined(schema, join.more.as_slice())
}

/// Whether the columns of each equality are in the schema.
fn has_columns(schema: &Schema, joined: &[Joined]) -> bool
    ensures { result ≡ list_all (λ m. columns.has_column schema.now m.left && columns.has_column schema.now m.right) joined.now }
{
    joined.iter().all(|m| has_column(schema, m.left) && has_column(schema, m.right))
}

/// Whether a join's tables and columns are in the schema, no table stands twice, and each equality joins its table to an
/// earlier one.
fn join_shaped(schema: &Schema, join: &Join) -> bool
    ensures { result ≡ spec.join_shaped schema.now join.now }
{
    let more = join.more.as_slice();
    has_tables(schema, join)
        && has_columns(schema, more)
        && !joins_twice(join)
        && all_join_on(schema, join.first, more)
}

/// Whether each output is a column of one of the join's tables.
fn outs_shaped(schema: &Schema, join: &Join, outs: &[ColId]) -> bool
    ensures { result ≡ list_all (λ c. columns.has_column schema.now c && joins.is_among c.table (joins.tables_of join.now)) outs.now }
{
    outs.iter()
        .all(|c| has_column(schema, *c) && is_in_join(join, c.table))
}

/// Whether a view's join is one of the schema, and its outputs are columns of the join's tables.
fn view_shaped(schema: &Schema, view: &View) -> bool
    ensures { result ≡ spec.view_shaped schema.now view.now }
{
    join_shaped(schema, &view.join) && outs_shaped(schema, &view.join, view.outs.as_slice())
}

/// Whether two columns of different tables are in the schema and have one kind.
fn columns_shaped(schema: &Schema, left: ColId, right: ColId) -> bool
    ensures { result ≡ spec.columns_shaped schema.now left right }
{
    has_column(schema, left)
        && has_column(schema, right)
        && same_kind(kind_of(schema, left), kind_of(schema, right))
        && left.table != right.table
}

/// The schema of a side.
fn schema_at(job: &Job, side: Side) -> &Schema
    ensures { result.now ≡ spec.schema_at side job.now.source job.now.target }
{
    match side {
        Side::Old => &job.source,
        Side::New => &job.target,
    }
}

/// Whether two views are shaped, and have outputs of equal kinds.
fn views_shaped(job: &Job, source: &View, target: &View) -> bool
    ensures { result ≡ (spec.view_shaped job.now.source source.now && (spec.view_shaped job.now.target target.now && spec.same_kinds job.now.source job.now.target source.now.outs target.now.outs)) }
{
    view_shaped(&job.source, source)
        && view_shaped(&job.target, target)
        && same_kinds(
            &job.source,
            &job.target,
            source.outs.as_slice(),
            target.outs.as_slice(),
        )
}

/// Whether an invariant speaks of what the schemas have.
fn is_shaped(job: &Job, invariant: &Invariant) -> bool
    ensures { result ≡ spec.is_shaped job.now.source job.now.target invariant.now }
{
    match invariant {
        Invariant::Views { source, target } => views_shaped(job, source, target),
        Invariant::Unique { side, column } => has_column(schema_at(job, *side), *column),
        Invariant::Apart { side, left, right } => {
            columns_shaped(schema_at(job, *side), *left, *right)
        }
        Invariant::Within { side, left, right } => {
            columns_shaped(schema_at(job, *side), *left, *right)
        }
    }
}

/// The first invariant that speaks of what the schemas don't have.
pub(crate) fn first_unshaped(job: &Job, invariants: &Invariants) -> Option<usize>
    ensures { IsFirst (λ k. k ∷ []) (item_has (λ i. not (spec.is_shaped job.now.source job.now.target i)) invariants.now.list) result }
{
    invariants
        .list
        .as_slice()
        .iter()
        .position(|i| !is_shaped(job, i))
}
