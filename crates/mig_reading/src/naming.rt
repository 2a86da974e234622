// From names to numbers: the certificate that a tree of names says.
ghost use Rattle.std.specs.Prelude.{◌≡◌, IfOk, map, position};
ghost use Rattle.std.specs.List.{find};
ghost use Rattle.std.specs.Option.{option_copied};
ghost use Rattle.std.specs.Str.{bytes_eq};
ghost use Rattle.mig_syntax.specs.Naming as spec;
ghost use Rattle.mig_reading.specs.Named as named;

use crate::tree::{CertificateTree, FactTree, Relation, ViewTree};
use mig_algebra::{Invariant, Invariants, View};
use mig_base::{Seq, Txt, same_text};
use mig_certificate::Certificate;
use mig_grammar::{ColName, JoinTree, JoinedTree};
use mig_schema::{ColId, Column, Job, Join, Joined, Side, Table};
use std::alloc::{AllocError, Global};

/// The number that stands for a name which is not found.
const NOWHERE: u32 = u32::MAX;

/// An item's number from its place.
fn number_at(place: Option<usize>) -> u32
    ensures { result ≡ spec.number_at place }
{
    match place {
        Some(n) if n < NOWHERE as usize => n as u32,
        _ => NOWHERE,
    }
}

/// Where the first table of this name stands.
fn place_of_table(tables: &[Table], name: &Txt) -> Option<usize>
    ensures { result ≡ position (λ t. bytes_eq t.name name.now) tables.now }
{
    tables.iter().position(|t| same_text(&t.name, name))
}

/// Where the first column of this name stands.
fn place_of_column(columns: &[Column], name: &Txt) -> Option<usize>
    ensures { result ≡ position (λ c. bytes_eq c.name name.now) columns.now }
{
    columns.iter().position(|c| same_text(&c.name, name))
}

/// The first table of this name.
fn find_table<'a>(tables: &'a [Table], name: &Txt) -> Option<&'a Table>
    ensures { option_copied result ≡ find (λ t. bytes_eq t.name name.now) tables.now }
{
    tables.iter().find(|t| same_text(&t.name, name))
}

/// The columns of the first table of this name; none where there is no such table.
fn columns_of<'a>(tables: &'a [Table], name: &Txt) -> &'a [Column]
    ensures { result.now ≡ spec.columns_of tables.now name.now }
{
    match find_table(tables, name) {
        Some(table) => table.columns.as_slice(),
        None => &[],
    }
}

/// The number of the first table of this name.
fn table_of(tables: &[Table], name: &Txt) -> u32
    ensures { result ≡ spec.table_of tables.now name.now }
{
    number_at(place_of_table(tables, name))
}

/// The numbers of a column.
fn col_of(tables: &[Table], name: &ColName) -> ColId
    ensures { result ≡ spec.col_of tables.now name.now }
{
    ColId {
        table: table_of(tables, &name.table),
        column: number_at(place_of_column(columns_of(tables, &name.table), &name.column)),
    }
}

/// Columns, by their numbers.
fn cols_of(alloc: Global, tables: &[Table], names: &[ColName]) -> Result<Vec<ColId>, AllocError>
    ensures { IfOk result (λ v. v.items ≡ map (spec.col_of tables.now) names.now) }
{
    names.iter().map(|c| col_of(tables, c)).collect(alloc)
}

/// A further table of a join, with numbers.
fn joined_of(tables: &[Table], joined: &JoinedTree) -> Joined
    ensures { result ≡ spec.joined_of tables.now joined.now }
{
    Joined {
        table: table_of(tables, &joined.table),
        left: col_of(tables, &joined.left),
        right: col_of(tables, &joined.right),
    }
}

/// Further tables of a join, with numbers.
fn more_of(alloc: Global, tables: &[Table], more: &[JoinedTree]) -> Result<Vec<Joined>, AllocError>
    ensures { IfOk result (λ v. v.items ≡ map (spec.joined_of tables.now) more.now) }
{
    more.iter().map(|j| joined_of(tables, j)).collect(alloc)
}

/// A join with numbers.
fn join_of(alloc: Global, tables: &[Table], join: &JoinTree) -> Result<Join, AllocError>
    ensures { IfOk result (λ j. j ≡ spec.join_of tables.now join.now) }
{
    let more = more_of(alloc, tables, join.more.as_slice())?;
    Ok(Join {
        first: table_of(tables, &join.first),
        more: Seq::from_vec(more),
    })
}

/// A view with numbers.
fn view_of(alloc: Global, tables: &[Table], view: &ViewTree) -> Result<View, AllocError>
    ensures { IfOk result (λ v. v ≡ named.view_of tables.now view.now) }
{
    let join = join_of(alloc, tables, &view.join)?;
    let outs = cols_of(alloc, tables, view.outs.as_slice())?;
    Ok(View {
        join,
        outs: Seq::from_vec(outs),
    })
}

/// The column of a side that has this name.
fn column_of(job: &Job, side: Side, name: &ColName) -> ColId
    ensures { result ≡ named.column_of job.now side name.now }
{
    match side {
        Side::Old => col_of(job.source.tables.as_slice(), name),
        Side::New => col_of(job.target.tables.as_slice(), name),
    }
}

/// A relation of two columns.
fn related(relation: Relation, side: Side, left: ColId, right: ColId) -> Invariant
    ensures { result ≡ named.related relation side left right }
{
    match relation {
        Relation::Apart => Invariant::Apart { side, left, right },
        Relation::Within => Invariant::Within { side, left, right },
    }
}

/// An invariant with numbers.
fn invariant_of(alloc: Global, job: &Job, fact: &FactTree) -> Result<Invariant, AllocError>
    ensures { IfOk result (λ i. i ≡ named.invariant_of job.now fact.now) }
{
    match fact {
        FactTree::Views { source, target } => {
            let source = view_of(alloc, job.source.tables.as_slice(), source)?;
            let target = view_of(alloc, job.target.tables.as_slice(), target)?;
            Ok(Invariant::Views { source, target })
        }
        FactTree::Unique { side, column } => Ok(Invariant::Unique {
            side: *side,
            column: column_of(job, *side, column),
        }),
        FactTree::Columns {
            relation,
            side,
            left,
            right,
        } => {
            let first = column_of(job, *side, left);
            let second = column_of(job, *side, right);
            Ok(related(*relation, *side, first, second))
        }
    }
}

/// Invariants with numbers.
fn invariants_of(alloc: Global, job: &Job, facts: &[FactTree]) -> Result<Vec<Invariant>, AllocError>
    ensures { IfOk result (λ v. v.items ≡ map (named.invariant_of job.now) facts.now) }
{
    let mut all = Vec::with_capacity(alloc, facts.len())?;
    for fact in facts {
        all.push(invariant_of(alloc, job, fact)?)?;
    }
    Ok(all)
}

/// The certificate of a tree of names; a name that its schema doesn't have gets the number 4,294,967,295.
pub(crate) fn certificate_of(
    alloc: Global,
    job: &Job,
    tree: CertificateTree,
) -> Result<Certificate, AllocError>
    ensures { IfOk result (λ c. c ≡ named.certificate_of job.now tree) }
{
    let CertificateTree { invariants, pairs } = tree;
    let list = invariants_of(alloc, job, invariants.as_slice())?;
    let invariants = Invariants {
        list: Seq::from_vec(list),
    };
    Ok(Certificate { invariants, pairs })
}
