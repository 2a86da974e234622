// The first rule that a schema breaks.
ghost use Rattle.std.specs.Prelude.{◌≡◌, ◌⊎◌, ◌==◌, ◌&&◌, ◌∷◌, [], Some, None};
ghost use Rattle.std.specs.Option.{option_map};
ghost use Rattle.mig_schema.specs.declared.faults.TypeFault.{TypeFault as Fault};
ghost use Rattle.mig_schema.specs.Typed as typing;
ghost use Rattle.mig_schema.specs.Typed.{IsTypedSchema};
ghost use Rattle.mig_typing.specs.First.{IsFirst, IsOkWhere, IsFaultWhere};
ghost use Rattle.mig_typing.specs.Broken.{schema_rank, numbers, item_has, schema_broken, schema_breaks};

use crate::again::first_again;
use mig_schema::{Link, Schema, SchemaRule, Side, TypeFault, has_column, kind_of, same_kind};
use std::alloc::Global;

/// The rules in the order in which they are tested.
const RULES: [SchemaRule; 5] = [
    SchemaRule::TableTwice,
    SchemaRule::ColumnTwice,
    SchemaRule::LinkEnd,
    SchemaRule::LinkTables,
    SchemaRule::LinkKinds,
];

/// Whether an end of a link names no column of the schema.
fn link_end(schema: &Schema, link: &Link) -> bool
    ensures { result ≡ typing.link_end schema.now link.now }
{
    !(has_column(schema, link.left) && has_column(schema, link.right))
}

/// Whether both ends of a link are in one table.
fn link_tables(link: &Link) -> bool
    ensures { result ≡ typing.link_tables link.now }
{
    link.left.table == link.right.table
}

/// Whether the ends of a link have different kinds.
fn link_kinds(schema: &Schema, link: &Link) -> bool
    ensures { result ≡ typing.link_kinds schema.now link.now }
{
    !same_kind(kind_of(schema, link.left), kind_of(schema, link.right))
}

/// The first link with an end that names no column.
fn first_end(schema: &Schema) -> Option<usize>
    ensures { IsFirst (λ k. k ∷ []) (item_has (typing.link_end schema.now) schema.now.links) result }
{
    schema
        .links
        .as_slice()
        .iter()
        .position(|l| link_end(schema, l))
}

/// The first link within one table.
fn first_within(schema: &Schema) -> Option<usize>
    ensures { IsFirst (λ k. k ∷ []) (item_has typing.link_tables schema.now.links) result }
{
    schema.links.as_slice().iter().position(link_tables)
}

/// The first link of two kinds.
fn first_mixed(schema: &Schema) -> Option<usize>
    ensures { IsFirst (λ k. k ∷ []) (item_has (typing.link_kinds schema.now) schema.now.links) result }
{
    schema
        .links
        .as_slice()
        .iter()
        .position(|l| link_kinds(schema, l))
}

/// The first table with an earlier one's name.
fn first_table(schema: &Schema) -> Option<usize>
    ensures { IsFirst (λ k. k ∷ []) (typing.table_twice schema.now) result }
{
    first_again(schema.tables.as_slice())
}

/// The first table with a column name twice, and its first column with an earlier one's name.
fn first_column(schema: &Schema) -> Option<(usize, usize)>
    ensures { IsFirst (λ p. p.0 ∷ p.1 ∷ []) (λ p. typing.column_twice schema.now p.0 p.1) result }
{
    for (t, table) in schema.tables.as_slice().iter().enumerate() {
        if let Some(k) = first_again(table.columns.as_slice()) {
            return Some((t, k));
        }
    }
    None
}

/// A number as A, with 0 as B.
fn alone(a: Option<usize>) -> Option<(usize, usize)>
    ensures { result ≡ option_map (λ k. (k, 0)) a }
{
    a.map(|k| (k, 0))
}

/// The first A and B at which a rule is broken.
fn first_of(schema: &Schema, rule: SchemaRule) -> Option<(usize, usize)>
    ensures { IsFirst (λ p. p.0 ∷ p.1 ∷ []) (λ p. schema_broken schema.now rule p.0 p.1) result }
{
    match rule {
        SchemaRule::TableTwice => alone(first_table(schema)),
        SchemaRule::ColumnTwice => first_column(schema),
        SchemaRule::LinkEnd => alone(first_end(schema)),
        SchemaRule::LinkTables => alone(first_within(schema)),
        SchemaRule::LinkKinds => alone(first_mixed(schema)),
    }
}

/// The first rule that is broken, with its A and B.
fn first_place(schema: &Schema) -> Option<(SchemaRule, usize, usize)>
    ensures { IsFirst (λ p. schema_rank p.0 ∷ p.1 ∷ p.2 ∷ []) (λ p. schema_broken schema.now p.0 p.1 p.2) result }
{
    for rule in &RULES {
        match first_of(schema, *rule) {
            Some(found) => return Some((*rule, found.0, found.1)),
            None => {}
        }
    }
    None
}

/// The fault at a place. A number that is no u32 is reported as want of memory.
fn fault_at(side: Side, rule: SchemaRule, a: usize, b: usize) -> TypeFault
    ensures { (result ≡ Fault.Memory) ⊎ (result ≡ Fault.Schema side rule a b) }
{
    match (u32::try_from(a), u32::try_from(b)) {
        (Ok(a), Ok(b)) => TypeFault::Schema { side, rule, a, b },
        _ => TypeFault::Memory,
    }
}

/// Whether a schema is typed. The error is the first broken rule, by rule, then A, then B, with the side that is given:
/// A is a table and B 0, or for two columns of one name the table and the later column, or for links the link and 0.
/// A place whose numbers are no u32 is answered as `Memory`.
pub fn check_schema(_alloc: Global, schema: &Schema, side: Side) -> Result<(), TypeFault>
    ensures typed { IsOkWhere (IsTypedSchema schema.now) result }
    ensures first { IsFaultWhere numbers (schema_breaks schema.now side) result }
{
    match first_place(schema) {
        None => Ok(()),
        Some(found) => Err(fault_at(side, found.0, found.1, found.2)),
    }
}
