// The numbers that names stand for.
ghost use Rattle.std.specs.Prelude.{◌≡◌, position};
ghost use Rattle.std.specs.List.{find};
ghost use Rattle.std.specs.Option.{option_copied};
ghost use Rattle.std.specs.Str.{bytes_eq};
ghost use Rattle.mig_syntax.specs.Naming as spec;

use mig_base::{Txt, same_text};
use mig_grammar::ColName;
use mig_schema::{ColId, Column, Param, Table};

/// The number that stands for a name which is not found.
const NOWHERE: u32 = u32::MAX;

/// An item's number from its place.
fn number_at(place: Option<usize>) -> u32
    ensures { result ≡ spec.number_at place }
{
    match place {
        Some(n) if n < NOWHERE as usize => n as u32,
        _ => NOWHERE,
    }
}

/// Where the first table of this name stands.
fn place_of_table(tables: &[Table], name: &Txt) -> Option<usize>
    ensures { result ≡ position (λ t. bytes_eq t.name name.now) tables.now }
{
    tables.iter().position(|t| same_text(&t.name, name))
}

/// Where the first column of this name stands.
fn place_of_column(columns: &[Column], name: &Txt) -> Option<usize>
    ensures { result ≡ position (λ c. bytes_eq c.name name.now) columns.now }
{
    columns.iter().position(|c| same_text(&c.name, name))
}

/// Where the first parameter of this name stands.
fn place_of_param(params: &[Param], name: &Txt) -> Option<usize>
    ensures { result ≡ position (λ p. bytes_eq p.name name.now) params.now }
{
    params.iter().position(|p| same_text(&p.name, name))
}

/// The first table of this name.
fn find_table<'a>(tables: &'a [Table], name: &Txt) -> Option<&'a Table>
    ensures { option_copied result ≡ find (λ t. bytes_eq t.name name.now) tables.now }
{
    tables.iter().find(|t| same_text(&t.name, name))
}

/// The columns of the first table of this name; none where there is no such table.
fn columns_of<'a>(tables: &'a [Table], name: &Txt) -> &'a [Column]
    ensures { result.now ≡ spec.columns_of tables.now name.now }
{
    match find_table(tables, name) {
        Some(table) => table.columns.as_slice(),
        None => &[],
    }
}

/// The number of the first table of this name.
pub(crate) fn table_of(tables: &[Table], name: &Txt) -> u32
    ensures { result ≡ spec.table_of tables.now name.now }
{
    number_at(place_of_table(tables, name))
}

/// The number of the first parameter of this name.
pub(crate) fn param_of(params: &[Param], name: &Txt) -> u32
    ensures { result ≡ spec.param_of params.now name.now }
{
    number_at(place_of_param(params, name))
}

/// The numbers of a column.
pub(crate) fn col_of(tables: &[Table], name: &ColName) -> ColId
    ensures { result ≡ spec.col_of tables.now name.now }
{
    ColId {
        table: table_of(tables, &name.table),
        column: number_at(place_of_column(columns_of(tables, &name.table), &name.column)),
    }
}
