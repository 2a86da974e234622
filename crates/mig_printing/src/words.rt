// Writes the smallest pieces: words, numbers, quoted texts and names.
ghost use Rattle.std.specs.Prelude.{◌≡◌, ◌++◌, [], ◌∷◌, OnOk, decimal};
ghost use Rattle.std.specs.Fmt.{signed_decimal};
ghost use Rattle.std.specs.List.{flat_map};
ghost use Rattle.mig_schema.specs.Columns.{table_at, column_at};
ghost use Rattle.mig_printing.specs.Printing.{escaped, quoted, op_text, kind_text, param_name};

use itoa::Buffer;
use mig_base::Txt;
use mig_schema::{ColId, Kind, Op, Param, Schema, columns_of};
use std::alloc::AllocError;

/// Appends a text as it is. On want of memory nothing is said of what `out` holds.
pub fn put(out: &mut Txt, text: &str) -> Result<(), AllocError>
    ensures { OnOk result (out.new ≡ out.old ++ text.now) }
{
    out.extend_from_slice(text.as_bytes())
}

/// Appends a number in decimal digits, without leading zeros. On want of memory nothing is said of what `out` holds.
pub fn put_number(out: &mut Txt, number: u32) -> Result<(), AllocError>
    ensures { OnOk result (out.new ≡ out.old ++ decimal number) }
{
    put(out, Buffer::new().format(number))
}

/// Appends a number in decimal digits, without leading zeros, behind a `-` where it is below 0. On want of memory nothing
/// is said of what `out` holds.
pub fn put_int(out: &mut Txt, number: i64) -> Result<(), AllocError>
    ensures { OnOk result (out.new ≡ out.old ++ signed_decimal number) }
{
    put(out, Buffer::new().format(number))
}

/// Appends bytes as they are. On want of memory nothing is said of what `out` holds.
pub fn put_bytes(out: &mut Txt, bytes: &[u8]) -> Result<(), AllocError>
    ensures { OnOk result (out.new ≡ out.old ++ bytes.now) }
{
    out.extend_from_slice(bytes)
}

fn put_escaped(out: &mut Txt, byte: u8) -> Result<(), AllocError>
    ensures { OnOk result (out.new ≡ out.old ++ escaped byte) }
{
    match byte {
        b'"' => put(out, "\\\""),
        b'\\' => put(out, "\\\\"),
        b'\n' => put(out, "\\n"),
        _ => out.push(byte),
    }
}

fn put_all_escaped(out: &mut Txt, text: &[u8]) -> Result<(), AllocError>
    ensures { OnOk result (out.new ≡ out.old ++ flat_map escaped text.now) }
{
    for byte in text {
        put_escaped(out, *byte)?;
    }
    Ok(())
}

/// Appends a text between quotes; a quote, a backslash and a line feed are escaped. On want of memory nothing is said of
/// what `out` holds.
pub fn put_quoted(out: &mut Txt, text: &Txt) -> Result<(), AllocError>
    ensures { OnOk result (out.new ≡ out.old ++ quoted text.now) }
{
    put(out, "\"")?;
    put_all_escaped(out, text.as_slice())?;
    put(out, "\"")
}

/// Appends an operator.
pub(crate) fn put_op(out: &mut Txt, op: Op) -> Result<(), AllocError>
    ensures { OnOk result (out.new ≡ out.old ++ op_text op) }
{
    match op {
        Op::Eq => put(out, "="),
        Op::Ne => put(out, "<>"),
        Op::Lt => put(out, "<"),
        Op::Le => put(out, "<="),
        Op::Gt => put(out, ">"),
        Op::Ge => put(out, ">="),
    }
}

/// Appends a kind.
pub(crate) fn put_kind(out: &mut Txt, kind: Kind) -> Result<(), AllocError>
    ensures { OnOk result (out.new ≡ out.old ++ kind_text kind) }
{
    match kind {
        Kind::Int => put(out, "int"),
        Kind::Text => put(out, "text"),
        Kind::Key => put(out, "key"),
    }
}

/// The name of the table of this number; nothing where there is none.
#[tactic(auto, using(crate::proofs::PrintLemmas::past))]
pub(crate) fn table_name(schema: &Schema, table: u32) -> &[u8]
    ensures { result.now ≡ (table_at schema.now table).name }
{
    match schema.tables.get(table as usize) {
        Some(table) => table.name.as_slice(),
        None => &[],
    }
}

/// The name of the column of these numbers; nothing where there is none.
#[tactic(auto, using(crate::proofs::PrintLemmas::past))]
pub(crate) fn column_name(schema: &Schema, col: ColId) -> &[u8]
    ensures { result.now ≡ (column_at schema.now col).name }
{
    match columns_of(schema, col.table).get(col.column as usize) {
        Some(column) => column.name.as_slice(),
        None => &[],
    }
}

/// The name of the parameter of this number; nothing where there is none.
pub(crate) fn name_of_param(params: &[Param], param: u32) -> &[u8]
    ensures { result.now ≡ param_name params.now param }
{
    match params.get(param as usize) {
        Some(param) => param.name.as_slice(),
        None => &[],
    }
}
