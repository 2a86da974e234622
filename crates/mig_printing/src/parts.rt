// Writes the parts of statements: columns, joins, values and conditions.
ghost use Rattle.std.specs.Prelude.{◌≡◌, ◌++◌, List, ℕ, OnOk, codes};
ghost use Rattle.std.specs.List.{flat_map, join_by};
ghost use Rattle.mig_schema.specs.declared.tables.Schema.{Schema};
ghost use Rattle.mig_schema.specs.declared.programs.Param.{Param};
ghost use Rattle.mig_printing.specs.Printing.{table_text, col_text, cols_text, param_text, scalar_text, item_text, cmp_text, case_text, is_always, where_text, joined_text, join_text, assign_text};

use crate::words::{
    column_name, name_of_param, put, put_bytes, put_int, put_kind, put_number, put_op, put_quoted,
    table_name,
};
use mig_base::{Seq, Txt};
use mig_schema::{Assign, Cmp, ColId, Cond, Item, Join, Joined, Param, Scalar, Schema};
use std::alloc::AllocError;

/// What stands in lists: it is written under the names of a schema and of a function's parameters.
pub(crate) trait Written {
    ghost use Rattle.std.specs.Prelude.{List, ℕ};
    ghost use Rattle.mig_schema.specs.declared.tables.Schema.{Schema};
    ghost use Rattle.mig_schema.specs.declared.programs.Param.{Param};

    ghost text: { Schema → List Param → Self → List ℕ };

    /// Appends its text.
    fn put(&self, out: &mut Txt, schema: &Schema, params: &[Param]) -> Result<(), AllocError>
        ensures { OnOk result (out.new ≡ out.old ++ text schema.now params.now self.now) };
}

/// Appends the items, with the separator between each two.
pub(crate) fn put_joined<T: Written>(
    out: &mut Txt,
    schema: &Schema,
    params: &[Param],
    separator: &str,
    items: &[T],
) -> Result<(), AllocError>
    ensures { OnOk result (out.new ≡ out.old ++ join_by (T.text schema.now params.now) separator.now items.now) }
{
    let [first, others @ ..] = items else {
        return Ok(());
    };
    first.put(out, schema, params)?;
    put_others(out, schema, params, separator, others)
}

/// Appends the items, each behind the separator.
fn put_others<T: Written>(
    out: &mut Txt,
    schema: &Schema,
    params: &[Param],
    separator: &str,
    items: &[T],
) -> Result<(), AllocError>
    ensures { OnOk result (out.new ≡ out.old ++ flat_map (λ y. separator.now ++ T.text schema.now params.now y) items.now) }
{
    for item in items {
        put(out, separator)?;
        item.put(out, schema, params)?;
    }
    Ok(())
}

/// A table, by its number.
impl Written for u32 {
    ghost text = { λ s ps t. table_text s t };

    fn put(&self, out: &mut Txt, schema: &Schema, _params: &[Param]) -> Result<(), AllocError> {
        put_bytes(out, table_name(schema, *self))
    }
}

impl Written for ColId {
    ghost text = { λ s ps c. col_text s c };

    fn put(&self, out: &mut Txt, schema: &Schema, _params: &[Param]) -> Result<(), AllocError> {
        put_col(out, schema, *self)
    }
}

impl Written for Param {
    ghost text = { λ s ps p. param_text p };

    fn put(&self, out: &mut Txt, _schema: &Schema, _params: &[Param]) -> Result<(), AllocError> {
        put_bytes(out, self.name.as_slice())?;
        put(out, ": ")?;
        put_kind(out, self.kind)
    }
}

impl Written for Assign {
    ghost text = { assign_text };

    fn put(&self, out: &mut Txt, schema: &Schema, params: &[Param]) -> Result<(), AllocError> {
        put_col(out, schema, self.column)?;
        put(out, " = ")?;
        put_scalar(out, params, &self.value)
    }
}

impl Written for Cmp {
    ghost text = { cmp_text };

    fn put(&self, out: &mut Txt, schema: &Schema, params: &[Param]) -> Result<(), AllocError> {
        put_item(out, schema, params, &self.left)?;
        put(out, " ")?;
        put_op(out, self.op)?;
        put(out, " ")?;
        put_item(out, schema, params, &self.right)
    }
}

/// A case of a condition.
impl Written for Seq<Cmp> {
    ghost text = { case_text };

    fn put(&self, out: &mut Txt, schema: &Schema, params: &[Param]) -> Result<(), AllocError> {
        put_joined(out, schema, params, " and ", self.as_slice())
    }
}

/// Appends `T.c`. On want of memory nothing is said of what `out` holds.
pub fn put_col(out: &mut Txt, schema: &Schema, col: ColId) -> Result<(), AllocError>
    ensures { OnOk result (out.new ≡ out.old ++ col_text schema.now col) }
{
    put_bytes(out, table_name(schema, col.table))?;
    put(out, ".")?;
    put_bytes(out, column_name(schema, col))
}

/// Appends columns, as `T.c, U.d`. On want of memory nothing is said of what `out` holds.
pub fn put_cols(out: &mut Txt, schema: &Schema, cols: &[ColId]) -> Result<(), AllocError>
    ensures { OnOk result (out.new ≡ out.old ++ cols_text schema.now cols.now) }
{
    put_joined(out, schema, &[], ", ", cols)
}

/// Appends a join, as `T join U on T.c = U.d`. On want of memory nothing is said of what `out` holds.
pub fn put_join(out: &mut Txt, schema: &Schema, join: &Join) -> Result<(), AllocError>
    ensures { OnOk result (out.new ≡ out.old ++ join_text schema.now join.now) }
{
    put_bytes(out, table_name(schema, join.first))?;
    for joined in join.more.as_slice() {
        put_further(out, schema, joined)?;
    }
    Ok(())
}

/// Appends a further table of a join, behind a space.
fn put_further(out: &mut Txt, schema: &Schema, joined: &Joined) -> Result<(), AllocError>
    ensures { OnOk result (out.new ≡ out.old ++ joined_text schema.now joined.now) }
{
    put(out, " join ")?;
    put_bytes(out, table_name(schema, joined.table))?;
    put(out, " on ")?;
    put_col(out, schema, joined.left)?;
    put(out, " = ")?;
    put_col(out, schema, joined.right)
}

/// Appends a scalar.
pub(crate) fn put_scalar(out: &mut Txt, params: &[Param], scalar: &Scalar) -> Result<(), AllocError>
    ensures { OnOk result (out.new ≡ out.old ++ scalar_text params.now scalar.now) }
{
    match scalar {
        Scalar::Param(param) => put_bytes(out, name_of_param(params, *param)),
        Scalar::Int(number) => put_int(out, *number),
        Scalar::Text(text) => put_quoted(out, text),
        Scalar::Fresh(label) => {
            put(out, "fresh ")?;
            put_number(out, *label)
        }
    }
}

fn put_item(out: &mut Txt, schema: &Schema, params: &[Param], item: &Item) -> Result<(), AllocError>
    ensures { OnOk result (out.new ≡ out.old ++ item_text schema.now params.now item.now) }
{
    match item {
        Item::Col(col) => put_col(out, schema, *col),
        Item::Scalar(scalar) => put_scalar(out, params, scalar),
    }
}

/// Whether a condition is one empty case.
fn is_always(cases: &[Seq<Cmp>]) -> bool
    ensures { result ≡ is_always cases.now }
{
    match cases {
        [only] => only.is_empty(),
        _ => false,
    }
}

/// Appends a condition behind its `where`; nothing for one empty case.
pub(crate) fn put_where(
    out: &mut Txt,
    schema: &Schema,
    params: &[Param],
    cond: &Cond,
) -> Result<(), AllocError>
    ensures { OnOk result (out.new ≡ out.old ++ where_text schema.now params.now cond.now) }
{
    if is_always(cond.cases.as_slice()) {
        return Ok(());
    }
    put(out, " where ")?;
    put_joined(out, schema, params, " or ", cond.cases.as_slice())
}
