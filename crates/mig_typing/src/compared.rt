// The scalars and kinds of a piece, tested one by one.
ghost use Rattle.std.specs.Prelude.{◌≡◌, ◌||◌, ◌&&◌, not};
ghost use Rattle.std.specs.List.{list_any, flat_map};
ghost use Rattle.mig_schema.specs.Columns.{kind_of as spec_kind_of, same_kind as spec_same_kind};
ghost use Rattle.mig_schema.specs.declared.tables.Kind.TheVariants.{Int};
ghost use Rattle.mig_schema.specs.Typed as typing;
ghost use Rattle.mig_typing.specs.Seen.{assigns};

use crate::pieces::Written;
use mig_base::Seq;
use mig_schema::{Assign, Cmp, Function, Item, Kind, Op, Scalar, Schema, kind_of, same_kind};

/// What may be wrong with a comparison.
pub(crate) trait CmpTest {
    ghost use Rattle.std.specs.Prelude.{Bool};
    ghost use Rattle.mig_schema.specs.declared.programs.Cmp.{Cmp};

    ghost wrong: { Self → Cmp → Bool };

    /// Whether it is.
    fn is_wrong(&self, cmp: &Cmp) -> bool
        ensures { result ≡ wrong self.now cmp.now };
}

/// A side names no parameter.
#[derive(Clone, Copy)]
pub(crate) struct NoParam<'a> {
    pub(crate) function: &'a Function,
}

impl CmpTest for NoParam<'_> {
    ghost wrong = { λ test c. list_any (typing.names_no_param test.function.now) (typing.item_scalars c.left) || list_any (typing.names_no_param test.function.now) (typing.item_scalars c.right) };

    fn is_wrong(&self, cmp: &Cmp) -> bool {
        side_names_none(self.function, &cmp.left) || side_names_none(self.function, &cmp.right)
    }
}

/// The sides have different kinds.
#[derive(Clone, Copy)]
pub(crate) struct KindsDiffer<'a> {
    pub(crate) schema: &'a Schema,
    pub(crate) function: &'a Function,
}

impl CmpTest for KindsDiffer<'_> {
    ghost wrong = { λ test c. not (spec_same_kind (typing.item_kind test.schema.now test.function.now c.left) (typing.item_kind test.schema.now test.function.now c.right)) };

    fn is_wrong(&self, cmp: &Cmp) -> bool {
        let left = item_kind(self.schema, self.function, &cmp.left);
        let right = item_kind(self.schema, self.function, &cmp.right);
        !same_kind(left, right)
    }
}

/// An order compares texts or keys.
#[derive(Clone, Copy)]
pub(crate) struct OrdersOthers<'a> {
    pub(crate) schema: &'a Schema,
    pub(crate) function: &'a Function,
}

impl CmpTest for OrdersOthers<'_> {
    ghost wrong = { λ test c. typing.is_order c.op && not (spec_same_kind (typing.item_kind test.schema.now test.function.now c.left) Int && spec_same_kind (typing.item_kind test.schema.now test.function.now c.right) Int) };

    fn is_wrong(&self, cmp: &Cmp) -> bool {
        let left = item_kind(self.schema, self.function, &cmp.left);
        let right = item_kind(self.schema, self.function, &cmp.right);
        is_order(cmp.op) && !(same_kind(left, Kind::Int) && same_kind(right, Kind::Int))
    }
}

/// Whether an operator asks for an order.
fn is_order(op: Op) -> bool
    ensures { result ≡ typing.is_order op }
{
    match op {
        Op::Eq | Op::Ne => false,
        Op::Lt | Op::Le | Op::Gt | Op::Ge => true,
    }
}

/// Whether a scalar names no parameter of the function.
fn names_no_param(function: &Function, value: &Scalar) -> bool
    ensures { result ≡ typing.names_no_param function.now value.now }
{
    match value {
        Scalar::Param(p) => function.params.len() <= *p as usize,
        _ => false,
    }
}

/// Whether a side of a comparison is a scalar that names no parameter.
fn side_names_none(function: &Function, item: &Item) -> bool
    ensures { result ≡ list_any (typing.names_no_param function.now) (typing.item_scalars item.now) }
{
    match item {
        Item::Col(_) => false,
        Item::Scalar(value) => names_no_param(function, value),
    }
}

/// The kind of a scalar. A parameter that is not there is an int, a fresh key a key.
fn scalar_kind(function: &Function, value: &Scalar) -> Kind
    ensures { result ≡ typing.scalar_kind function.now value.now }
{
    match value {
        Scalar::Param(p) => match function.params.get(*p as usize) {
            Some(param) => param.kind,
            None => Kind::Int,
        },
        Scalar::Int(_) => Kind::Int,
        Scalar::Text(_) => Kind::Text,
        Scalar::Fresh(_) => Kind::Key,
    }
}

/// The kind of a side of a comparison.
fn item_kind(schema: &Schema, function: &Function, item: &Item) -> Kind
    ensures { result ≡ typing.item_kind schema.now function.now item.now }
{
    match item {
        Item::Col(column) => kind_of(schema, *column),
        Item::Scalar(value) => scalar_kind(function, value),
    }
}

/// Whether a comparison of a case is wrong.
fn any_in_case<T: CmpTest>(test: &T, case: &[Cmp]) -> bool
    ensures { result ≡ list_any (T.wrong test.now) case.now }
{
    case.iter().any(|c| test.is_wrong(c))
}

/// Whether a comparison of a condition is wrong.
pub(crate) fn any_cmp<T: CmpTest>(test: &T, cases: &[Seq<Cmp>]) -> bool
    ensures { result ≡ list_any (λ case. list_any (T.wrong test.now) case) cases.now }
{
    cases.iter().any(|case| any_in_case(test, case.as_slice()))
}

/// Whether one of these values names no parameter.
fn any_value_names_none(function: &Function, values: &[Assign]) -> bool
    ensures { result ≡ list_any (λ a. typing.names_no_param function.now a.value) values.now }
{
    values.iter().any(|a| names_no_param(function, &a.value))
}

/// Whether a written value names no parameter.
pub(crate) fn written_names_none(function: &Function, written: Written) -> bool
    ensures { result ≡ list_any (λ a. typing.names_no_param function.now a.value) (assigns written.entry) }
{
    match written {
        Written::Values(values) => any_value_names_none(function, values),
        Written::Set(_, value) => names_no_param(function, value),
    }
}

/// Whether one of these values is of another kind than its column.
fn any_value_differs(schema: &Schema, function: &Function, values: &[Assign]) -> bool
    ensures { result ≡ list_any (λ a. not (spec_same_kind (spec_kind_of schema.now a.column) (typing.scalar_kind function.now a.value))) values.now }
{
    values.iter().any(|a| {
        let kind = kind_of(schema, a.column);
        !same_kind(kind, scalar_kind(function, &a.value))
    })
}

/// Whether a written value is of another kind than its column.
pub(crate) fn written_differs(schema: &Schema, function: &Function, written: Written) -> bool
    ensures { result ≡ list_any (λ a. not (spec_same_kind (spec_kind_of schema.now a.column) (typing.scalar_kind function.now a.value))) (assigns written.entry) }
{
    match written {
        Written::Values(values) => any_value_differs(schema, function, values),
        Written::Set(column, value) => {
            !same_kind(kind_of(schema, column), scalar_kind(function, value))
        }
    }
}
