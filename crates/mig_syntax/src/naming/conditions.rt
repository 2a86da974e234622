// Joins, scalars and conditions with numbers.
ghost use Rattle.std.specs.Prelude.{◌≡◌, IfOk, map};
ghost use Rattle.mig_syntax.specs.Naming as spec;

use crate::naming::places::{col_of, param_of, table_of};
use mig_base::{Exact, Seq};
use mig_grammar::{CmpTree, ItemTree, JoinTree, JoinedTree, ScalarTree, ValueTree};
use mig_schema::{Cmp, Cond, Item, Join, Joined, Param, Scalar, Table};
use mig_tokens::{int_of, label_of};
use std::alloc::{AllocError, Global};

/// A scalar with numbers.
pub(crate) fn scalar_of(
    alloc: Global,
    params: &[Param],
    scalar: &ScalarTree,
) -> Result<Scalar, AllocError>
    ensures { IfOk result (λ x. x ≡ spec.scalar_of params.now scalar.now) }
{
    match scalar {
        ScalarTree::Name(name) => Ok(Scalar::Param(param_of(params, name))),
        ScalarTree::Int(int) => Ok(Scalar::Int(int_of(int.as_slice()))),
        ScalarTree::Text(text) => Ok(Scalar::Text(text.twin(alloc)?)),
    }
}

/// A value with numbers.
pub(crate) fn value_of(
    alloc: Global,
    params: &[Param],
    value: &ValueTree,
) -> Result<Scalar, AllocError>
    ensures { IfOk result (λ x. x ≡ spec.value_of params.now value.now) }
{
    match value {
        ValueTree::Scalar(scalar) => scalar_of(alloc, params, scalar),
        ValueTree::Fresh(label) => Ok(Scalar::Fresh(label_of(label.as_slice()))),
    }
}

/// A side of a comparison with numbers.
fn item_of(
    alloc: Global,
    tables: &[Table],
    params: &[Param],
    item: &ItemTree,
) -> Result<Item, AllocError>
    ensures { IfOk result (λ x. x ≡ spec.item_of tables.now params.now item.now) }
{
    match item {
        ItemTree::Col(col) => Ok(Item::Col(col_of(tables, col))),
        ItemTree::Scalar(scalar) => Ok(Item::Scalar(scalar_of(alloc, params, scalar)?)),
    }
}

/// A comparison with numbers.
fn cmp_of(
    alloc: Global,
    tables: &[Table],
    params: &[Param],
    cmp: &CmpTree,
) -> Result<Cmp, AllocError>
    ensures { IfOk result (λ c. c ≡ spec.cmp_of tables.now params.now cmp.now) }
{
    let left = item_of(alloc, tables, params, &cmp.left)?;
    let right = item_of(alloc, tables, params, &cmp.right)?;
    Ok(Cmp {
        op: cmp.op,
        left,
        right,
    })
}

/// A case with numbers.
fn case_of(
    alloc: Global,
    tables: &[Table],
    params: &[Param],
    case: &[CmpTree],
) -> Result<Seq<Cmp>, AllocError>
    ensures { IfOk result (λ c. c ≡ map (spec.cmp_of tables.now params.now) case.now) }
{
    let mut all = Vec::with_capacity(alloc, case.len())?;
    for cmp in case {
        all.push(cmp_of(alloc, tables, params, cmp)?)?;
    }
    Ok(Seq::from_vec(all))
}

/// Cases with numbers.
fn cases_of(
    alloc: Global,
    tables: &[Table],
    params: &[Param],
    cases: &[Seq<CmpTree>],
) -> Result<Vec<Seq<Cmp>>, AllocError>
    ensures { IfOk result (λ v. v.items ≡ map (λ case. map (spec.cmp_of tables.now params.now) case) cases.now) }
{
    let mut all = Vec::with_capacity(alloc, cases.len())?;
    for case in cases {
        all.push(case_of(alloc, tables, params, case.as_slice())?)?;
    }
    Ok(all)
}

/// A condition with numbers; one empty case where there is no `where`.
pub(crate) fn cond_of(
    alloc: Global,
    tables: &[Table],
    params: &[Param],
    cases: &[Seq<CmpTree>],
) -> Result<Cond, AllocError>
    ensures { IfOk result (λ c. c ≡ spec.cond_of tables.now params.now cases.now) }
{
    match cases {
        [] => {
            let mut always = Seq::new(alloc);
            always.push(Seq::new(alloc))?;
            Ok(Cond { cases: always })
        }
        [_, ..] => {
            let all = cases_of(alloc, tables, params, cases)?;
            Ok(Cond {
                cases: Seq::from_vec(all),
            })
        }
    }
}

/// A further table of a join, with numbers.
fn joined_of(tables: &[Table], joined: &JoinedTree) -> Joined
    ensures { result ≡ spec.joined_of tables.now joined.now }
{
    Joined {
        table: table_of(tables, &joined.table),
        left: col_of(tables, &joined.left),
        right: col_of(tables, &joined.right),
    }
}

/// Further tables of a join, with numbers.
fn more_of(alloc: Global, tables: &[Table], more: &[JoinedTree]) -> Result<Vec<Joined>, AllocError>
    ensures { IfOk result (λ v. v.items ≡ map (spec.joined_of tables.now) more.now) }
{
    more.iter().map(|j| joined_of(tables, j)).collect(alloc)
}

/// A join with numbers.
pub(crate) fn join_of(alloc: Global, tables: &[Table], join: &JoinTree) -> Result<Join, AllocError>
    ensures { IfOk result (λ j. j ≡ spec.join_of tables.now join.now) }
{
    let more = more_of(alloc, tables, join.more.as_slice())?;
    Ok(Join {
        first: table_of(tables, &join.first),
        more: Seq::from_vec(more),
    })
}
