// Which join rows meet a condition.
ghost use Rattle.std.specs.Prelude.{◌≡◌, filter, IfOk};
ghost use Rattle.mig_schema.specs.Joins as joins;
ghost use Rattle.mig_meaning.specs.Conditions as spec;
ghost use Rattle.mig_meaning.specs.Told.{given_told};

use crate::given::{Given, scalar_value};
use crate::rows::{JoinRow, column_in, join_rows};
use crate::states::{Placed, State};
use crate::values::compares;
use mig_base::Seq;
use mig_schema::{Cmp, Cond, Item, Join, Value};
use std::alloc::{AllocError, Global};

/// The value of one side of a comparison.
fn item_value(
    alloc: Global,
    given: &Given<'_>,
    tables: &[u32],
    row: &[Placed],
    item: &Item,
) -> Result<Value, AllocError>
    ensures { IfOk result (λ v. v ≡ spec.item_value (given_told given.now) tables.now row.now item.now) }
{
    match item {
        Item::Col(c) => column_in(alloc, tables, row, *c),
        Item::Scalar(s) => scalar_value(alloc, given, s),
    }
}

/// Whether a comparison is true at a join row.
fn cmp_true(
    alloc: Global,
    given: &Given<'_>,
    tables: &[u32],
    row: &[Placed],
    cmp: &Cmp,
) -> Result<bool, AllocError>
    ensures { IfOk result (λ b. b ≡ spec.cmp_true (given_told given.now) tables.now row.now cmp.now) }
{
    let left = item_value(alloc, given, tables, row, &cmp.left)?;
    let right = item_value(alloc, given, tables, row, &cmp.right)?;
    Ok(compares(cmp.op, &left, &right))
}

/// Whether all comparisons of a case are true.
fn case_true(
    alloc: Global,
    given: &Given<'_>,
    tables: &[u32],
    row: &[Placed],
    case: &[Cmp],
) -> Result<bool, AllocError>
    ensures { IfOk result (λ b. b ≡ spec.case_true (given_told given.now) tables.now row.now case.now) }
{
    match case {
        [] => Ok(true),
        [cmp, more @ ..] => Ok(
            cmp_true(alloc, given, tables, row, cmp)?
                && case_true(alloc, given, tables, row, more)?,
        ),
    }
}

/// Whether some case of a condition is true.
fn cases_true(
    alloc: Global,
    given: &Given<'_>,
    tables: &[u32],
    row: &[Placed],
    cases: &[Seq<Cmp>],
) -> Result<bool, AllocError>
    ensures { IfOk result (λ b. b ≡ spec.cases_true (given_told given.now) tables.now row.now cases.now) }
{
    match cases {
        [] => Ok(false),
        [case, more @ ..] => Ok(
            case_true(alloc, given, tables, row, case.as_slice())?
                || cases_true(alloc, given, tables, row, more)?,
        ),
    }
}

/// Those of these join rows that meet a condition, in order.
pub fn those_met(
    alloc: Global,
    given: &Given<'_>,
    tables: &[u32],
    cases: &[Seq<Cmp>],
    rows: Vec<JoinRow>,
) -> Result<Vec<JoinRow>, AllocError>
    ensures { IfOk result (λ v. v.items ≡ filter (λ e. spec.cases_true (given_told given.now) tables.now e cases.now) rows.items) }
{
    let mut met = Vec::new(alloc);
    for row in rows {
        if cases_true(alloc, given, tables, row.as_slice(), cases)? {
            met.push(row)?;
        }
    }
    Ok(met)
}

/// The join rows that meet a condition, in product order. `tables` are those of the join.
pub(crate) fn met_rows(
    alloc: Global,
    given: &Given<'_>,
    state: &State,
    join: &Join,
    tables: &[u32],
    cond: &Cond,
) -> Result<Vec<JoinRow>, AllocError>
    requires { tables.now ≡ joins.tables_of join.now }
    ensures { IfOk result (λ v. v.items ≡ spec.met_rows (given_told given.now) state.now join.now cond.now.cases) }
{
    let rows = join_rows(alloc, state, join, tables)?;
    those_met(alloc, given, tables, cond.cases.as_slice(), rows)
}
