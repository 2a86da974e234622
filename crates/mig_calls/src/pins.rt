// The rows of a join's first table that a condition may be true of.
ghost use Rattle.std.specs.Prelude.{◌≡◌, ◌≢◌, ℕ, ◌<◌, true, false, Option, Some, IfOk, IfSome, IfNone};
ghost use Rattle.mig_schema.specs.declared.values.Value.{Value as PlainValue};
ghost use Rattle.mig_schema.specs.Joins as joins;
ghost use Rattle.mig_meaning.specs.declared.states.Placed.{Placed as PlacedRow};
ghost use Rattle.mig_meaning.specs.declared.states.State.{State};
ghost use Rattle.mig_meaning.specs.Conditions as conditions;
ghost use Rattle.mig_meaning.specs.Lists.{Each};
ghost use Rattle.mig_storage.specs.Layout.{kinds_at, of_kinds};
ghost use Rattle.mig_storage.specs.Meaning.{IsSound, Keeps};
ghost use Rattle.mig_calls.specs.Fits.{CasesFit, JoinFits};
ghost use Rattle.mig_calls.specs.Joining.{IsCover};
ghost use Rattle.mig_calls.specs.Pins.{CasePins, CasesPin, IsPin};
ghost use Rattle.mig_meaning.specs.Told.{given_told};

use crate::back::first_from;
use mig_base::Seq;
use mig_meaning::{Given, Placed, scalar_value};
use mig_schema::{Cmp, ColId, Cond, Item, Join, Op, Scalar, Value};
use mig_storage::{Store, StoreFault};
use std::alloc::{AllocError, Global};

/// A column and the value that is asked of it.
#[derive(Debug, Drop)]
struct Pin {
    column: ColId,
    value: Value,
}

/// The column, if it is one of table t, with the value of the scalar.
fn pinned(
    alloc: Global,
    given: &Given<'_>,
    t: u32,
    column: ColId,
    scalar: &Scalar,
) -> Result<Option<Pin>, AllocError>
    ensures table { IfOk result (λ o. IfSome o (λ p. column.table ≡ t)) }
    ensures column { IfOk result (λ o. IfSome o (λ p. p.column ≡ column)) }
    ensures value { IfOk result (λ o. IfSome o (λ p. p.value ≡ conditions.scalar_value (given_told given.now) scalar.now)) }
    ensures none { IfOk result (λ o. IfNone o (column.table ≢ t)) }
{
    if column.table == t {
        let value = scalar_value(alloc, given, scalar)?;
        Ok(Some(Pin { column, value }))
    } else {
        Ok(None)
    }
}

/// The column of table t that the comparison asks to be equal to a value, if it does.
fn cmp_pin(alloc: Global, given: &Given<'_>, t: u32, cmp: &Cmp) -> Result<Option<Pin>, AllocError>
    ensures pin { IfOk result (λ o. IfSome o (λ p. IsPin (given_told given.now) t p.column.column p.value cmp.now)) }
    ensures table { IfOk result (λ o. IfSome o (λ p. p.column.table ≡ t)) }
    ensures none { IfOk result (λ o. IfNone o ((n : ℕ) (v : PlainValue) → IsPin (given_told given.now) t n v cmp.now → ⊥)) }
{
    if cmp.op != Op::Eq {
        return Ok(None);
    }
    match (&cmp.left, &cmp.right) {
        (Item::Col(c), Item::Scalar(x)) => pinned(alloc, given, t, *c, x),
        (Item::Scalar(x), Item::Col(c)) => pinned(alloc, given, t, *c, x),
        (Item::Col(_), Item::Col(_)) => Ok(None),
        (Item::Scalar(_), Item::Scalar(_)) => Ok(None),
    }
}

/// A column of table t that the case asks to be equal to a value, if there is one: the first comparison's that asks it.
fn case_pin(
    alloc: Global,
    given: &Given<'_>,
    t: u32,
    case: &[Cmp],
) -> Result<Option<Pin>, AllocError>
    ensures pin { IfOk result (λ o. IfSome o (λ p. CasePins (given_told given.now) t p.column.column p.value case.now)) }
    ensures table { IfOk result (λ o. IfSome o (λ p. p.column.table ≡ t)) }
    ensures none { IfOk result (λ o. IfNone o ((n : ℕ) (v : PlainValue) → CasePins (given_told given.now) t n v case.now → ⊥)) }
{
    match case {
        [] => Ok(None),
        [cmp, more @ ..] => match cmp_pin(alloc, given, t, cmp)? {
            Some(found) => Ok(Some(found)),
            None => case_pin(alloc, given, t, more),
        },
    }
}

/// A column of table t that the condition asks to be equal to a value, if it has one case and that has one.
fn cases_pin(
    alloc: Global,
    given: &Given<'_>,
    t: u32,
    cases: &[Seq<Cmp>],
) -> Result<Option<Pin>, AllocError>
    ensures pin { IfOk result (λ o. IfSome o (λ p. CasesPin (given_told given.now) t p.column.column p.value cases.now)) }
    ensures table { IfOk result (λ o. IfSome o (λ p. p.column.table ≡ t)) }
    ensures none { IfOk result (λ o. IfNone o ((n : ℕ) (v : PlainValue) → CasesPin (given_told given.now) t n v cases.now → ⊥)) }
{
    match cases {
        [case] => case_pin(alloc, given, t, case.as_slice()),
        _ => Ok(None),
    }
}

/// A column of one of these tables that the condition asks to be equal to a value, if there is one: the first such table's.
fn first_pin(
    alloc: Global,
    given: &Given<'_>,
    tables: &[u32],
    cases: &[Seq<Cmp>],
) -> Result<Option<Pin>, AllocError>
    ensures pin { IfOk result (λ o. IfSome o (λ p. CasesPin (given_told given.now) p.column.table p.column.column p.value cases.now)) }
    ensures table { IfOk result (λ o. IfSome o (λ p. joins.is_among p.column.table tables.now ≡ true)) }
    ensures none { IfOk result (λ o. IfNone o (Each (λ t. (n : ℕ) (v : PlainValue) → CasesPin (given_told given.now) t n v cases.now → ⊥) tables.now)) }
{
    match tables {
        [] => Ok(None),
        [t, more @ ..] => match cases_pin(alloc, given, *t, cases)? {
            Some(found) => Ok(Some(found)),
            None => first_pin(alloc, given, more, cases),
        },
    }
}

/// The rows of the first table that may begin a join row which meets the condition.
///
/// Where the condition asks a column to be equal to a value, its table's rows with that value are found, and from them
/// the rows of the first table that the equalities lead back to. All rows are taken where it asks none. `tables` are those
/// of the join.
pub(crate) fn first_rows<S: Store>(
    alloc: Global,
    store: &mut S,
    given: &Given<'_>,
    join: &Join,
    tables: &[u32],
    cond: &Cond,
) -> Result<Seq<Placed>, StoreFault>
    requires tables { tables.now ≡ joins.tables_of join.now }
    requires join { JoinFits (S.meaning store.old).layout join.now }
    requires cases { CasesFit (S.meaning store.old).layout (given_told given.now) (joins.tables_of join.now) cond.now.cases }
    requires whole { (S.meaning store.old).broken ≡ false }
    ensures sound { IsSound (S.meaning store.old) (S.meaning store.new) result }
    ensures keeps { Keeps (S.meaning store.old) (S.meaning store.new) }
    ensures kinds { IfOk result (λ rows. Each (λ (p : PlacedRow). of_kinds (kinds_at (S.meaning store.old).layout join.now.first) p.row.values ≡ true) rows) }
    ensures cover { IfOk result (λ rows. (s : State) → (S.meaning store.old).told ≡ Some s → IsCover (given_told given.now) s join.now cond.now.cases rows) }
{
    match first_pin(alloc, given, tables, cond.cases.as_slice())? {
        Some(pin) => {
            let at = pin.column;
            let rows = store.matching(alloc, at.table, at.column, &pin.value)?;
            first_from(alloc, store, join, at.table, rows)
        }
        None => store.rows(alloc, join.first),
    }
}
