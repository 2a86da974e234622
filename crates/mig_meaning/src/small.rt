// Runs on states in memory, by the definitions: plain and slow. Faster bodies are compared with these.
ghost use Rattle.std.specs.Prelude.{◌≡◌, map, take, drop, IfOk};
ghost use Rattle.mig_meaning.specs.Conditions as conditions;
ghost use Rattle.mig_meaning.specs.Effect as effects;
ghost use Rattle.mig_meaning.specs.Run as spec;
ghost use Rattle.mig_schema.specs.Joins as joins;
ghost use Rattle.mig_meaning.specs.Told.{given_told, rows_told, reply_told, outcome_told};

use crate::calling::{Answer, Calls, Invocation, Keys, Reply};
use crate::conditions::met_rows;
use crate::deleting::without_rows;
use crate::given::{Given, scalar_value};
use crate::inserting::with_rows;
use crate::selecting::all_selected;
use crate::setting::with_set;
use crate::states::State;
use mig_base::{Exact, Seq};
use mig_schema::{Body, ColId, Cond, Join, Program, Query, Scalar, Schema, Stmt, tables_of};
use std::alloc::{AllocError, Global};

/// What a call leaves and what it answers.
#[derive(Debug, Drop)]
pub struct Outcome {
    /// The state after the call.
    pub state: State,
    /// `Done` of an update, the rows of a query.
    pub reply: Reply,
}

/// The state without the rows of the listed tables that take part in a join row which meets the condition.
fn delete(
    alloc: Global,
    given: &Given<'_>,
    listed: &[u32],
    join: &Join,
    cond: &Cond,
    state: &State,
) -> Result<State, AllocError>
    ensures { IfOk result (λ s. s ≡ effects.without_rows (joins.tables_of join.now) (conditions.met_rows (given_told given.now) state.now join.now cond.now.cases) listed.now state.now) }
{
    let tables = tables_of(alloc, join)?;
    let met = met_rows(alloc, given, state, join, tables.as_slice(), cond)?;
    without_rows(alloc, tables.as_slice(), met.as_slice(), listed, state)
}

/// The state with a value in the column of each row that takes part in a join row which meets the condition.
fn set(
    alloc: Global,
    given: &Given<'_>,
    column: ColId,
    scalar: &Scalar,
    join: &Join,
    cond: &Cond,
    state: &State,
) -> Result<State, AllocError>
    ensures { IfOk result (λ s. s ≡ effects.with_set (joins.tables_of join.now) (conditions.met_rows (given_told given.now) state.now join.now cond.now.cases) column (conditions.scalar_value (given_told given.now) scalar.now) state.now) }
{
    let tables = tables_of(alloc, join)?;
    let met = met_rows(alloc, given, state, join, tables.as_slice(), cond)?;
    let value = scalar_value(alloc, given, scalar)?;
    with_set(
        alloc,
        tables.as_slice(),
        met.as_slice(),
        column,
        &value,
        state,
    )
}

/// The state after a statement, which reads the state at its start.
fn effect(
    alloc: Global,
    schema: &Schema,
    given: &Given<'_>,
    stmt: &Stmt,
    state: &State,
) -> Result<State, AllocError>
    ensures { IfOk result (λ s. s ≡ effects.effect schema.now (given_told given.now) stmt.now state.now) }
{
    match stmt {
        Stmt::Insert { join, values } => {
            let tables = tables_of(alloc, join)?;
            with_rows(
                alloc,
                schema,
                given,
                join.more.as_slice(),
                values.as_slice(),
                tables.as_slice(),
                state,
            )
        }
        Stmt::Delete { tables, join, cond } => {
            delete(alloc, given, tables.as_slice(), join, cond, state)
        }
        Stmt::Set {
            column,
            value,
            join,
            cond,
        } => set(alloc, given, *column, value, join, cond, state),
    }
}

/// The state after these statements, in order.
fn after_all(
    alloc: Global,
    schema: &Schema,
    given: &Given<'_>,
    stmts: &[Stmt],
    state: &State,
) -> Result<State, AllocError>
    ensures { IfOk result (λ s. s ≡ effects.after_all schema.now (given_told given.now) stmts.now state.now) }
{
    match stmts {
        [] => state.twin(alloc),
        [stmt, more @ ..] => {
            let next = effect(alloc, schema, given, stmt, state)?;
            after_all(alloc, schema, given, more, &next)
        }
    }
}

/// The answer of a query: the selected columns of each join row that meets the condition.
fn answer(
    alloc: Global,
    given: &Given<'_>,
    query: &Query,
    state: &State,
) -> Result<Answer, AllocError>
    ensures { IfOk result (λ a. rows_told a.rows ≡ effects.answer (given_told given.now) query.now state.now) }
{
    let tables = tables_of(alloc, &query.join)?;
    let met = met_rows(
        alloc,
        given,
        state,
        &query.join,
        tables.as_slice(),
        &query.cond,
    )?;
    all_selected(
        alloc,
        tables.as_slice(),
        met.as_slice(),
        query.columns.as_slice(),
    )
}

/// What a function leaves and answers.
fn body_outcome(
    alloc: Global,
    schema: &Schema,
    given: &Given<'_>,
    body: &Body,
    state: &State,
) -> Result<Outcome, AllocError>
    ensures state { IfOk result (λ o. o.state ≡ effects.after schema.now (given_told given.now) body.now state.now) }
    ensures reply { IfOk result (λ o. reply_told o.reply ≡ effects.reply (given_told given.now) body.now state.now) }
{
    match body {
        Body::Update(stmts) => Ok(Outcome {
            state: after_all(alloc, schema, given, stmts.as_slice(), state)?,
            reply: Reply::Done,
        }),
        Body::Query(query) => Ok(Outcome {
            reply: Reply::Rows(answer(alloc, given, query, state)?),
            state: state.twin(alloc)?,
        }),
    }
}

/// What a call leaves and answers with these keys. A function that is not there is an update that does nothing.
fn called(
    alloc: Global,
    schema: &Schema,
    program: &Program,
    call: &Invocation,
    keys: &[u64],
    state: &State,
) -> Result<Outcome, AllocError>
    ensures { IfOk result (λ o. outcome_told o ≡ spec.called schema.now program.now call.now keys.now state.now) }
{
    let keys = Keys {
        keys: Seq::from_slice(alloc, keys)?,
    };
    let given = Given {
        args: &call.args,
        keys: &keys,
    };
    match program.functions.get(call.function as usize) {
        Some(function) => body_outcome(alloc, schema, &given, &function.body, state),
        None => Ok(Outcome {
            state: state.twin(alloc)?,
            reply: Reply::Done,
        }),
    }
}

/// The keys of the next call: the first 16, or what is left.
fn next_keys(supply: &[u64]) -> (&[u64], &[u64])
    ensures now { result.0.now ≡ take 16 supply.now }
    ensures later { result.1.now ≡ drop 16 supply.now }
{
    if supply.len() < 16 {
        (supply, &[])
    } else {
        (&supply[..16], &supply[16..])
    }
}

/// What each of these calls leaves and answers, in order, from a state. Each call has the next 16 keys of the supply, or what is left of it; a call of a function that is not there does nothing. The only error is want of memory, as which ids and numbers count that pass their range.
pub fn run_small(
    alloc: Global,
    schema: &Schema,
    program: &Program,
    start: &State,
    calls: &Calls,
    supply: &Keys,
) -> Result<Seq<Outcome>, AllocError>
    ensures { IfOk result (λ os. map outcome_told os ≡ spec.run schema.now program.now start.now calls.now.calls supply.now.keys) }
{
    let mut state = start.twin(alloc)?;
    let mut rest = supply.keys.as_slice();
    let mut outcomes = Seq::new(alloc);
    for call in calls.calls.as_slice() {
        let (keys, later) = next_keys(rest);
        let outcome = called(alloc, schema, program, call, keys, &state)?;
        state = outcome.state.twin(alloc)?;
        rest = later;
        outcomes.push(outcome)?;
    }
    Ok(outcomes)
}
