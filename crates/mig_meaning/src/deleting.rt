// What a delete makes of a state.
ghost use Rattle.std.specs.Prelude.{◌≡◌, ◌==◌, cond, not, filter, IfOk};
ghost use Rattle.std.specs.List.{list_any};
ghost use Rattle.mig_meaning.specs.Effect as spec;

use crate::rows::{JoinRow, id_in};
use crate::states::{Placed, State};
use mig_base::{Exact, Seq};
use std::alloc::{AllocError, Global};

/// Whether a row of table t takes part in some of these join rows.
pub(crate) fn takes_part(tables: &[u32], met: &[JoinRow], t: usize, row: &Placed) -> bool
    ensures { result ≡ spec.takes_part tables.now met.now t row.now }
{
    met.iter().any(|e| id_in(tables, e.as_slice(), t) == row.id)
}

/// Whether table t is listed.
fn is_listed(listed: &[u32], t: usize) -> bool
    ensures { result ≡ list_any (λ u. u == t) listed.now }
{
    listed.iter().any(|u| *u as usize == t)
}

/// The rows of table t that take part in none of these join rows.
fn left_over(
    alloc: Global,
    tables: &[u32],
    met: &[JoinRow],
    t: usize,
    rows: &[Placed],
) -> Result<Seq<Placed>, AllocError>
    ensures { IfOk result (λ r. r ≡ filter (λ p. not (spec.takes_part tables.now met.now t p)) rows.now) }
{
    let mut left = Seq::new(alloc);
    for row in rows {
        if !takes_part(tables, met, t, row) {
            left.push(row.twin(alloc)?)?;
        }
    }
    Ok(left)
}

/// The rows of table t: if it is listed, those that take part in none of these join rows.
fn table_without(
    alloc: Global,
    tables: &[u32],
    met: &[JoinRow],
    listed: &[u32],
    t: usize,
    rows: &Seq<Placed>,
) -> Result<Seq<Placed>, AllocError>
    ensures { IfOk result (λ r. r ≡ cond (list_any (λ u. u == t) listed.now) (filter (λ p. not (spec.takes_part tables.now met.now t p)) rows.now) rows.now) }
{
    if is_listed(listed, t) {
        left_over(alloc, tables, met, t, rows.as_slice())
    } else {
        rows.twin(alloc)
    }
}

/// The state without the rows of the listed tables that take part in these join rows.
pub(crate) fn without_rows(
    alloc: Global,
    tables: &[u32],
    met: &[JoinRow],
    listed: &[u32],
    state: &State,
) -> Result<State, AllocError>
    ensures { IfOk result (λ s. s ≡ spec.without_rows tables.now met.now listed.now state.now) }
{
    let before = state.tables.as_slice();
    let mut after = Seq::new(alloc);
    for (n, rows) in before.iter().enumerate() {
        after.push(table_without(alloc, tables, met, listed, n, rows)?)?;
    }
    Ok(State {
        tables: after,
        next: state.next,
    })
}
