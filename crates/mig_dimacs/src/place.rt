// The places of a text, and which numbers may come there.
ghost use Rattle.std.specs.Prelude.{◌≡◌};
ghost use Rattle.std.specs.List.{list_all};
ghost use Rattle.mig_dimacs.specs.Texts as spec;
ghost use Rattle.mig_dimacs.specs.Reading as read;

use crate::text::Head;
use crate::token::{Number, Token};

/// What soft clauses must cost less than together: 2^62.
const LIMIT: u64 = 4_611_686_018_427_387_904;

/// Where in a text a reader is.
#[derive(Debug, Clone, Copy, PartialEq, Eq)]
pub enum Place {
    /// Before all. In each place of the header the `bool` says whether clauses have weights.
    Start(bool),
    /// Behind `p`.
    Problem(bool),
    /// Behind `cnf` or `wcnf`.
    Kind(bool),
    /// Behind the number of variables.
    Vars(bool, u32),
    /// Behind the number of variables and that of clauses, where a top follows.
    Count(u32, u64),
    /// Behind the header.
    Clauses(Head),
    /// Behind the end.
    Ended(Head),
}

/// The place behind the number of clauses.
fn behind_count(weighted: bool, vars: u32, count: u64) -> Place
    ensures { result ≡ read.behind_count weighted vars count }
{
    if weighted {
        Place::Count(vars, count)
    } else {
        Place::Clauses(Head {
            vars,
            top: None,
            count,
        })
    }
}

/// The place in the header behind a number; `None` where none goes on so.
fn next_number(place: Place, number: Number) -> Option<Place>
    ensures { result ≡ read.next_number place number }
{
    if number.negative {
        return None;
    }
    match place {
        Place::Kind(weighted) if number.size < 4_294_967_296 => {
            Some(Place::Vars(weighted, number.size as u32))
        }
        Place::Vars(weighted, vars) => Some(behind_count(weighted, vars, number.size)),
        Place::Count(vars, count) if number.size > 0 => Some(Place::Clauses(Head {
            vars,
            top: Some(number.size),
            count,
        })),
        _ => None,
    }
}

/// The place in the header behind a token; `None` where none goes on so.
pub fn next_place(place: Place, token: Token) -> Option<Place>
    ensures { result ≡ read.next_place place token }
{
    match token {
        Token::Problem => match place {
            Place::Start(weighted) => Some(Place::Problem(weighted)),
            _ => None,
        },
        Token::Plain => match place {
            Place::Problem(weighted) if !weighted => Some(Place::Kind(false)),
            _ => None,
        },
        Token::Weighted => match place {
            Place::Problem(weighted) if weighted => Some(Place::Kind(true)),
            _ => None,
        },
        Token::Number(number) => next_number(place, number),
        _ => None,
    }
}

/// Whether it is a literal of one of so many variables.
fn is_lit(vars: u32, number: Number) -> bool
    ensures { result ≡ spec.is_lit vars number }
{
    0 < number.size && number.size <= u64::from(vars)
}

/// Whether all are.
fn are_lits(vars: u32, numbers: &[Number]) -> bool
    ensures { result ≡ list_all (spec.is_lit vars) numbers.now }
{
    numbers.iter().all(|number| is_lit(vars, *number))
}

/// Whether it is a weight from 1 to the top.
fn is_weight(top: u64, number: Number) -> bool
    ensures { result ≡ spec.is_weight top number }
{
    !number.negative && 0 < number.size && number.size <= top
}

/// Whether these are a clause under the header.
pub fn is_clause(head: Head, numbers: &[Number]) -> bool
    ensures { result ≡ spec.is_clause head numbers.now }
{
    match (head.top, numbers) {
        (None, _) => are_lits(head.vars, numbers),
        (Some(_), []) => false,
        (Some(top), [weight, lits @ ..]) => {
            is_weight(top, *weight)
                && are_lits(head.vars, lits)
                && (weight.size == top || lits.len() == 1)
        }
    }
}

/// Whether a clause can go on with the number.
pub fn may_come(head: Head, before: &[Number], number: Number) -> bool
    ensures { result ≡ read.may_come head.top head.vars before.now number }
{
    match (head.top, before) {
        (None, _) => is_lit(head.vars, number),
        (Some(top), []) => is_weight(top, number) && (number.size == top || 0 < head.vars),
        (Some(top), [weight, lits @ ..]) => {
            is_lit(head.vars, number) && (weight.size == top || lits.is_empty())
        }
    }
}

/// What soft clauses cost more by a number behind those before it.
fn more_soft(top: Option<u64>, before: &[Number], number: Number) -> u64
    ensures { result ≡ read.more_soft top before.now number }
{
    match top {
        Some(top) if before.is_empty() && number.size != top => number.size,
        _ => 0,
    }
}

/// What soft clauses cost behind one more number; `None` where that is too much.
pub fn next_soft(top: Option<u64>, soft: u64, before: &[Number], number: Number) -> Option<u64>
    ensures { result ≡ read.next_soft top soft before.now number }
{
    match soft.checked_add(more_soft(top, before, number)) {
        Some(sum) if sum < LIMIT => Some(sum),
        _ => None,
    }
}
