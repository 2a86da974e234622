// Small clauses by number, all assignments in order, and what an assignment meets.
use mig_base::Seq;
use mig_sat::{Model, SatLit};
use std::alloc::{AllocError, Global};

/// All assignments of three variables, in order.
pub(crate) const ALL: [[bool; 3]; 8] = [
    [true, true, true],
    [true, true, false],
    [true, false, true],
    [true, false, false],
    [false, true, true],
    [false, true, false],
    [false, false, true],
    [false, false, false],
];

/// A literal by its number: each variable, and then its negation.
fn lit(number: usize) -> SatLit {
    let var = match number / 2 {
        0 => 0,
        1 => 1,
        _ => 2,
    };
    SatLit {
        var,
        positive: number % 2 == 0,
    }
}

/// The clause of a number: the empty one, six with one literal, 36 with two.
fn clause_of(alloc: Global, number: usize) -> Result<Seq<SatLit>, AllocError> {
    let mut clause = Seq::new(alloc);
    if number >= 7 {
        clause.push(lit((number - 7) / 6))?;
    }
    if number >= 1 {
        clause.push(lit((number - 1) % 6))?;
    }
    Ok(clause)
}

/// Puts the clause of a number at the end; nothing for 43.
pub(crate) fn put_clause(
    clauses: &mut Seq<Seq<SatLit>>,
    alloc: Global,
    number: usize,
) -> Result<(), AllocError> {
    if number >= 43 {
        return Ok(());
    }
    clauses.push(clause_of(alloc, number)?)
}

/// Whether the values make a literal of the clause true.
fn meets(values: &[bool], clause: &[SatLit]) -> bool {
    clause
        .iter()
        .any(|lit| values.get(lit.var as usize) == Some(&lit.positive))
}

/// Whether the values make a literal of each clause true.
pub(crate) fn meets_all(values: &[bool], clauses: &[Seq<SatLit>]) -> bool {
    clauses
        .iter()
        .all(|clause| meets(values, clause.as_slice()))
}

/// Whether the values are those of the model, or there is neither.
pub(crate) fn is_listed(model: &Option<Model>, values: Option<&[bool]>) -> bool {
    match (model, values) {
        (Some(model), Some(values)) => model.values.as_slice() == values,
        (None, None) => true,
        _ => false,
    }
}

/// Whether digits tell the values, 1 where one is true.
fn are_told(values: &[bool], digits: &[u8]) -> bool {
    if values.len() != digits.len() {
        return false;
    }
    for (value, digit) in values.iter().zip(digits) {
        if *value != (*digit == b'1') {
            return false;
        }
    }
    true
}

/// Whether a text tells the model, by a digit for each variable, or that there is `none`.
pub(crate) fn is_told(model: &Option<Model>, text: &str) -> bool {
    match model {
        None => text == "none",
        Some(model) => are_told(model.values.as_slice(), text.as_bytes()),
    }
}
