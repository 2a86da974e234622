// Heaviest models against a listing of all assignments: problems over three variables with up to two clauses of up to two literals.
use crate::listed::{ALL, is_listed, meets_all, put_clause};
use mig_base::Seq;
use mig_maxsat::{Weighted, best};
use mig_sat::Cnf;
use std::alloc::{AllocError, Global};
use std::test::Fail;

/// The weights that are tried.
const WEIGHTS: [[i64; 3]; 8] = [
    [0, 0, 0],
    [1, 1, 1],
    [-1, -1, -1],
    [1, -1, 0],
    [-1, 0, 1],
    [0, 1, -1],
    [2, -1, -1],
    [-2, 1, 1],
];

/// The problem of these weights and of a number below 44 * 44.
fn numbered(alloc: Global, weights: &[i64], number: usize) -> Result<Weighted, AllocError> {
    let mut clauses = Seq::new(alloc);
    put_clause(&mut clauses, alloc, number % 44)?;
    put_clause(&mut clauses, alloc, number / 44)?;
    Ok(Weighted {
        hard: Cnf { vars: 3, clauses },
        weights: Seq::from_slice(alloc, weights)?,
    })
}

/// What the true ones weigh.
fn weight_of(values: &[bool], weights: &[i64]) -> i64 {
    let mut sum: i64 = 0;
    for (value, weight) in values.iter().zip(weights) {
        if *value {
            sum = sum.saturating_add(*weight);
        }
    }
    sum
}

/// The first of the heaviest assignments that meet the clauses.
fn listed(problem: &Weighted) -> Option<&'static [bool]> {
    let mut heaviest: Option<&'static [bool]> = None;
    let weights = problem.weights.as_slice();
    for values in &ALL {
        let new = values.as_slice();
        let is_heavier = match heaviest {
            None => true,
            Some(old) => weight_of(old, weights) < weight_of(new, weights),
        };
        if is_heavier && meets_all(new, problem.hard.clauses.as_slice()) {
            heaviest = Some(new);
        }
    }
    heaviest
}

/// Whether the heaviest model of a problem is the one that is listed.
fn is_as_listed(alloc: Global, weights: &[i64], number: usize) -> Result<bool, AllocError> {
    let problem = numbered(alloc, weights, number)?;
    if !problem.is_sound() {
        return Ok(false);
    }
    let model = best(alloc, &problem)?;
    Ok(is_listed(&model, listed(&problem)))
}

#[test]
fn heaviest_models_are_as_listed(rt: HostRuntime) -> Result<(), Fail> {
    for number in 0..1936 {
        if number % 44 <= number / 44 {
            for weights in &WEIGHTS {
                let is = is_as_listed(rt.alloc(), weights.as_slice(), number)?;
                assert!(rt; is, "problem {number}");
            }
        }
    }
    Ok(())
}
