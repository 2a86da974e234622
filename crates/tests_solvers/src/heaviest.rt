// Heaviest models that were worked out by hand.
use crate::listed::is_told;
use mig_base::{Exact, Seq};
use mig_dimacs::{ReadError, read_cnf};
use mig_maxsat::{Weighted, best};
use std::alloc::Global;
use std::test::Fail;

/// A name, clauses, and the model that is wanted; and weights, one for each variable.
const CASES: [([&str; 3], &[i64]); 14] = [
    (["no weight: the first model", "p cnf 2 0", "11"], &[0, 0]),
    (["one negative weight", "p cnf 2 0", "01"], &[-1, 0]),
    (["no variables", "p cnf 0 0", ""], &[]),
    (
        ["no variables, an empty clause", "p cnf 0 1 0", "none"],
        &[],
    ),
    (["no model", "p cnf 1 2 1 0 -1 0", "none"], &[7]),
    (
        [
            "not both: the heavier is the first",
            "p cnf 2 1 -1 -2 0",
            "10",
        ],
        &[3, 2],
    ),
    (
        [
            "not both: the heavier is the second",
            "p cnf 2 1 -1 -2 0",
            "01",
        ],
        &[2, 3],
    ),
    (
        ["not both: equally heavy", "p cnf 2 1 -1 -2 0", "10"],
        &[2, 2],
    ),
    (
        [
            "one must be paid for: the cheaper two",
            "p cnf 3 2 1 2 0 1 3 0",
            "011",
        ],
        &[-5, -2, -2],
    ),
    (
        [
            "one must be paid for: the cheaper one",
            "p cnf 3 2 1 2 0 1 3 0",
            "100",
        ],
        &[-3, -2, -2],
    ),
    (
        [
            "one must be paid for: equally cheap",
            "p cnf 3 2 1 2 0 1 3 0",
            "100",
        ],
        &[-4, -2, -2],
    ),
    (
        [
            "a gain that a loss allows",
            "p cnf 3 2 -2 1 0 -2 3 0",
            "111",
        ],
        &[-2, 5, -1],
    ),
    (
        [
            "a gain that a loss does not allow",
            "p cnf 3 2 -2 1 0 -2 3 0",
            "000",
        ],
        &[-2, 2, -1],
    ),
    (
        ["weights near the limit", "p cnf 2 1 1 -2 0", "11"],
        &[-2_305_843_009_213_693_951, 2_305_843_009_213_693_952],
    ),
];

fn problem_of(alloc: Global, text: &str, weights: &[i64]) -> Result<Weighted, ReadError> {
    let hard = read_cnf(alloc, text.as_bytes())?;
    let weights = Seq::from_slice(alloc, weights)?;
    Ok(Weighted { hard, weights })
}

/// Whether the heaviest model of a sound problem is the one that is told.
fn is_heaviest(alloc: Global, problem: &Weighted, want: &str) -> Result<bool, ReadError> {
    if !problem.is_sound() {
        return Ok(false);
    }
    let model = best(alloc, problem)?;
    Ok(is_told(&model, want))
}

#[test]
fn heaviest_models_are_as_by_hand(rt: HostRuntime) -> Result<(), Fail> {
    for ([name, text, want], weights) in &CASES {
        let problem = problem_of(rt.alloc(), text, weights)?;
        assert!(rt; is_heaviest(rt.alloc(), &problem, want)?, "{name}");
    }
    Ok(())
}

#[test]
fn a_copy_is_the_same(rt: HostRuntime) -> Result<(), Fail> {
    for ([name, text, _], weights) in &CASES {
        let problem = problem_of(rt.alloc(), text, weights)?;
        assert!(rt; problem.twin(rt.alloc())?.same(&problem), "{name}");
    }
    Ok(())
}
