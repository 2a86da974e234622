// First models against a listing of all assignments: formulas over three variables with up to three clauses of up to two literals.
use crate::listed::{ALL, is_listed, meets_all, put_clause};
use mig_base::Seq;
use mig_sat::{Cnf, solve};
use std::alloc::{AllocError, Global};
use std::test::Fail;

/// The formula of a number below 44 * 44 * 44.
fn formula(alloc: Global, number: usize) -> Result<Cnf, AllocError> {
    let mut clauses = Seq::new(alloc);
    put_clause(&mut clauses, alloc, number % 44)?;
    put_clause(&mut clauses, alloc, number / 44 % 44)?;
    put_clause(&mut clauses, alloc, number / 1936)?;
    Ok(Cnf { vars: 3, clauses })
}

/// Whether the numbers of the formula's clauses don't fall: of formulas with the same clauses one is tried.
fn is_sorted(number: usize) -> bool {
    number % 44 <= number / 44 % 44 && number / 44 % 44 <= number / 1936
}

/// Whether the first model of a formula is the first assignment that meets its clauses.
fn is_as_listed(alloc: Global, number: usize) -> Result<bool, AllocError> {
    let cnf = formula(alloc, number)?;
    if !cnf.is_in_range() {
        return Ok(false);
    }
    let model = solve(alloc, &cnf)?;
    let clauses = cnf.clauses.as_slice();
    let first = ALL
        .iter()
        .find(|values| meets_all(values.as_slice(), clauses));
    Ok(is_listed(&model, first.map(|values| values.as_slice())))
}

#[test]
fn first_models_are_as_listed(rt: HostRuntime) -> Result<(), Fail> {
    for number in 0..85184 {
        if is_sorted(number) {
            assert!(rt; is_as_listed(rt.alloc(), number)?, "formula {number}");
        }
    }
    Ok(())
}
