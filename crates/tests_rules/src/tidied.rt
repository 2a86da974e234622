// Tidied expressions that were worked out by hand.
use crate::expressions::sum;
use mig_algebra::{is_scoped, tidy};
use mig_base::Exact;
use std::alloc::{AllocError, Global};
use std::test::Fail;

/// What a case is called, an expression, and what it is when it is tidied.
const TIDIED: [(&str, &str, &str); 3] = [
    (
        "variables out of order, bodies two deep",
        "n0 o1 o0 none( n5 o5 any( o2 o1 6~0 5.0<3.1 ) ) 0.3=2.1 0~1 -> 0.0 p0 2.0",
        "o0 o1 n0 0.1=2.3 2~1 none( o5 n5 any( o1 o2 6.0<4.1 5~2 ) ) -> 2.0 p0 0.0",
    ),
    (
        "comparisons turned round, equal ones once",
        "o0 0.0>=1 p0>5 p1='a 5<p0 k0<>p9 'a=p1",
        "o0 'a=p1 p9<>k0 5<p0 1<=0.0",
    ),
    (
        "bodies before terms, equal terms kept",
        "any( 2=9 4=9 ); any( 3=9 1=9 ) any( 1=9 3=9 ); any( 1=9 3=9 )",
        "any( 1=9 3=9 ); any( 1=9 3=9 ); any( 2=9 4=9 )",
    ),
];

/// Whether an expression is in scope and is tidied so.
fn is_tidied(alloc: Global, given: &str, want: &str) -> Result<bool, AllocError> {
    let given = sum(alloc, given)?;
    if !is_scoped(&given) {
        return Ok(false);
    }
    let tidied = tidy(alloc, &given)?;
    Ok(tidied.same(&sum(alloc, want)?))
}

#[test]
fn tidied_as_by_hand(rt: HostRuntime) -> Result<(), Fail> {
    for (name, given, want) in TIDIED {
        let right = is_tidied(rt.alloc(), given, want)?;
        assert!(rt; right, "{name}");
    }
    Ok(())
}

#[test]
fn a_variable_of_no_body_is_out_of_scope(rt: HostRuntime) -> Result<(), Fail> {
    let expr = sum(rt.alloc(), "any( o0 1~0 ) -> 0.0")?;
    assert!(rt; !is_scoped(&expr));
    Ok(())
}
