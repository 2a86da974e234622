// Steps by the rules on literals, worked out by hand.
use crate::steps::{SAME_TABLE, first_astray, first_followed};
use std::test::Fail;

/// Steps, the expressions that they are made on, and those that they lead to.
const FOLLOW: [(&str, &str, &str); 8] = [
    ("dead 0 -", "o0 1=0.0 2=0.0 -> 0.1; -> p0", "-> p0"),
    (
        "same 0 -",
        "o0 0.0=0.1 5=0.1 0.0<p1 any( o0 1.0=0.1 ) -> 0.1",
        "o0 5=0.0 5=0.1 5<p1 any( o0 5=1.0 ) -> 5",
    ),
    (
        "implied 0 1",
        "o0 0.0=0.1 0.0<=0.1 -> 0.0",
        "o0 0.0=0.1 -> 0.0",
    ),
    ("lift 0 0", "o0 any( p0=0.0 0.1<7 )", "o0 p0=0.0 0.1<7"),
    (
        "split 0 0",
        "o0 none( 1=0.0 0.1<7 )",
        "o0 1<>0.0; o0 1=0.0 7<=0.1",
    ),
    ("never 0 1", "o0 1=0.0 none( o0 0.0=1.0 2=1.0 )", "o0 1=0.0"),
    ("never 0 1", "o0 1=0.0 any( o0 0.0=1.0 2=1.0 )", ""),
    (
        "rejoin 0 - 1 1",
        "o0 1=0.0 0.1<7 -> 0.1; o0 1=0.0 7<=0.1 -> 0.1",
        "o0 1=0.0 -> 0.1",
    ),
];

#[test]
fn literals_go_as_by_hand(rt: HostRuntime) -> Result<(), Fail> {
    assert_eq!(rt; first_astray(rt.alloc(), SAME_TABLE, &FOLLOW)?, "");
    Ok(())
}

/// What is wrong with a step, the step, and the expression that it doesn't follow from.
const REFUSED: [(&str, &str, &str); 14] = [
    ("two arguments may be equal", "dead 0 -", "o0 p0=0.0 p1=0.0"),
    (
        "a body contradicts itself",
        "dead 0 -",
        "o0 none( 1=0.0 2=0.0 )",
    ),
    ("nothing changes", "same 0 -", "o0 5=0.0 5=0.1 5<p1 -> 5"),
    ("an argument too many", "same 0 - 0", "o0 0.0=0.1 5=0.1"),
    ("not given", "implied 0 0", "o0 0.0=0.1 0.0<=0.1"),
    (
        "the repeated one comes later",
        "implied 0 0",
        "o0 o0 0~1 0~1",
    ),
    ("a body that is not held", "lift 0 0", "o0 none( p0=0.0 )"),
    ("a body with a variable", "lift 0 0", "any( o0 p0=0.0 )"),
    (
        "different rows have no complement",
        "split 0 0",
        "o0 o0 none( 0~1 )",
    ),
    ("a body that is held", "split 0 0", "o0 any( 1=0.0 0.1<7 )"),
    (
        "a body that may be met",
        "never 0 1",
        "o0 1=0.0 none( o0 0.0=1.0 )",
    ),
    ("no body", "never 0 0", "o0 1=0.0 2=0.0"),
    ("no complements", "rejoin 0 - 1 0", "o0 0.1<7; o0 0.1<=7"),
    (
        "the later term first",
        "rejoin 1 - 0 0",
        "o0 0.1<7; o0 7<=0.1",
    ),
];

#[test]
fn other_literals_stay(rt: HostRuntime) -> Result<(), Fail> {
    assert_eq!(rt; first_followed(rt.alloc(), SAME_TABLE, &REFUSED)?, "");
    Ok(())
}
