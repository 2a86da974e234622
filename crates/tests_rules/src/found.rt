// Bodies that variables outside them meet, worked out by hand.
use crate::steps::{SAME_TABLE, first_astray, first_followed};
use std::test::Fail;

/// Steps, the expressions that they are made on, and those that they lead to.
const FOLLOW: [(&str, &str, &str); 8] = [
    (
        "found 0 1 0",
        "o0 p0=0.1 any( o0 p0=1.1 ) -> 0.0",
        "o0 p0=0.1 -> 0.0",
    ),
    (
        "found 0 1 0",
        "o0 p0=0.1 none( o0 p0=1.1 ) -> 0.0; -> p0",
        "-> p0",
    ),
    (
        "found 0 1 0",
        "o0 'a=0.1 any( o0@0 'a=1.1 1.1<>'b )",
        "o0 'a=0.1",
    ),
    ("found 0 1 1", "o0 o0 0~1 any( o0 0~2 )", "o0 o0 0~1"),
    (
        "found 0 2 1 0",
        "o0 o1 0.0=1.0 p0=0.1 any( o1 o0 3.0=2.0 p0=3.1 )",
        "o0 o1 0.0=1.0 p0=0.1",
    ),
    ("found 0 0", "o0 any( ) -> 0.0", "o0 -> 0.0"),
    (
        "found 0 2.0 0",
        "o0 1=0.0 none( o1 0.0=1.0 ) none( o1 any( o0 1=2.0 none( o1 2.0=3.0 ) ) )",
        "o0 1=0.0 none( o1 0.0=1.0 ) none( o1 )",
    ),
    (
        "found 0 1.1.0 1",
        "o0 1=0.0 any( o0 2=1.0 any( o1 any( o0 2=3.0 ) ) )",
        "o0 1=0.0 any( o0 2=1.0 any( o1 ) )",
    ),
];

#[test]
fn found_bodies_are_decided(rt: HostRuntime) -> Result<(), Fail> {
    assert_eq!(rt; first_astray(rt.alloc(), SAME_TABLE, &FOLLOW)?, "");
    Ok(())
}

/// What is wrong with a step, the step, and the expression that it doesn't follow from.
const REFUSED: [(&str, &str, &str); 11] = [
    ("a later row", "found 0 1 0", "o0 p0=0.1 any( o0@1 p0=1.1 )"),
    (
        "of another table",
        "found 0 1 0",
        "o0 p0=0.1 any( o1 p0=1.1 )",
    ),
    (
        "of the other side",
        "found 0 1 0",
        "o0 p0=0.1 any( n0 p0=1.1 )",
    ),
    ("too few", "found 0 1", "o0 p0=0.1 any( o0 p0=1.1 )"),
    ("too many", "found 0 1 0 0", "o0 p0=0.1 any( o0 p0=1.1 )"),
    ("not outside", "found 0 1 1", "o0 p0=0.1 any( o0 p0=1.1 )"),
    ("not given", "found 0 1 0", "o0 p0=0.1 any( o0 p1=1.1 )"),
    ("not the same row", "found 0 1 0", "o0 o0 0~1 any( o0 0~2 )"),
    ("no body", "found 0 0 0", "o0 p0=0.1 any( o0 p0=1.1 )"),
    (
        "a literal before its numbers are mended",
        "found 0 2.0 0",
        "o0 1=0.0 none( o1 0.0=1.0 ) none( o1 any( o0 1=2.0 none( o1 2.0=1.0 ) ) )",
    ),
    (
        "a body that nothing says",
        "found 0 1.0 0",
        "o0 1=0.0 none( o1 any( o0 1=2.0 none( o1 2.0=3.0 ) ) )",
    ),
];

#[test]
fn other_bodies_are_not_found(rt: HostRuntime) -> Result<(), Fail> {
    assert_eq!(rt; first_followed(rt.alloc(), SAME_TABLE, &REFUSED)?, "");
    Ok(())
}
