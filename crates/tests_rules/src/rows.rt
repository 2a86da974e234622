// Steps by the rules on rows, worked out by hand.
use crate::steps::{first_astray, first_followed};
use std::test::Fail;

/// What is known of the rows of tables 0 and 1 before the call.
const FACTS: &str = "unique old 0.0\napart old 0.0 1.0\nwithin old 0.1 1.0\nunique old 1.0";

/// Steps, the expressions that they are made on, and those that they lead to.
const FOLLOW: [(&str, &str, &str); 15] = [
    (
        "merge 0 - 0 1 0",
        "o0 o0 0.0=1.0 0.1<1.1 0~1 -> 1.1",
        "o0 0.0=0.0 0.1<0.1 0~0 -> 0.1",
    ),
    (
        "merge 0 - 0 2 0",
        "o0 o1 o0 0.0=2.0 2.1<1.0 -> 2.1 1.1",
        "o0 o1 0.0=0.0 0.1<1.0 -> 0.1 1.1",
    ),
    (
        "apart 0 - 0 1 1",
        "o0 o1 p0=0.0 p0=1.0 -> 0.1; -> p0",
        "-> p0",
    ),
    (
        "alone 0 1 1 0 0",
        "o0 p0=0.0 none( o0 p0=1.0 0.1<1.1 )",
        "o0 p0=0.0 none( p0=0.0 0.1<0.1 )",
    ),
    (
        "alone 0 0 1 0 0",
        "o0 any( o0 0.0=1.0 0.1<1.1 )",
        "o0 any( 0.0=0.0 0.1<0.1 )",
    ),
    ("inside 0 0 1 0 2", "o0 none( o1 0.1=1.0 )", "o0 none( )"),
    ("inside 0 0 1 0 2", "o0 any( o1 0.1=1.0 )", "o0 any( )"),
    ("lossless 0 - 1 0 2 3", "o0 o1 0.1=1.0 -> 0.0", "o0 -> 0.0"),
    (
        "lossless 0 - 1 0 2 3",
        "o0 o1 p0=0.1 p0=1.0 -> 0.0",
        "o0 p0=0.1 -> 0.0",
    ),
    (
        "never 0 1",
        "o0 p0=0.0 none( o1 p0=1.0 ) -> 0.1",
        "o0 p0=0.0 -> 0.1",
    ),
    (
        "never 0 1",
        "o0 p0=0.0 any( o1 p0=1.0 ) -> 0.1; -> p0",
        "-> p0",
    ),
    ("never 0 1", "o1 p0=0.0 none( o1 p0=1.0 0~1 )", "o1 p0=0.0"),
    (
        "never 0 1",
        "o0 p0=0.0 any( o0 p0=1.0 0~1 ) -> 0.1; -> p0",
        "-> p0",
    ),
    (
        "never 0 2",
        "o0 o0 p0=0.0 0~1 none( p0=1.0 )",
        "o0 o0 p0=0.0 0~1",
    ),
    ("never 0 0.1", "o0 none( o1 p0=0.0 any( p0=1.0 ) )", "o0"),
];

#[test]
fn rows_go_as_by_hand(rt: HostRuntime) -> Result<(), Fail> {
    assert_eq!(rt; first_astray(rt.alloc(), FACTS, &FOLLOW)?, "");
    Ok(())
}

/// What is wrong with a step, the step, and the expression that it doesn't follow from.
const REFUSED: [(&str, &str, &str); 20] = [
    ("the lesser one goes", "merge 0 - 1 0 0", "o0 o0 0.0=1.0"),
    ("another column", "merge 0 - 0 1 0", "o0 o0 0.1=1.1"),
    ("a later row", "merge 0 - 0 1 0", "o0 o0@1 0.0=1.0"),
    ("the other order", "apart 0 - 1 0 1", "o0 o1 0.0=1.0"),
    (
        "two arguments may be equal",
        "apart 0 - 0 1 1",
        "o0 o1 p0=0.0 p1=1.0",
    ),
    (
        "a later row is apart from none",
        "apart 0 - 0 1 1",
        "o0 o1@1 0.0=1.0",
    ),
    (
        "the one outside goes",
        "alone 0 1 0 1 0",
        "o0 p0=0.0 none( o0 p0=1.0 )",
    ),
    (
        "of another table",
        "alone 0 1 1 0 3",
        "o0 p0=0.0 none( o0 p0=1.0 )",
    ),
    (
        "named twice",
        "inside 0 0 1 0 2",
        "o0 none( o1 0.1=1.0 p0=1.1 )",
    ),
    (
        "of another column",
        "inside 0 0 1 0 2",
        "o0 none( o1 0.0=1.0 )",
    ),
    (
        "named by the head",
        "lossless 0 - 1 0 2 3",
        "o0 o1 0.1=1.0 -> 1.1",
    ),
    (
        "another unique column",
        "lossless 0 - 1 0 2 0",
        "o0 o1 0.1=1.0 -> 0.0",
    ),
    (
        "rows of the other side",
        "never 0 1",
        "n0 p0=0.0 none( n1 p0=1.0 )",
    ),
    (
        "a row of each side",
        "never 0 1",
        "o0 p0=0.0 none( n1 p0=1.0 )",
    ),
    (
        "a later row may be equal",
        "never 0 1",
        "o0 p0=0.0 any( o1@1 p0=1.0 )",
    ),
    (
        "columns that are not apart",
        "never 0 1",
        "o0 p0=0.1 none( o1 p0=1.0 )",
    ),
    (
        "a row that may be the same",
        "never 0 1",
        "o0 p0=0.0 none( o0 p0=1.0 )",
    ),
    (
        "different rows whose unique column may differ",
        "never 0 1",
        "o0 p0=0.0 none( o0 p1=1.0 0~1 )",
    ),
    (
        "different rows after the call",
        "never 0 1",
        "o0@1 p0=0.0 any( o0@1 p0=1.0 0~1 )",
    ),
    (
        "an argument too many",
        "never 0 1 1",
        "o0 p0=0.0 none( o1 p0=1.0 )",
    ),
];

#[test]
fn other_rows_stay(rt: HostRuntime) -> Result<(), Fail> {
    assert_eq!(rt; first_followed(rt.alloc(), FACTS, &REFUSED)?, "");
    Ok(())
}
