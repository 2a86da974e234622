// Each limit at its greatest, and passed by one.
use super::{fault_of, repeated};
use mig_schema::Limit;
use mig_tokens::Misread;
use std::alloc::{AllocError, Global};
use std::test::Fail;

/// What stands before, what is repeated and what stands behind; how often it may stand there; and what is answered where it
/// stands there once more, with the line.
const ROWS: [([&str; 3], usize, Limit, u32); 14] = [
    (
        ["old", "\ntable a { b: int }", " new program"],
        16,
        Limit::Tables,
        18,
    ),
    (
        ["old new table a { b: int", "\n, b: int", " } program"],
        11,
        Limit::Columns,
        13,
    ),
    (
        [
            "old table a { b: key, c: key } table d { e: key }",
            "\ntable f { g: key, h: key, i: key }",
            " new program",
        ],
        7,
        Limit::Keys,
        9,
    ),
    (
        ["old", "\nlink a.b = c.d;", " new program"],
        32,
        Limit::Links,
        34,
    ),
    (
        ["old new program", "\nquery a() { select b.c from b; }", ""],
        32,
        Limit::Functions,
        34,
    ),
    (
        [
            "old new program query a(p: int",
            "\n, p: text",
            ") { select b.c from b; }",
        ],
        7,
        Limit::Parameters,
        9,
    ),
    (
        [
            "old new program update a() {",
            "\ninsert into b { b.c = p };",
            " }",
        ],
        4,
        Limit::Statements,
        6,
    ),
    (
        [
            "old new program query a() { select b.c from b",
            "\njoin d on b.c = d.e",
            "; }",
        ],
        3,
        Limit::Joined,
        5,
    ),
    (
        [
            "old new program query a() { select b.c",
            "\n, b.c",
            " from b; }",
        ],
        15,
        Limit::Selected,
        17,
    ),
    (
        [
            "old new program query a() { select b.c from b where 1 = 2 or b.c = 1",
            "\nand p <= \"x\"",
            "; }",
        ],
        14,
        Limit::Comparisons,
        16,
    ),
    (
        [
            "old new program query a() { select b.c from b where b.c = d.e",
            "\nor 1 > 2",
            "; }",
        ],
        15,
        Limit::Cases,
        17,
    ),
    (
        ["old new program hints", "\nhint a.b -> c.d 1;", ""],
        256,
        Limit::Hints,
        258,
    ),
    (
        ["old table ", "a", " { b: int } new program"],
        32,
        Limit::Name,
        1,
    ),
    (
        [
            "old new program update a() { set b.c = \"\\n",
            "\\\"",
            "\" in b; }",
        ],
        1023,
        Limit::Text,
        1,
    ),
];

/// Why a job is refused in which a piece stands so often.
fn fault_at(alloc: Global, parts: [&str; 3], n: usize) -> Result<Option<Misread>, AllocError> {
    let text = repeated(alloc, parts, n)?;
    Ok(fault_of(alloc, text.as_slice()))
}

#[test]
fn the_greatest_is_read(rt: HostRuntime) -> Result<(), Fail> {
    for (parts, most, which, _) in ROWS {
        let got = fault_at(rt.alloc(), parts, most)?;
        assert!(rt; got.is_none(), "{which:?}");
    }
    Ok(())
}

#[test]
fn one_too_many_is_refused(rt: HostRuntime) -> Result<(), Fail> {
    for (parts, most, which, line) in ROWS {
        let got = fault_at(rt.alloc(), parts, most.saturating_add(1))?;
        assert!(rt; got == Some(Misread::Limit { which, line }), "{which:?}");
    }
    Ok(())
}

/// A number, and the limit that it passes as a weight, as a label and as a value.
const NUMBERS: [(&str, [Option<Limit>; 3]); 13] = [
    ("1", [None, None, None]),
    ("0", [Some(Limit::Hint), None, None]),
    ("-0", [Some(Limit::Hint), None, None]),
    ("-1", [Some(Limit::Hint), Some(Limit::Label), None]),
    ("0015", [None, None, None]),
    ("16", [None, Some(Limit::Label), None]),
    ("100", [None, Some(Limit::Label), None]),
    ("101", [Some(Limit::Hint), Some(Limit::Label), None]),
    ("00000000000000000000000000007", [None, None, None]),
    (
        "9223372036854775807",
        [Some(Limit::Hint), Some(Limit::Label), None],
    ),
    (
        "-9223372036854775808",
        [Some(Limit::Hint), Some(Limit::Label), None],
    ),
    (
        "9223372036854775808",
        [Some(Limit::Int), Some(Limit::Int), Some(Limit::Int)],
    ),
    (
        "-9223372036854775809",
        [Some(Limit::Int), Some(Limit::Int), Some(Limit::Int)],
    ),
];

const AROUND: [[&str; 2]; 3] = [
    ["old new program hints hint a.b -> c.d\n", ";"],
    [
        "old new program update a() { insert into b { b.c = fresh\n",
        " }; }",
    ],
    [
        "old new program update a() { insert into b { b.c =\n",
        " }; }",
    ],
];

/// Whether the number between these texts passes the limit, or none.
fn passes(
    alloc: Global,
    around: &[&str; 2],
    number: &str,
    limit: Option<Limit>,
) -> Result<bool, AllocError> {
    let got = fault_at(alloc, [around[0], number, around[1]], 1)?;
    Ok(match limit {
        None => got.is_none(),
        Some(which) => got == Some(Misread::Limit { which, line: 2 }),
    })
}

#[test]
fn numbers_have_limits(rt: HostRuntime) -> Result<(), Fail> {
    for (number, limits) in &NUMBERS {
        for (around, limit) in AROUND.iter().zip(limits) {
            let is = passes(rt.alloc(), around, number, *limit)?;
            assert!(rt; is, "{number} in {}", around[0]);
        }
    }
    Ok(())
}
