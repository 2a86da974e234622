// Jobs that have just few enough pairs of columns, and one too many.
use super::rules::fault_of;
use mig_schema::Limit;
use mig_syntax::TextFault;
use std::alloc::AllocError;

/// Eight columns of kind int.
const INTS: &str = "{ a: int, b: int, c: int, d: int, e: int, f: int, g: int, h: int";

/// Sixteen columns of kind int on each side make 256 pairs. A further column of the old schema, one of the new, and whether there are too many pairs.
const CASES: [(&str, &str, bool); 6] = [
    ("", "", false),
    (", i: text", "", false),
    (", i: text", ", i: key", false),
    (", i: text", ", i: text", true),
    (", i: key", ", i: key", true),
    (", i: int", "", true),
];

#[test]
fn pairs_are_counted_by_kind(rt: HostRuntime) -> Result<(), AllocError> {
    for (old, new, is_past) in &CASES {
        let parts = [
            "old table t ",
            INTS,
            *old,
            " } table s ",
            INTS,
            " } new table t ",
            INTS,
            *new,
            " } table s ",
            INTS,
            " } program",
        ];
        let want = TextFault::Limit {
            which: Limit::Pairs,
            line: 0,
        };
        let got = fault_of(rt.alloc(), &parts)?;
        assert!(rt;
            got == if *is_past { Some(want) } else { None },
            "old {old} new {new}"
        );
    }
    Ok(())
}
