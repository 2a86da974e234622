// The numbers that ints spell, and the limits that they pass.
use mig_schema::Limit;
use mig_tokens::{int_limit, int_of, label_of, name_limit, text_limit, weight_of};
use std::test::Fail;

/// An int, its number as an i64, as a weight and as a label, each 0 where it is none.
const INTS: [(&str, i64, u32, u32); 16] = [
    ("0", 0, 0, 0),
    ("-0", 0, 0, 0),
    ("1", 1, 1, 1),
    ("-1", -1, 0, 0),
    ("007", 7, 7, 7),
    ("-007", -7, 0, 0),
    ("15", 15, 15, 15),
    ("16", 16, 16, 0),
    ("100", 100, 100, 0),
    ("101", 101, 0, 0),
    ("000000000000000000000000000012", 12, 12, 12),
    ("9223372036854775807", 9_223_372_036_854_775_807, 0, 0),
    ("9223372036854775808", 0, 0, 0),
    ("-9223372036854775808", -9_223_372_036_854_775_808, 0, 0),
    ("-9223372036854775809", 0, 0, 0),
    ("99999999999999999999999999999999999999999", 0, 0, 0),
];

#[test]
fn ints_spell_numbers(rt: HostRuntime) {
    for (int, number, weight, label) in INTS {
        let bytes = int.as_bytes();
        assert_eq!(rt; int_of(bytes), number, "at {int}");
        assert_eq!(rt; weight_of(bytes), weight, "at {int}");
        assert_eq!(rt; label_of(bytes), label, "at {int}");
    }
}

#[test]
fn ints_have_a_range(rt: HostRuntime) {
    let cases = [
        ("-9223372036854775808", None),
        ("9223372036854775807", None),
        ("-9223372036854775809", Some(Limit::Int)),
        ("9223372036854775808", Some(Limit::Int)),
    ];
    for (int, limit) in cases {
        assert_eq!(rt; int_limit(int.as_bytes()), limit, "at {int}");
    }
}

#[test]
fn names_and_texts_have_a_length(rt: HostRuntime) -> Result<(), Fail> {
    let mut bytes = Vec::new(rt.alloc());
    for n in 0..1026 {
        let name = if 32 < n { Some(Limit::Name) } else { None };
        let text = if 1024 < n { Some(Limit::Text) } else { None };
        assert_eq!(rt; name_limit(bytes.as_slice()), name, "at {n}");
        assert_eq!(rt; text_limit(bytes.as_slice()), text, "at {n}");
        bytes.push(b'a')?;
    }
    Ok(())
}
