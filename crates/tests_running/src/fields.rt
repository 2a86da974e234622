// The values that fields spell, and their texts.
use mig_schema::Kind;
use mig_store::{read_value, value_text};
use std::alloc::{AllocError, Global};
use std::test::Fail;

/// Whether a field spells a value of this kind that is written so; `-` where it spells none.
fn spells(alloc: Global, kind: Kind, field: &[u8], want: &[u8]) -> Result<bool, AllocError> {
    match read_value(alloc, kind, field)? {
        Some(value) => Ok(value_text(alloc, &value)?.as_slice() == want),
        None => Ok(want == b"-".as_slice()),
    }
}

/// Fields, and the ints that they spell.
const INTS: [(&str, &str); 18] = [
    ("0", "0"),
    ("-0", "0"),
    ("007", "7"),
    ("-007", "-7"),
    ("0000000000000000000000000000001", "1"),
    ("9223372036854775807", "9223372036854775807"),
    ("9223372036854775808", "-"),
    ("-9223372036854775808", "-9223372036854775808"),
    ("-9223372036854775809", "-"),
    ("99999999999999999999999999999999999999999", "-"),
    ("", "-"),
    ("-", "-"),
    ("--1", "-"),
    ("+1", "-"),
    (" 1", "-"),
    ("1 ", "-"),
    ("1e3", "-"),
    ("#1", "-"),
];

#[test]
fn ints_are_digits_behind_an_optional_minus(rt: HostRuntime) -> Result<(), Fail> {
    for (field, want) in INTS {
        let right = spells(rt.alloc(), Kind::Int, field.as_bytes(), want.as_bytes())?;
        assert!(rt; right, "at {field}");
    }
    Ok(())
}

/// Fields, and the keys that they spell.
const KEYS: [(&str, &str); 11] = [
    ("#0", "#0"),
    ("#7", "#7"),
    ("#18446744073709551615", "#18446744073709551615"),
    ("#18446744073709551616", "-"),
    ("#07", "-"),
    ("#00", "-"),
    ("#", "-"),
    ("", "-"),
    ("7", "-"),
    ("#-7", "-"),
    ("##7", "-"),
];

#[test]
fn keys_are_a_sign_and_a_plain_number(rt: HostRuntime) -> Result<(), Fail> {
    for (field, want) in KEYS {
        let right = spells(rt.alloc(), Kind::Key, field.as_bytes(), want.as_bytes())?;
        assert!(rt; right, "at {field}");
    }
    Ok(())
}

/// Fields, and the texts that they spell.
const TEXTS: [(&[u8], &[u8]); 6] = [
    (b"", b""),
    (b"#1 \"a\",\r\n", b"#1 \"a\",\r\n"),
    (b"\xc3\xa9", b"\xc3\xa9"),
    (b"\xc3(", b"-"),
    (b"\xff", b"-"),
    (b"\xed\xa0\x80", b"-"),
];

#[test]
fn texts_are_utf8(rt: HostRuntime) -> Result<(), Fail> {
    for (field, want) in TEXTS {
        let right = spells(rt.alloc(), Kind::Text, field, want)?;
        assert!(rt; right, "at {field:?}");
    }
    Ok(())
}

#[test]
fn texts_have_at_most_1024_bytes(rt: HostRuntime) -> Result<(), Fail> {
    let mut field = Vec::new(rt.alloc());
    for n in 0..1026 {
        let is_text = read_value(rt.alloc(), Kind::Text, field.as_slice())?.is_some();
        assert!(rt; is_text == (n <= 1024), "at {n}");
        field.push(b'a')?;
    }
    Ok(())
}
