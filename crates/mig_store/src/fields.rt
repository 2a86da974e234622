// The values that fields spell, and the fields of values.
ghost use Rattle.std.specs.Prelude.{◌≡◌, ◌++◌, OnOk, IfOk};
ghost use Rattle.mig_store.specs.Fields as spec;

use mig_base::{Seq, Txt, all_digits, is_numeral, number_within};
use mig_schema::{Kind, Value};
use mig_tokens::{int_of, is_i64, spells_utf8};
use std::alloc::{AllocError, Global};

/// Whether the bytes are one digit or more.
fn are_digits(bytes: &[u8]) -> bool
    ensures { result ≡ spec.are_digits bytes.now }
{
    match bytes {
        [] => false,
        _ => all_digits(bytes),
    }
}

/// The bytes behind an optional minus sign.
fn unsigned(bytes: &[u8]) -> &[u8]
    ensures { result.now ≡ spec.unsigned bytes.now }
{
    match bytes {
        [b'-', rest @ ..] => rest,
        _ => bytes,
    }
}

/// The key that the bytes spell.
fn key_in(field: &[u8]) -> Option<Value>
    ensures { result ≡ spec.key_spelled field.now }
{
    match field {
        [b'#', digits @ ..] => {
            if !is_numeral(digits) {
                return None;
            }
            match number_within(u64::MAX, digits) {
                Some(key) => Some(Value::Key(key)),
                None => None,
            }
        }
        _ => None,
    }
}

/// The int that the bytes spell.
fn int_in(field: &[u8]) -> Option<Value>
    ensures { result ≡ spec.int_spelled field.now }
{
    if are_digits(unsigned(field)) && is_i64(field) {
        Some(Value::Int(int_of(field)))
    } else {
        None
    }
}

/// The text that the bytes spell.
fn text_in(alloc: Global, field: &[u8]) -> Result<Option<Value>, AllocError>
    ensures { IfOk result (λ o. o ≡ spec.text_spelled field.now) }
{
    if field.len() <= 1024 && spells_utf8(field) {
        Ok(Some(Value::Text(Seq::from_slice(alloc, field)?)))
    } else {
        Ok(None)
    }
}

/// The value of this kind that a field spells, if it spells one.
///
/// An int is an optional minus sign and one digit or more, in the range of i64; a text is UTF-8 of at most 1,024 bytes; a
/// key is `#` and a decimal number below 2^64 without leading zeros. The error is want of memory, for texts alone.
pub fn read_value(alloc: Global, kind: Kind, field: &[u8]) -> Result<Option<Value>, AllocError>
    ensures { IfOk result (λ o. o ≡ spec.value_spelled kind field.now) }
{
    match kind {
        Kind::Int => Ok(int_in(field)),
        Kind::Text => text_in(alloc, field),
        Kind::Key => Ok(key_in(field)),
    }
}
