// The limits that single tokens and counts pass.
ghost use Rattle.std.specs.Prelude.{◌≡◌};
ghost use Rattle.mig_tokens.specs.Limits as spec;

use crate::numbers::is_i64;
use mig_schema::Limit;

/// This limit, where `count` things stand before the next one and at most `most` may be.
pub fn over(which: Limit, most: usize, count: usize) -> Option<Limit>
    ensures { result ≡ spec.over which most count }
{
    if most <= count { Some(which) } else { None }
}

/// This limit, where no room is left for the next thing.
pub fn full(which: Limit, room: usize) -> Option<Limit>
    ensures { result ≡ spec.full which room }
{
    if room == 0 { Some(which) } else { None }
}

/// The first of two limits that is passed.
pub fn first_of(first: Option<Limit>, second: Option<Limit>) -> Option<Limit>
    ensures { result ≡ spec.first_of first second }
{
    match first {
        Some(which) => Some(which),
        None => second,
    }
}

/// The limit `Name`, where a name has more than 32 bytes.
pub fn name_limit(name: &[u8]) -> Option<Limit>
    ensures { result ≡ spec.name_mark name.now }
{
    if 32 < name.len() {
        Some(Limit::Name)
    } else {
        None
    }
}

/// The limit `Text`, where a text says more than 1,024 bytes.
pub fn text_limit(text: &[u8]) -> Option<Limit>
    ensures { result ≡ spec.text_mark text.now }
{
    if 1024 < text.len() {
        Some(Limit::Text)
    } else {
        None
    }
}

/// The limit `Int`, where an int is outside the range of i64.
pub fn int_limit(int: &[u8]) -> Option<Limit>
    ensures { result ≡ spec.int_mark int.now }
{
    if is_i64(int) { None } else { Some(Limit::Int) }
}
