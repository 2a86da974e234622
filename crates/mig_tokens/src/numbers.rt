// The numbers that tokens spell.
ghost use Rattle.std.specs.Prelude.{◌≡◌, ℕ, ◌≤◌, nat_le, cond, Some, None, pos, neg_ℤ};
ghost use Rattle.mig_tokens.specs.Numbers as spec;

use mig_base::number_within;

/// Whether a minus sign stands first.
fn is_negative(int: &[u8]) -> bool
    ensures { result ≡ spec.is_negative int.now }
{
    match int {
        [b, ..] => *b == b'-',
        [] => false,
    }
}

/// The number that an int spells without its sign, where it is no more than `most`.
fn magnitude_within(most: u64, int: &[u8]) -> Option<u64>
    ensures { result ≡ cond (nat_le (spec.magnitude int.now) most) (Some (spec.magnitude int.now)) None }
{
    match int {
        [b'-', digits @ ..] => number_within(most, digits),
        _ => number_within(most, int),
    }
}

/// Whether an int is in the range of i64.
pub fn is_i64(int: &[u8]) -> bool
    ensures { result ≡ nat_le (spec.magnitude int.now) (spec.most_of int.now) }
{
    let most = if is_negative(int) {
        1 << 63
    } else {
        (1 << 63) - 1
    };
    magnitude_within(most, int).is_some()
}

/// The number that a hint's weight spells, where it is 1 to 100. It is 0 where the number is below 1 or above 100.
pub fn weight_of(int: &[u8]) -> u32
    ensures { result ≡ spec.weight_of int.now }
{
    if is_negative(int) {
        return 0;
    }
    match magnitude_within(100, int) {
        Some(weight) => weight as u32,
        None => 0,
    }
}

/// Whether an int is the label of a fresh key: 0 to 15, and -0 is 0.
pub fn is_label(int: &[u8]) -> bool
    ensures { result ≡ spec.is_label int.now }
{
    match magnitude_within(15, int) {
        Some(label) => !is_negative(int) || label == 0,
        None => false,
    }
}

/// The number that the label of a fresh key spells, where it is 0 to 15; else 0.
pub fn label_of(int: &[u8]) -> u32
    ensures { result ≡ spec.label_of int.now }
{
    match magnitude_within(15, int) {
        Some(label) => {
            if !is_negative(int) || label == 0 {
                label as u32
            } else {
                0
            }
        }
        None => 0,
    }
}

/// This number with a minus sign.
fn negated(value: u64) -> i64
    requires { value ≤ 9223372036854775808 }
    ensures { result ≡ neg_ℤ (pos value) }
{
    if value == 0 {
        0
    } else {
        -((value - 1) as i64) - 1
    }
}

/// The number that an int spells, where it is in the range of i64; else 0.
pub fn int_of(int: &[u8]) -> i64
    ensures { result ≡ spec.int_of int.now }
{
    if is_negative(int) {
        match magnitude_within(1 << 63, int) {
            Some(value) => negated(value),
            None => 0,
        }
    } else {
        match magnitude_within((1 << 63) - 1, int) {
            Some(value) => value as i64,
            None => 0,
        }
    }
}
