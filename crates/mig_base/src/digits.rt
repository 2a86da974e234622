// Decimal digits, and the numbers that they spell.
ghost use Rattle.std.specs.Prelude.{◌≡◌, ℕ, ◌≤◌, nat_le, cond, Some, None};
ghost use Rattle.std.specs.List.{list_all};
ghost use Rattle.mig_base.specs.Digits as spec;

/// 0 to 9.
pub fn is_digit(b: u8) -> bool
    ensures { result ≡ spec.is_digit b }
{
    b'0' <= b && b <= b'9'
}

/// Whether all bytes are digits; true of none.
pub fn all_digits(bytes: &[u8]) -> bool
    ensures { result ≡ list_all spec.is_digit bytes.now }
{
    bytes.iter().all(|b| is_digit(*b))
}

/// Whether the bytes are a decimal number without sign or leading zeros.
pub fn is_numeral(bytes: &[u8]) -> bool
    ensures { result ≡ spec.is_numeral bytes.now }
{
    match bytes {
        [] => false,
        [b] => is_digit(*b),
        [b, ..] => *b != b'0' && all_digits(bytes),
    }
}

/// The number that decimal digits spell, where it is no more than `most`; else none. Leading zeros are read. Without
/// digits it is 0. Each byte is taken as its distance from `0`, or as 0 where it is less: whether all are digits is not
/// tested.
pub fn number_within(most: u64, digits: &[u8]) -> Option<u64>
    ensures { result ≡ cond (nat_le (spec.digits_from 0 digits.now) most) (Some (spec.digits_from 0 digits.now)) None }
{
    let mut value: u64 = 0;
    for b in digits {
        let next = 10 * u128::from(value) + u128::from((*b).saturating_sub(48));
        if u128::from(most) < next {
            return None;
        }
        value = next as u64;
    }
    Some(value)
}
