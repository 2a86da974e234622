// The bytes that tokens and gaps are made of.
ghost use Rattle.std.specs.Prelude.{◌≡◌, ℕ, ◌+◌, ◌≤◌, length};
ghost use Rattle.std.specs.List.{take_while};
ghost use Rattle.mig_base.specs.Digits as digits;
ghost use Rattle.mig_tokens.specs.Bytes as spec;

use mig_base::is_digit;

/// What a name begins with: a letter of ASCII or an underscore.
pub(crate) fn is_letter(b: u8) -> bool
    ensures { result ≡ spec.is_letter b }
{
    b'a' <= b && b <= b'z' || b'A' <= b && b <= b'Z' || b == b'_'
}

/// What a name goes on with.
pub(crate) fn is_name_byte(b: u8) -> bool
    ensures { result ≡ spec.is_name_byte b }
{
    is_letter(b) || is_digit(b)
}

/// What stands between tokens beside comments.
pub(crate) fn is_blank(b: u8) -> bool
    ensures { result ≡ spec.is_blank b }
{
    matches!(b, b' ' | b'\t' | b'\r' | b'\n')
}

/// How many bytes at the front go on with a name.
pub(crate) fn name_len(bytes: &[u8]) -> usize
    ensures { result ≡ length (take_while spec.is_name_byte bytes.now) }
{
    bytes.iter().take_while(|b| is_name_byte(**b)).count()
}

/// How many digits stand at the front.
pub(crate) fn digits_len(bytes: &[u8]) -> usize
    ensures { result ≡ length (take_while digits.is_digit bytes.now) }
{
    bytes.iter().take_while(|b| is_digit(**b)).count()
}

/// How many bytes the longest sign at the front takes; 0 where there is none.
pub(crate) fn sign_len(first: u8, rest: &[u8]) -> usize
    ensures value { result ≡ spec.sign_len first rest.now }
    ensures within { result ≤ length rest.now + 1 }
{
    match first {
        b'{' | b'}' | b'(' | b')' | b',' | b';' | b':' | b'.' | b'=' => 1,
        b'<' => match rest {
            [b'=' | b'>', ..] => 2,
            _ => 1,
        },
        b'>' => match rest {
            [b'=', ..] => 2,
            _ => 1,
        },
        b'-' => match rest {
            [b'>', ..] => 2,
            _ => 0,
        },
        _ => 0,
    }
}

/// What follows the blanks and comments at the front.
pub(crate) fn after_gap(bytes: &[u8]) -> &[u8]
    ensures value { result.now ≡ spec.after_gap bytes.now }
    ensures no_longer { length result.now ≤ length bytes.now }
{
    let mut in_comment = false;
    for (i, b) in bytes.iter().enumerate() {
        if in_comment {
            if *b == b'\n' {
                in_comment = false;
            }
        } else if *b == b'#' {
            in_comment = true;
        } else if !is_blank(*b) {
            return &bytes[i..];
        }
    }
    &[]
}
