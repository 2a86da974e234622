// The lines and columns of faults.
ghost use Rattle.std.specs.Prelude.{◌≡◌, ◌≤◌, ◌<◌, ◌+◌, length};
ghost use Rattle.mig_syntax.specs.declared.fault.TextFault.TheVariants as text;

use mig_base::is_digit;
use mig_syntax::TextFault;
use mig_tokens::Token;

/// What words and numbers are made of.
fn is_inner(b: u8) -> bool {
    is_digit(b) || b'a' <= b && b <= b'z' || b'A' <= b && b <= b'Z' || matches!(b, b'_' | b'-')
}

/// What stands between words.
fn is_blank(b: u8) -> bool {
    matches!(b, b' ' | b'\t' | b'\r' | b'\n')
}

/// How many bytes of blanks and comments stand at the front.
fn gap_len(bytes: &[u8]) -> usize
    ensures { result ≤ length bytes.now }
{
    let mut in_comment = false;
    for (i, b) in bytes.iter().enumerate() {
        if in_comment {
            in_comment = *b != b'\n';
        } else if *b == b'#' {
            in_comment = true;
        } else if !is_blank(*b) {
            return i;
        }
    }
    bytes.len()
}

/// The line and column behind a byte.
fn next_place(line: u32, column: u32, b: u8) -> (u32, u32)
    requires lines { line ≤ 2147483648 }
    requires columns { column ≤ 2147483648 }
    ensures lines { result.0 ≤ line + 1 }
    ensures columns { result.1 ≤ column + 1 }
{
    if b == b'\n' {
        (line + 1, 1)
    } else {
        (line, column + 1)
    }
}

/// The line and column behind these bytes.
fn place_behind(front: &[u8]) -> (u32, u32)
    requires { length front.now < 2147483648 }
{
    let mut line = 1;
    let mut column = 1;
    for b in front {
        let (next_line, next_column) = next_place(line, column, *b);
        line = next_line;
        column = next_column;
    }
    (line, column)
}

/// Where the number begins that goes on at this place, if a minus sign stands directly before it.
fn number_start(bytes: &[u8], at: usize) -> usize
    ensures { result ≤ at }
{
    match (bytes.get(at.saturating_sub(1)), bytes.get(at)) {
        (Some(b'-'), Some(b)) if is_digit(*b) => at.saturating_sub(1),
        _ => at,
    }
}

/// A fault at the first word from this place on, or at the end.
pub(crate) fn wrong_at(bytes: &[u8], at: usize) -> TextFault
    requires { length bytes.now < 2147483648 }
{
    let before = number_start(bytes, at.min(bytes.len()));
    let gap = gap_len(&bytes[before..]);
    let (line, column) = place_behind(&bytes[..before + gap]);
    TextFault::At { line, column }
}

/// The line of the byte at this place.
pub(crate) fn line_at(bytes: &[u8], at: usize) -> u32
    requires { length bytes.now < 2147483648 }
{
    let (line, _) = place_behind(&bytes[..at.min(bytes.len())]);
    line
}

/// How many bytes two texts share at their fronts.
fn shared_len(left: &[u8], right: &[u8]) -> usize
    ensures { result ≤ length left.now }
{
    for (i, b) in left.iter().enumerate() {
        if right.get(i) != Some(b) {
            return i;
        }
    }
    left.len()
}

/// Whether the byte at this place is of a word or a number.
fn is_inner_at(bytes: &[u8], at: usize) -> bool {
    match bytes.get(at) {
        Some(b) => is_inner(*b),
        None => false,
    }
}

/// How many bytes stand before the word or number that these bytes end with.
fn word_start(front: &[u8]) -> usize
    ensures { result ≤ length front.now }
{
    let inner = front.iter().rev().take_while(|b| is_inner(**b)).count();
    front.len().saturating_sub(inner)
}

/// A fault at the first word of a text that isn't as it should be.
pub(crate) fn unlike(text: &[u8], wanted: &[u8]) -> TextFault
    requires { length text.now < 2147483648 }
{
    let shared = shared_len(text, wanted);
    if is_inner_at(text, shared) || is_inner_at(wanted, shared) {
        wrong_at(text, word_start(&text[..shared]))
    } else {
        wrong_at(text, shared)
    }
}

/// A fault in the lines behind the first two of a text, as one of the text.
pub(crate) fn two_lines_on(fault: TextFault) -> TextFault
    ensures { fault ≡ text.Memory → result ≡ text.Memory }
{
    match fault {
        TextFault::At { line, column } => TextFault::At {
            line: line.saturating_add(2),
            column,
        },
        TextFault::Limit { which, line } => TextFault::Limit {
            which,
            line: line.saturating_add(2),
        },
        other => other,
    }
}

/// How many bytes a piece has.
fn piece_len(piece: &Token) -> usize {
    match piece {
        Token::Word(text) | Token::Int(text) | Token::Text(text) | Token::Sign(text) => text.len(),
        Token::Bad | Token::End => 0,
    }
}

/// How many bytes these pieces have.
pub(crate) fn pieces_len(pieces: &[Token]) -> usize {
    let mut sum: usize = 0;
    for piece in pieces {
        sum = sum.saturating_add(piece_len(piece));
    }
    sum
}
