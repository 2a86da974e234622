//! Growing lists that contracts see as lists, equality and copies that contracts see as equality of values, and decimal digits.
#![tactic(auto)]

mod digits;
mod exact;
mod numbers;
mod seq;

pub use digits::{all_digits, is_digit, is_numeral, number_within};
pub use exact::{Exact, same_text};
pub use numbers::number;
pub use seq::{Bytes, Seq, Txt, Word};
