//! The tokens of texts, the places where they stand, and what grammars over them are made of.
#![tactic(auto)]

mod bytes;
mod fault;
mod lex;
mod limits;
mod lists;
mod numbers;
mod pieces;
mod place;
mod refusals;
mod texts;
mod token;
mod words;

pub use fault::{Misread, ReadError};
pub use lex::tokens_to_end;
pub use limits::{first_of, full, int_limit, name_limit, over, text_limit};
pub use lists::{Item, led_of, many_of};
pub use mig_schema::Limit;
pub use numbers::{int_of, is_i64, is_label, label_of, weight_of};
pub use pieces::{after_end, after_sign, after_word, is_sign, is_word, name_of};
pub use refusals::placed;
pub use texts::spells_utf8;
pub use token::Token;
pub use words::{is, is_reserved};
