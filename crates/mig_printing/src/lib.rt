//! Programs as texts, in their one canonical spelling.
#![tactic(auto)]

mod parts;
mod program;
mod words;

pub use parts::{put_col, put_cols, put_join};
pub use program::{print_program, put_program};
pub use words::{put, put_bytes, put_int, put_number, put_quoted};
