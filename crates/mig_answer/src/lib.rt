//! The text of an answer: the new program, the invariants and the certificate.
#![tactic(auto)]

mod print;
mod print_invariants;
mod print_steps;

pub use print::print_answer;
