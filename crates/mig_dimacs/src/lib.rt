//! DIMACS texts of clauses, with weights and without, and of answers.
#![tactic(auto)]

mod answers;
mod costs;
mod fault;
mod formulas;
mod gains;
mod lexing;
mod optimum;
mod place;
mod reader;
mod reading;
mod soft;
mod text;
mod token;
mod words;

pub use answers::{answer_cnf, sat_answer};
pub use costs::cheapest;
pub use fault::ReadError;
pub use formulas::read_cnf;
pub use optimum::{answer_wcnf, wcnf_answer};
pub use reading::read_text;
pub use soft::{SoftLit, Wcnf, read_wcnf};
pub use text::{Head, Text};
pub use token::Number;
