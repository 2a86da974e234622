//! Reading of answers: the program, the invariants and the certificate that the bytes of an answer are.
#![tactic(auto)]

mod answers;
mod certificates;
mod columns;
mod cutting;
mod entries;
mod facts;
mod naming;
mod numbers;
mod paths;
mod places;
mod steps;
mod tree;
mod views;
mod words;

pub use answers::read_answer;
pub use certificates::read_certificate;
pub use tree::{CertificateTree, FactTree, Relation, ViewTree};
