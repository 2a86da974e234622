//! The first model of clauses: unit propagation, variables in order, true before false.
#![tactic(auto)]

mod advancing;
mod agenda;
mod clauses;
mod exact;
mod judging;
mod laws;
mod listing;
mod looking;
mod queue;
mod solving;
mod steps;
mod trail;

pub use advancing::advance;
pub use agenda::Agenda;
pub use clauses::{Cnf, Model, SatLit};
pub use laws::one_first;
pub use looking::look;
pub use solving::solve;
pub use steps::{Found, Step};
pub use trail::Trail;
