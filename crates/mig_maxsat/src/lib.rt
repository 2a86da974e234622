//! The heaviest model of clauses whose variables have weights.
#![tactic(auto)]

mod charging;
mod heaviest;
mod hopeless;
mod keeping;
mod laws;
mod scouting;
mod weighing;
mod weighted;

pub use heaviest::best;
pub use laws::{one_heaviest, one_outcome_of_charges};
pub use weighted::Weighted;
