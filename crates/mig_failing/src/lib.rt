//! The first list of calls that tells two programs apart, and whom it blames.
#![tactic(auto)]

mod blaming;
mod differing;
mod failing;
mod laws;
mod played;
mod ready;
mod variants;
mod walking;

pub use blaming::{Names, blame};
pub use failing::first_failing;
pub use laws::{called_functions_decide, equivalent_programs_agree, listing_of_tests};
