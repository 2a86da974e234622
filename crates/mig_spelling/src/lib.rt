//! Programs and certificates that the grammar of answers spells, and where they come from.
#![tactic(auto)]

mod laws;

pub use laws::{completions_are_spelled, job_texts_are_spelled, job_texts_have_columns};
