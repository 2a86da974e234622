//! The first choice of one option for each hole that no block covers, as the first model of clauses.
#![tactic(auto)]

mod blocks;
mod chooser;
mod coding;
mod decoding;

pub use blocks::{Block, Pick};
pub use chooser::Chooser;
