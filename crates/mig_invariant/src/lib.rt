//! Correspondences of columns, the images of columns under them, and the invariants that are worth trying.
#![tactic(auto)]

mod columns;
mod corresp;
mod facts;
mod joining;
mod laws;
mod listing;
mod viewing;

pub use columns::{all_columns, columns_within, is_among, is_key};
pub use corresp::{ColPair, Corr};
pub use laws::candidates_of_pictures;
pub use listing::candidates;
