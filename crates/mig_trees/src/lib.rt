//! The link trees of a schema: sets of tables with as many links less one, which connect them, written as joins.
#![tactic(auto)]

mod choosing;
mod inside;
mod laws;
mod listing;
mod writing;

pub use choosing::choices;
pub use laws::{listed_joins_are_shaped, one_answer};
pub use listing::trees;
