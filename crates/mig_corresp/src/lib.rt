//! Correspondences of the columns of two schemas, the heaviest first.
#![tactic(auto)]

mod coding;
mod laws;
mod naming;
mod pairing;
mod ranker;
mod using;
mod weighing;

pub use laws::{one_ranking, ranked_in_turn};
pub use ranker::Ranker;
