//! A literal at a path of a term, and what may stand in its place.
#![tactic(auto)]

mod laws;
mod spreading;

pub use laws::{
    bodies_are_met_by_counts, contradictory_bodies_go, given_literals_go, proper_terms_are_sound,
    replacing_keeps_terms_proper, replacing_keeps_the_bag,
};
pub use spreading::{put_at, spread};
