//! Rules that unfold a variable by the statement before its stage.
#![tactic(auto)]

mod cases;
mod comparing;
mod hosts;
mod inserting;
mod laws;
mod narrowing;
mod rules;
mod setting;
mod staging;
mod unfolding;

pub use laws::{stage_is_sound, stage_is_tried, stagein_is_sound, stagein_is_tried};
pub use rules::{InnerStaging, Staging, stage_args, stagein_args};
