//! What rules of rewriting see of an expression, and what each has to show.
#![tactic(auto)]

mod choosing;
mod laws;
mod limits;
mod lists;
mod parts;
mod paths;
mod replacing;
mod spots;
mod steps;
mod testing;
mod variables;
mod ways;

pub use choosing::{Front, chosen};
pub use laws::{all_is_tried, moments_have_fresh_keys, sound_rules_make_sound_steps};
pub use limits::{is_short, is_within_limits};
pub use lists::{numbers, one};
pub use parts::{Body, body_of, is_body};
pub use paths::{body_paths, lit_paths, one_empty};
pub use spots::{Enclosing, Spot, push_plain, spot_at, twins};
pub use steps::{Facts, Rule, Step, StepFault};
pub use testing::{Naming, atoms_pass, lit_passes, lits_pass};
pub use variables::{is_unnamed, leaving_out};
pub use ways::{
    LitRule, TailRule, TermRule, at_literal, before_later, on_term, on_terms, push_terms,
};
