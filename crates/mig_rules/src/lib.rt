//! The tables of rules: the step that follows, what it leads to, and the first of all.
#![tactic(auto)]

mod finding;
mod following;
mod laws;
mod resuming;
mod taking;

pub use finding::first;
pub use following::apply;
pub use laws::{first_step_is_least, quiet_terms_stay_quiet, steps_keep_bags};
pub use mig_obligations::{Obligation, Pair, answers, holds};
pub use mig_steps::{Facts, Rule, Step, StepFault};
pub use resuming::first_from;
pub use taking::{Taken, none_known, take_first};
