//! The search for an equivalent program, correspondence by correspondence and completion by completion.
#![tactic(auto)]

mod blaming;
mod judging;
mod laws;
mod looking;
mod migrating;
mod outcomes;
mod stopping;

pub use laws::{
    each_completion_is_seen, each_correspondence_is_seen, one_list_is_looked_at, one_outcome,
    passed_over_completions_fail, refuted_programs_differ,
};
pub use migrating::migrate;
pub use outcomes::{Options, Outcome, Tried};
