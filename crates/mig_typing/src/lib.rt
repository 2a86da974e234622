//! The typing rules tested: the first rule that a schema, a program or a job's hints break.
#![tactic(auto)]

mod again;
mod compared;
mod hints;
mod joins;
mod named;
mod pieces;
mod programs;
mod rules;
mod schemas;

pub use hints::check_hints;
pub use joins::{first_of_class, in_one_class, leader_of};
pub use programs::check_program;
pub use schemas::check_schema;
