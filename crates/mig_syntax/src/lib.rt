//! The texts of jobs and of programs over a schema: read, with their names numbered, and tested by all rules and limits.
#![tactic(auto)]

mod fault;
mod jobs;
mod naming;
mod pairs;
mod programs;
mod typing;

pub use fault::TextFault;
pub use jobs::read_job;
pub use mig_printing::print_program;
pub use naming::job_of_tree;
pub use programs::read_program;
