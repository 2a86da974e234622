//! The desk: from the words of a command line to what is written.
#![tactic(auto)]

mod checking;
mod ending;
mod migrating;
mod planning;
mod running;
mod top;

pub use mig_words::{Command, Options, WordFault, read_words};
pub use top::desk;
