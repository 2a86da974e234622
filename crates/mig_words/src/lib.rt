//! The words of a command line, read as a command.
#![tactic(auto)]

mod command;
mod drafts;
mod files;
mod migrate;
mod numbers;
mod others;
mod reading;
mod settings;

pub use command::{Command, Options, WordFault};
pub use reading::read_words;
