//! Every line that the desk prints, and every status that it ends with.
#![tactic(auto)]

mod call_lines;
mod entries;
mod lines;
mod names;
mod status;
mod verdict_lines;

pub use call_lines::{calls_line, store_failed};
pub use entries::{exhausted_report, found_report, spent_report};
pub use lines::{cannot_read, fault_line, no_memory, too_long, unbuilt_words, words_line};
pub use status::{Status, calls_status, fault_status};
pub use verdict_lines::{accepted, rejected_line};
