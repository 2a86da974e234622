//! The verdict on a certificate: a yes says that the new program is equivalent to the old one.
#![tactic(auto)]

mod checking;
mod entries;
mod functions;
mod obligations;
mod pairs;
mod places;
mod shapes;
mod verdicts;
mod walking;

pub use checking::check;
pub use verdicts::{Verdict, Why};
