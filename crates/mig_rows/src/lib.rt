//! Rules that rest on what invariants say of rows: which are one, which are never equal, and which are there in any case.
#![tactic(auto)]

mod insides;
mod laws;
mod losing;
mod merging;
mod naming;
mod outside;
mod parting;
mod ranging;
mod refuting;
mod sparing;
mod tying;
mod uniting;
mod writing;

pub use insides::inside_args;
pub use laws::{
    alone_is_sound, alone_is_tried, apart_is_sound, apart_is_tried, inside_is_sound,
    inside_is_tried, lossless_is_sound, lossless_is_tried, merge_is_sound, merge_is_tried,
    never_is_sound,
};
pub use losing::Losing;
pub use merging::{Merging, merge_args};
pub use outside::alone_args;
pub use parting::{Parting, apart_args};
pub use refuting::Refuting;
pub use sparing::Sparing;
pub use tying::lossless_args;
pub use uniting::Uniting;
