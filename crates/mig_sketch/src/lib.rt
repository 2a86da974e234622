//! Sketches: each old statement and query as a hole, with all that may stand in its place over the new schema.
#![tactic(auto)]

mod asking;
mod deletes;
mod filling;
mod images;
mod inserts;
mod labels;
mod needing;
mod options;
mod over;
mod plans;
mod queries;
mod sets;
mod sketching;
mod values;
mod writing;

pub use filling::fill;
pub use plans::{Choice, Hole, Made, Part, Plan};
pub use sketching::sketch;
