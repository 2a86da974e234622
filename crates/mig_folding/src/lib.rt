//! Rules that fold the rows of an old view's tables to those of the new view's, and that find rows for a body.
#![tactic(auto)]

mod finding;
mod folded_bodies;
mod folded_terms;
mod found_laws;
mod hosting;
mod images;
mod knowing;
mod laws;
mod offering;
mod seeking;
mod sifting;
mod staying;
mod viewing;
mod viewing_bodies;
mod writing;

pub use finding::Finding;
pub use found_laws::{found_is_sound, found_is_tried};
pub use laws::{fold_is_sound, fold_is_tried, foldin_is_sound, foldin_is_tried};
pub use seeking::found_args;
pub use viewing::{Viewing, fold_args};
pub use viewing_bodies::{ViewingBodies, foldin_args};
