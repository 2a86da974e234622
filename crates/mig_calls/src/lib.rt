//! Calls of functions over any store.
#![tactic(auto)]

mod asked;
mod back;
mod calls;
mod changing;
mod inserting;
mod joining;
mod meeting;
mod order;
mod pins;
mod queries;
mod statements;

pub use asked::{in_order, values_at};
pub use calls::call;
pub use order::value_order;
