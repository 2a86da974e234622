//! What is to be shown of a pair of functions.
#![tactic(auto)]

mod answering;
mod forming;
mod holding;
mod laws;
mod proving;

pub use answering::answers;
pub use forming::{join_lits, join_vars, list_of, number, place_in, scalar_atom};
pub use holding::holds;
pub use laws::{
    met_obligations_answer_alike, met_obligations_make_equivalent, obligations_are_proper,
};
pub use proving::{Obligation, Pair};
