//! Whether a program is closed: the invariants that are kept, and the steps by which each obligation is shown.
#![tactic(auto)]

mod closing;
mod keeping;
mod laws;
mod proving;
mod tracing;
mod trails;

pub use laws::{one_proof, simplified_keeps_bags, simplified_one_way};
pub use proving::{Proof, prove, prove_from};
pub use trails::{Trail, simplify};
