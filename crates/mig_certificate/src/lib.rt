//! Certificates: for each function, the steps which show that the new one does what the old one did.
#![tactic(auto)]

mod proofs;

pub use proofs::{Certificate, Claim, Entry, PairProof};
