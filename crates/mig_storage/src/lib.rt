//! Stores of rows in tables, under transactions.
#![tactic(auto)]

mod codes;
mod fault_store;
mod faults;
mod index;
mod indexes;
mod journal;
mod laws;
mod layouts;
mod places;
mod shelf;
mod slots;
mod store;
mod undo;
mod values;
mod vec_store;

pub use fault_store::FaultStore;
pub use faults::StoreFault;
pub use laws::memory_never_fails;
pub use mig_meaning::value_eq;
pub use store::Store;
pub use vec_store::VecStore;
