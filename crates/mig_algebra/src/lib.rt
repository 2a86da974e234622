//! Expressions: bags of rows, as sums over choices of rows of an old and a new database.
#![tactic(auto)]

mod arranging;
mod atoms;
mod laws;
mod literals;
mod ordered;
mod orders;
mod orienting;
mod renaming;
mod scoping;
mod terms;
mod tidying;

pub use atoms::{Atom, Var};
pub use laws::{equal_values_tie, orders_are_total};
pub use literals::{Inner, Lit};
pub use mig_meaning::{Invariant, Invariants, View};
pub use orders::{lit_order, term_order, var_order};
pub use orienting::{atom_order, oriented};
pub use renaming::{Renaming, renamed_atoms, renamed_lit, renamed_lits};
pub use scoping::is_scoped;
pub use terms::{Classes, Expr, Term};
pub use tidying::tidy;
