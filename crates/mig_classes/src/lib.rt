//! Classes of equal values in terms, what comparisons give, and variables written away.
#![tactic(auto)]

mod allowed;
mod closing;
mod comparing;
mod complements;
mod deciding;
mod forests;
mod grouping;
mod laws;
mod substituting;

pub use allowed::may_go;
pub use closing::closure;
pub use complements::{complement, has_complement};
pub use deciding::{contradictory, is_given, one_class};
pub use grouping::Groups;
pub use laws::{
    class_members_have_one_value, classes_are_the_least_equivalence,
    complements_are_true_elsewhere, contradictory_lists_are_never_true, given_comparisons_are_true,
    given_equalities_hold,
};
pub use substituting::substitute;
