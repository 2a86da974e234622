//! States of a database, calls of its functions, and what may hold between two states.
#![tactic(auto)]

mod calling;
mod conditions;
mod deleting;
mod equal;
mod given;
mod inserting;
mod laws;
mod relating;
mod rows;
mod selecting;
mod setting;
mod small;
mod states;
mod values;

pub use calling::{Answer, Args, Calls, Invocation, Keys, Reply};
pub use conditions::those_met;
pub use equal::same_bag;
pub use given::{Given, scalar_value};
pub use inserting::new_values;
pub use laws::{
    losing_programs_differ, meeting_pairs_answer_alike, meeting_pairs_are_equivalent,
    renamings_commute, states_stay, worked_runs,
};
pub use relating::{Invariant, Invariants, View};
pub use rows::{JoinRow, column_in, id_in, value_at};
pub use selecting::all_selected;
pub use small::{Outcome, run_small};
pub use states::{Placed, Row, State};
pub use values::value_eq;
