//! Rules on literals: what is given, opened, split, contradicted, or joined again.
#![tactic(auto)]

mod dying;
mod implying;
mod joints;
mod laws;
mod lifting;
mod rejoining;
mod settling;
mod splitting;

pub use dying::Dying;
pub use implying::Implying;
pub use joints::rejoin_args;
pub use laws::{
    dead_is_sound, implied_is_sound, lift_is_sound, rejoin_is_sound, rejoin_is_tried,
    same_is_sound, split_is_sound,
};
pub use lifting::Lifting;
pub use rejoining::Rejoining;
pub use settling::Settling;
pub use splitting::Splitting;
