//! Files of calls read, runs over any store, answers written; and all three in one call.
#![tactic(auto)]

mod answers;
mod calls;
mod faults;
mod fields;
mod keys;
mod laws;
mod order;
mod play_faults;
mod playing;
mod runs;
mod writing;

pub use answers::{Answered, Answers};
pub use calls::read_calls;
pub use faults::CallsFault;
pub use fields::read_value;
pub use laws::equal_bags_have_equal_texts;
pub use play_faults::PlayFault;
pub use playing::play;
pub use runs::{nth_call, run};
pub use writing::{answers_text, value_text};
