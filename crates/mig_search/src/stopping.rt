// What is made of one completion, and why the completions of a correspondence are not looked at any further.
use crate::outcomes::Tried;
use mig_certificate::Certificate;
use mig_schema::Program;

/// What is made of a completion.
#[derive(Drop)]
pub(crate) enum Verdict {
    Find(Certificate),
    Entry(Tried),
}

/// Why the completions of a correspondence are not looked at any further.
#[derive(Drop)]
pub(crate) enum Stop {
    Whole,
    Spent,
    Found(Program, Certificate),
}
