//! Tests of the reading of answers.
#![tactic(auto)]

#[cfg(test)]
mod answers;
