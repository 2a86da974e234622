//! Tests of states and calls, of runs over stores, and of files of calls that are played.
#![tactic(auto)]

#[cfg(test)]
mod answers;
#[cfg(test)]
mod asked;
#[cfg(test)]
mod call_files;
#[cfg(test)]
mod copies;
#[cfg(test)]
mod defined;
#[cfg(test)]
mod faults;
#[cfg(test)]
mod fields;
#[cfg(test)]
mod indexed;
#[cfg(test)]
mod played;
#[cfg(test)]
mod playing;
#[cfg(test)]
mod programs;
#[cfg(test)]
mod single_calls;
#[cfg(test)]
mod small_runs;
#[cfg(test)]
mod stores;
#[cfg(test)]
mod texts;
#[cfg(test)]
mod whole_runs;
