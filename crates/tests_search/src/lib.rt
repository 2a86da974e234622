//! Tests of the layers that the search is made of.
#![tactic(auto)]

#[cfg(test)]
mod candidate_lists;
#[cfg(test)]
mod choosing;
#[cfg(test)]
mod completing;
#[cfg(test)]
mod failing;
#[cfg(test)]
mod jobs;
#[cfg(test)]
mod large;
#[cfg(test)]
mod proving;
#[cfg(test)]
mod ranking;
#[cfg(test)]
mod sketching;
#[cfg(test)]
mod trees;
#[cfg(test)]
mod valuing;
