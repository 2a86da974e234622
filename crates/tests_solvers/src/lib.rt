//! Tests of the solvers, and of the texts that they read and write.
#![tactic(auto)]

#[cfg(test)]
mod dimacs;
#[cfg(test)]
mod first;
#[cfg(test)]
mod first_listed;
#[cfg(test)]
mod heaviest;
#[cfg(test)]
mod heaviest_listed;
#[cfg(test)]
mod listed;
