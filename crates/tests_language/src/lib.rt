//! Tests of the crates that read, print and type jobs and programs.
#![tactic(auto)]

#[cfg(test)]
mod copies;
#[cfg(test)]
mod grammar;
#[cfg(test)]
mod printing;
#[cfg(test)]
mod syntax;
#[cfg(test)]
mod texts;
#[cfg(test)]
mod tokens;
#[cfg(test)]
mod typing;
