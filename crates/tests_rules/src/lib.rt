//! Tests of expressions, of the rules that rewrite them, and of certificates and their checker.
#![tactic(auto)]

#[cfg(test)]
mod certificates;
#[cfg(test)]
mod classes;
#[cfg(test)]
mod copies;
#[cfg(test)]
mod ends;
#[cfg(test)]
mod expressions;
#[cfg(test)]
mod firsts;
#[cfg(test)]
mod found;
#[cfg(test)]
mod given;
#[cfg(test)]
mod jobs;
#[cfg(test)]
mod literals;
#[cfg(test)]
mod plain;
#[cfg(test)]
mod printed;
#[cfg(test)]
mod replaced;
#[cfg(test)]
mod rows;
#[cfg(test)]
mod statements;
#[cfg(test)]
mod steps;
#[cfg(test)]
mod tidied;
#[cfg(test)]
mod verdicts;
#[cfg(test)]
mod worked;
