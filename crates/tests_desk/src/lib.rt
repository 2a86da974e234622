//! Tests of the desk: files and sinks, the words of a command line, and what each call writes.
#![tactic(auto)]

#[cfg(test)]
mod answered;
#[cfg(test)]
mod calling;
#[cfg(test)]
mod checked;
#[cfg(test)]
mod files;
#[cfg(test)]
mod forged;
#[cfg(test)]
mod played;
#[cfg(test)]
mod refused;
#[cfg(test)]
mod runs;
#[cfg(test)]
mod searched;
#[cfg(test)]
mod sinks;
#[cfg(test)]
mod sizes;
#[cfg(test)]
mod streams;
#[cfg(test)]
mod words;
