//! The program `dimacs`: the answer for clauses in DIMACS form that come on standard input.
#![tactic(auto)]

mod failure;
mod form;

use crate::failure::{Failure, failure_of};
use crate::form::{Form, answer, form_of};
use mig_dimacs::ReadError;
use std::alloc::Global;
use std::io::{self, Read, Write};
use std::process::ExitCode;
use std::rt::Runtime;

/// Reads clauses of this form to the end, and writes their answer.
fn run<R: Read, W: Write>(
    alloc: Global,
    form: Form,
    input: &mut R,
    output: &mut W,
) -> Result<(), Failure> {
    let mut bytes = Vec::new(alloc);
    if let Err(error) = input.read_to_end(&mut bytes) {
        return Err(failure_of(&error, Failure::Input));
    }
    let text = match answer(alloc, form, bytes.as_slice()) {
        Ok(text) => text,
        Err(ReadError::Memory) => return Err(Failure::Memory),
        Err(ReadError::Refused { line }) => return Err(Failure::Refused { line }),
    };
    match output.write_all(text.as_slice()) {
        Ok(()) => Ok(()),
        Err(_) => Err(Failure::Output),
    }
}

/// Tells on standard error why no answer was written.
fn tell<R: Runtime + Alloc<A = Global>>(rt: &R, failure: Failure) -> io::Result<()> {
    match failure {
        Failure::Words => eprintln!(rt; "dimacs cnf <FILE\ndimacs wcnf <FILE"),
        Failure::Refused { line } => eprintln!(rt; "line {line}: refused"),
        Failure::Input => eprintln!(rt; "standard input: not read"),
        Failure::Output => eprintln!(rt; "standard output: not written"),
        Failure::Memory => eprintln!(rt; "out of memory"),
    }
}

fn main(rt: HostRuntime) -> io::Result<ExitCode> {
    let outcome = match form_of(&rt) {
        Ok(Some(form)) => run(rt.alloc(), form, &mut rt.stdin(), &mut rt.stdout()),
        Ok(None) => Err(Failure::Words),
        Err(error) => Err(failure_of(&error, Failure::Words)),
    };
    let Err(failure) = outcome else {
        return Ok(ExitCode::from(0));
    };
    match tell(&rt, failure) {
        Ok(()) => Ok(ExitCode::from(failure.status())),
        Err(_) => Ok(ExitCode::from(Failure::Output.status())),
    }
}
