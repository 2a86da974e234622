// How long it takes to list the candidate invariants of a job of six functions, and to play test lists of its programs.
ghost use Rattle.std.specs.Prelude.{◌≡◌};
ghost use Rattle.mig_schema.specs.Typed.{IsTyped};
ghost use Rattle.mig_schema.specs.Within.{IsProgramWithin};
ghost use Rattle.mig_sketch.specs.Completed.{IsCompletion};

use crate::completing::{completion, first_corr, job_of};
use mig_failing::first_failing;
use mig_invariant::{Corr, candidates};
use mig_schema::{Job, Program};
use std::alloc::{AllocError, Global};
use std::io;
use std::rt::Runtime;
use std::time::Instant;

/// Pictures move from two tables to a third.
const PICTURES: &str = "old
table Instructor { id: int, name: text, pic: text }
table TA { id: int, name: text, pic: text }
new
table Instructor { id: int, name: text, pid: key }
table TA { id: int, name: text, pid: key }
table Picture { pid: key, pic: text }
link Instructor.pid = Picture.pid;
link TA.pid = Picture.pid;
program
update addInstructor(id: int, name: text, pic: text) { insert into Instructor { Instructor.id = id, Instructor.name = name, Instructor.pic = pic }; }
update deleteInstructor(id: int) { delete Instructor from Instructor where Instructor.id = id; }
query getInstructor(id: int) { select Instructor.name, Instructor.pic from Instructor where Instructor.id = id; }
update addTA(id: int, name: text, pic: text) { insert into TA { TA.id = id, TA.name = name, TA.pic = pic }; }
update deleteTA(id: int) { delete TA from TA where TA.id = id; }
query getTA(id: int) { select TA.name, TA.pic from TA where TA.id = id; }
";

/// Rows go with their pictures.
const PICKS: [u32; 6] = [0, 2, 0, 0, 2, 0];

/// What is asked of the job and the program.
#[derive(Clone, Copy)]
pub enum Asked {
    /// The candidate invariants, so many times.
    Candidates(u32),
    /// The first of so many test lists that fails.
    Failing(u32),
}

/// How many candidates there are, listed so many times.
fn candidate_count(
    alloc: Global,
    job: &Job,
    corr: &Corr,
    program: &Program,
    times: u32,
) -> Result<usize, AllocError> {
    let mut count = 0;
    for _ in 0..times {
        count = candidates(alloc, job, corr, program)?.list.len();
    }
    Ok(count)
}

/// How many calls the first list has that fails; 0 where none of so many fails.
#[tactic(auto, using(crate::proofs::Kept::same_functions))]
fn failing_count(
    alloc: Global,
    job: &Job,
    program: &Program,
    tests: u32,
) -> Result<usize, AllocError>
    requires typed { IsTyped job.now }
    requires within { IsProgramWithin job.now.program }
    requires completion { IsCompletion job.now program.now }
{
    match first_failing(alloc, job, program, tests)? {
        Some(calls) => Ok(calls.calls.len()),
        None => Ok(0),
    }
}

/// Asks about the job and its program; reading it and making the program is not timed.
pub fn time<R: Runtime + Alloc<A = Global>>(rt: &R, asked: Asked) -> io::Result<()> {
    let job = job_of(rt.alloc(), PICTURES.as_bytes())?;
    let corr = first_corr(rt.alloc(), &job)?;
    let program = completion(rt.alloc(), &job, &corr, &PICKS)?;
    let start = Instant::now(rt)?;
    let count = match asked {
        Asked::Candidates(times) => candidate_count(rt.alloc(), &job, &corr, &program, times)?,
        Asked::Failing(tests) => failing_count(rt.alloc(), &job, &program, tests)?,
    };
    let spent = start.elapsed(rt)?.as_micros();
    match asked {
        Asked::Candidates(times) => println!(rt; "{count} candidates, listed {times} times")?,
        Asked::Failing(tests) => println!(rt;
            "{count} calls in the first of {tests} lists that fails"
        )?,
    }
    eprintln!(rt; "{spent} microseconds in all")
}
