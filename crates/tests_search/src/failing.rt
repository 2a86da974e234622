// The first lists of calls on which completions fail, worked out by hand.
ghost use Rattle.std.specs.Prelude.{◌≡◌};
ghost use Rattle.mig_schema.specs.Typed.{IsTyped};
ghost use Rattle.mig_schema.specs.Within.{IsProgramWithin};
ghost use Rattle.mig_sketch.specs.Completed.{IsCompletion};

use crate::completing::{completion, digits, first_corr};
use crate::jobs::{PICTURES, job, program};
use mig_base::{Exact, Seq, Txt};
use mig_failing::{blame, first_failing};
use mig_meaning::{Calls, Invocation};
use mig_printing::{put, put_number};
use mig_schema::{Job, Program, Value};
use std::alloc::{AllocError, Global};
use std::test::Fail;

/// Pictures of instructors move to a table of their own.
const MOVING: &str = "old table Instructor { id: int, name: text, pic: text }
new table Picture { pid: key, pic: text } table Instructor { id: int, name: text, pid: key } link Instructor.pid = Picture.pid;
program
update add(id: int, name: text, pic: text) { insert into Instructor { Instructor.id = id, Instructor.name = name, Instructor.pic = pic }; }
update del(id: int) { delete Instructor from Instructor where Instructor.id = id; }
query getName(id: int) { select Instructor.name from Instructor where Instructor.id = id; }";

/// The same, where the age 3 alone is looked at, which the third variant of `add` gives.
const AGED: &str = "old table Instructor { id: int, age: int, pic: text }
new table Picture { pid: key, pic: text } table Instructor { id: int, age: int, pid: key } link Instructor.pid = Picture.pid;
program
update add(pic: text, id: int, age: int) { insert into Instructor { Instructor.id = id, Instructor.age = age, Instructor.pic = pic }; }
update del() { delete Instructor from Instructor where Instructor.age = 3; }
query get() { select Instructor.id from Instructor where Instructor.age = 3; }";

/// A column with two images, and functions without parameters.
const DOUBLED: &str = "old table t { a: int }
new table u { a: int } table v { a: int } link u.a = v.a;
program
update add() { insert into t { t.a = 7 }; }
update cut() { delete t from t; }
query all() { select t.a from t; }";

/// A job, the picks of a completion, one digit each, how many lists are gone through, and the first that fails: the number of
/// each call's function, with the arguments behind commas, and then the numbers of the functions that are blamed. There are
/// 3 lists without an update and 18 with one.
const FAILING: [(&str, &str, u32, &str); 14] = [
    (MOVING, "000", 20_000, "0,0,a,a;1,0;2,0;012"),
    (MOVING, "000", 31, "0,0,a,a;1,0;2,0;012"),
    (MOVING, "000", 30, ""),
    (MOVING, "010", 20_000, ""),
    (MOVING, "021", 20_000, ""),
    (PICTURES, "020020", 20_000, ""),
    (AGED, "000", 67, "0,t1,0,3;1;2;012"),
    (AGED, "000", 66, ""),
    (DOUBLED, "000", 20_000, ""),
    (DOUBLED, "001", 31, "0;1;2;012"),
    (DOUBLED, "001", 30, ""),
    (DOUBLED, "002", 22, "0;0;2;02"),
    (DOUBLED, "002", 21, ""),
    (DOUBLED, "002", 0, ""),
];

/// The program over the new tables that takes the pictures away as well.
const CLEARED: &str =
    "update addInstructor(id: int, name: text, pic: text) { insert into Instructor join Picture on Instructor.pid = Picture.pid { Instructor.id = id, Instructor.name = name, Instructor.pid = fresh 0, Picture.pic = pic }; }
update deleteInstructor(id: int) { delete Instructor, Picture from Instructor join Picture on Instructor.pid = Picture.pid where Instructor.id = id; }
query getInstructor(id: int) { select Instructor.name, Picture.pic from Instructor join Picture on Instructor.pid = Picture.pid where Instructor.id = id; }
update addTA(id: int, name: text, pic: text) { insert into TA join Picture on TA.pid = Picture.pid { TA.id = id, TA.name = name, TA.pid = fresh 0, Picture.pic = pic }; }
update deleteTA(id: int) { delete TA, Picture from TA join Picture on TA.pid = Picture.pid where TA.id = id; }
query getTA(id: int) { select TA.name, Picture.pic from TA join Picture on TA.pid = Picture.pid where TA.id = id; }
";

/// Adds an argument.
fn tell_value(text: &mut Txt, value: &Value) -> Result<(), AllocError> {
    put(text, ",")?;
    match value {
        Value::Int(n) => put_number(text, u32::try_from(*n).unwrap_or(u32::MAX)),
        Value::Text(t) => text.extend_from_slice(t.as_slice()),
        Value::Key(_) => put(text, "?"),
    }
}

/// Adds a call.
fn tell_call(text: &mut Txt, call: &Invocation) -> Result<(), AllocError> {
    put_number(text, call.function)?;
    for value in call.args.values.as_slice() {
        tell_value(text, value)?;
    }
    put(text, ";")
}

/// A list of calls and its blame, as the table tells them.
fn told(alloc: Global, calls: &Calls) -> Result<Txt, AllocError> {
    let mut text = Seq::new(alloc);
    for call in calls.calls.as_slice() {
        tell_call(&mut text, call)?;
    }
    for number in blame(alloc, calls)?.functions.as_slice() {
        put_number(&mut text, *number)?;
    }
    Ok(text)
}

/// Whether a completion of the job fails first so.
#[tactic(auto, using(crate::proofs::Kept::same_functions))]
fn is_first(
    alloc: Global,
    job: &Job,
    program: &Program,
    tests: u32,
    want: &str,
) -> Result<bool, AllocError>
    requires typed { IsTyped job.now }
    requires within { IsProgramWithin job.now.program }
    requires completion { IsCompletion job.now program.now }
{
    match first_failing(alloc, job, program, tests)? {
        Some(calls) => Ok(told(alloc, &calls)?.as_slice() == want.as_bytes()),
        None => Ok(want.is_empty()),
    }
}

/// Whether the completion of these picks under the first correspondence fails first so.
fn fails(
    alloc: Global,
    text: &str,
    picks: &str,
    tests: u32,
    want: &str,
) -> Result<bool, AllocError> {
    let job = job(alloc, text)?;
    let corr = first_corr(alloc, &job)?;
    let picks = digits(alloc, picks)?;
    let program = completion(alloc, &job, &corr, picks.as_slice())?;
    is_first(alloc, &job, &program, tests, want)
}

#[test]
fn first_failing_lists_are_those_by_hand(rt: HostRuntime) -> Result<(), Fail> {
    for (text, picks, tests, want) in FAILING {
        let right = fails(rt.alloc(), text, picks, tests, want)?;
        assert!(rt; right, "{picks} {tests} {want}");
    }
    Ok(())
}

/// Whether the completion that was gone through for the pictures is this program.
fn is_cleared(alloc: Global, picks: &[u32]) -> Result<bool, AllocError> {
    let job = job(alloc, PICTURES)?;
    let corr = first_corr(alloc, &job)?;
    let found = completion(alloc, &job, &corr, picks)?;
    Ok(found.same(&program(alloc, &job, CLEARED)?))
}

#[test]
fn pictures_may_go_with_their_owners(rt: HostRuntime) -> Result<(), Fail> {
    let right = is_cleared(rt.alloc(), &[0, 2, 0, 0, 2, 0])?;
    assert!(rt; right);
    Ok(())
}
