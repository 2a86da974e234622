// Jobs and programs from their texts.
ghost use Rattle.std.specs.Prelude.{◌≡◌, IfOk};
ghost use Rattle.mig_schema.specs.Typed.{IsTyped};
ghost use Rattle.mig_schema.specs.Within.{IsProgramWithin};

use mig_schema::{Job, Program};
use mig_syntax::{read_job, read_program};
use std::alloc::{AllocError, Global};

/// Pictures move from two tables to a third.
pub(crate) const PICTURES: &str = "old
table Instructor { id: int, name: text, pic: text }
table TA { id: int, name: text, pic: text }
new
table Instructor { id: int, name: text, pid: key }
table TA { id: int, name: text, pid: key }
table Picture { pid: key, pic: text }
link Instructor.pid = Picture.pid;
link TA.pid = Picture.pid;
program
update addInstructor(id: int, name: text, pic: text) { insert into Instructor { Instructor.id = id, Instructor.name = name, Instructor.pic = pic }; }
update deleteInstructor(id: int) { delete Instructor from Instructor where Instructor.id = id; }
query getInstructor(id: int) { select Instructor.name, Instructor.pic from Instructor where Instructor.id = id; }
update addTA(id: int, name: text, pic: text) { insert into TA { TA.id = id, TA.name = name, TA.pic = pic }; }
update deleteTA(id: int) { delete TA from TA where TA.id = id; }
query getTA(id: int) { select TA.name, TA.pic from TA where TA.id = id; }
";

/// The program over the new tables.
pub(crate) const MOVED: &str =
    "update addInstructor(id: int, name: text, pic: text) { insert into Instructor join Picture on Instructor.pid = Picture.pid { Instructor.id = id, Instructor.name = name, Instructor.pid = fresh 0, Picture.pic = pic }; }
update deleteInstructor(id: int) { delete Instructor from Instructor join Picture on Instructor.pid = Picture.pid where Instructor.id = id; }
query getInstructor(id: int) { select Instructor.name, Picture.pic from Instructor join Picture on Instructor.pid = Picture.pid where Instructor.id = id; }
update addTA(id: int, name: text, pic: text) { insert into TA join Picture on TA.pid = Picture.pid { TA.id = id, TA.name = name, TA.pid = fresh 0, Picture.pic = pic }; }
update deleteTA(id: int) { delete TA from TA join Picture on TA.pid = Picture.pid where TA.id = id; }
query getTA(id: int) { select TA.name, Picture.pic from TA join Picture on TA.pid = Picture.pid where TA.id = id; }
";

/// The job that a text spells; a text that spells none counts as want of memory.
pub(crate) fn job(alloc: Global, text: &str) -> Result<Job, AllocError>
    ensures typed { IfOk result (λ j. IsTyped j) }
    ensures within { IfOk result (λ j. IsProgramWithin j.program) }
{
    let bytes = text.as_bytes();
    if bytes.len() >= 1 << 31 {
        return Err(AllocError);
    }
    match read_job(alloc, bytes) {
        Ok(job) => Ok(job),
        Err(_) => Err(AllocError),
    }
}

/// A program over the new schema.
pub(crate) fn program(alloc: Global, job: &Job, text: &str) -> Result<Program, AllocError> {
    let bytes = text.as_bytes();
    if bytes.len() >= 1 << 31 {
        return Err(AllocError);
    }
    match read_program(alloc, &job.target, bytes) {
        Ok(program) => Ok(program),
        Err(_) => Err(AllocError),
    }
}
