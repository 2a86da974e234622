// A job that renames a table with its columns, and programs over its new schema.
use mig_schema::{Job, Program};
use mig_syntax::{TextFault, read_job, read_program};
use std::alloc::Global;

const JOB: &str = "old
table user { uid: int, nick: text }
new
table person { id: int, nick: text }
program
update add(id: int, nick: text) {
  insert into user { user.uid = id, user.nick = nick };
}
query all() { select user.uid, user.nick from user; }
";

/// The program of the job over the new schema.
pub(crate) const RENAMED: &str = "update add(id: int, nick: text) {
  insert into person { person.id = id, person.nick = nick };
}
query all() {
  select person.id, person.nick from person;
}
";

/// The same, where the update has another name.
pub(crate) const OTHER_NAME: &str = "update put(id: int, nick: text) {
  insert into person { person.id = id, person.nick = nick };
}
query all() {
  select person.id, person.nick from person;
}
";

pub(crate) fn job(alloc: Global) -> Result<Job, TextFault> {
    job_of(alloc, JOB)
}

/// The job that a text spells.
pub(crate) fn job_of(alloc: Global, text: &str) -> Result<Job, TextFault> {
    let bytes = text.as_bytes();
    if bytes.len() < 1 << 31 {
        read_job(alloc, bytes)
    } else {
        Err(TextFault::Memory)
    }
}

/// A program over the new schema.
pub(crate) fn program(alloc: Global, job: &Job, text: &str) -> Result<Program, TextFault> {
    let bytes = text.as_bytes();
    if bytes.len() < 1 << 31 {
        read_program(alloc, &job.target, bytes)
    } else {
        Err(TextFault::Memory)
    }
}
