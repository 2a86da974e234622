// Jobs with their programs over the new schema and with invariants, as texts.
use crate::certificates::invariants;
use crate::jobs::{job_of, program};
use crate::steps::Sample;
use std::alloc::Global;
use std::test::Fail;

/// A job, a program over its new schema, and invariants.
#[derive(Clone, Copy)]
pub(crate) struct Worked {
    pub(crate) job: &'static str,
    pub(crate) program: &'static str,
    pub(crate) facts: &'static str,
}

/// Pictures move from two tables to a third, under a new key.
pub(crate) const PICTURES: Worked = Worked {
    job: "old
table Instructor { id: int, name: text, pic: text }
table TA { id: int, name: text, pic: text }
new
table Instructor { id: int, name: text, pid: key }
table TA { id: int, name: text, pid: key }
table Picture { pid: key, pic: text }
link Instructor.pid = Picture.pid;
link TA.pid = Picture.pid;
program
update addInstructor(id: int, name: text, pic: text) {
  insert into Instructor { Instructor.id = id, Instructor.name = name, Instructor.pic = pic };
}
update deleteInstructor(id: int) { delete Instructor from Instructor where Instructor.id = id; }
query getInstructor(id: int) {
  select Instructor.name, Instructor.pic from Instructor where Instructor.id = id;
}
update addTA(id: int, name: text, pic: text) {
  insert into TA { TA.id = id, TA.name = name, TA.pic = pic };
}
update deleteTA(id: int) { delete TA from TA where TA.id = id; }
query getTA(id: int) { select TA.name, TA.pic from TA where TA.id = id; }
",
    program: "update addInstructor(id: int, name: text, pic: text) {
  insert into Instructor join Picture on Instructor.pid = Picture.pid { Instructor.id = id, Instructor.name = name, Instructor.pid = fresh 0, Picture.pic = pic };
}
update deleteInstructor(id: int) {
  delete Instructor from Instructor join Picture on Instructor.pid = Picture.pid where Instructor.id = id;
}
query getInstructor(id: int) {
  select Instructor.name, Picture.pic from Instructor join Picture on Instructor.pid = Picture.pid where Instructor.id = id;
}
update addTA(id: int, name: text, pic: text) {
  insert into TA join Picture on TA.pid = Picture.pid { TA.id = id, TA.name = name, TA.pid = fresh 0, Picture.pic = pic };
}
update deleteTA(id: int) {
  delete TA from TA join Picture on TA.pid = Picture.pid where TA.id = id;
}
query getTA(id: int) {
  select TA.name, Picture.pic from TA join Picture on TA.pid = Picture.pid where TA.id = id;
}
",
    facts: "view 0.0 0.1 0.2 is 0.0 0.1 2.1 on 0.2=2.0
view 1.0 1.1 1.2 is 1.0 1.1 2.1 on 1.2=2.0
unique new 0.2
unique new 1.2
unique new 2.0
apart new 0.2 1.2
within new 0.2 2.0
within new 1.2 2.0",
};

/// Two tables become one, and their key goes.
pub(crate) const MERGED: Worked = Worked {
    job: "old
table A { id: key, x: int }
table B { aid: key, y: text }
link A.id = B.aid;
new
table C { x: int, y: text }
program
update add(x: int, y: text) {
  insert into A join B on A.id = B.aid { A.id = fresh 0, A.x = x, B.y = y };
}
update del(x: int) { delete A, B from A join B on A.id = B.aid where A.x = x; }
query get(x: int) { select B.y from A join B on A.id = B.aid where A.x = x; }
",
    program: "update add(x: int, y: text) {
  insert into C { C.x = x, C.y = y };
}
update del(x: int) {
  delete C from C where C.x = x;
}
query get(x: int) {
  select C.y from C where C.x = x;
}
",
    facts: "view 0.1 1.1 on 0.0=1.0 is 0.0 0.1
unique old 0.0
unique old 1.0
within old 0.0 1.0",
};

/// A set writes a column that moves to another table.
pub(crate) const MOVED: Worked = Worked {
    job: "old
table Instructor { id: int, name: text, pic: text }
new
table Instructor { id: int, name: text, pid: key }
table Picture { pid: key, pic: text }
link Instructor.pid = Picture.pid;
program
update add(id: int, name: text, pic: text) {
  insert into Instructor { Instructor.id = id, Instructor.name = name, Instructor.pic = pic };
}
update setPic(id: int, pic: text) { set Instructor.pic = pic in Instructor where Instructor.id = id; }
query get(id: int) {
  select Instructor.name, Instructor.pic from Instructor where Instructor.id = id;
}
",
    program: "update add(id: int, name: text, pic: text) {
  insert into Instructor join Picture on Instructor.pid = Picture.pid { Instructor.id = id, Instructor.name = name, Instructor.pid = fresh 0, Picture.pic = pic };
}
update setPic(id: int, pic: text) {
  set Picture.pic = pic in Instructor join Picture on Instructor.pid = Picture.pid where Instructor.id = id;
}
query get(id: int) {
  select Instructor.name, Picture.pic from Instructor join Picture on Instructor.pid = Picture.pid where Instructor.id = id;
}
",
    facts: "view 0.0 0.1 0.2 is 0.0 0.1 1.1 on 0.2=1.0
unique new 0.2
unique new 1.0
within new 0.2 1.0
within new 1.0 0.2",
};

/// Both columns get other names.
pub(crate) const RENAMED: Worked = Worked {
    job: "old
table t { a: int, b: int }
new
table t { x: int, y: int }
program
update add(a: int, b: int) { insert into t { t.a = a, t.b = b }; }
query get(a: int) { select t.b from t where t.a = a; }
",
    program: "update add(a: int, b: int) {
  insert into t { t.x = a, t.y = b };
}
query get(a: int) {
  select t.y from t where t.x = a;
}
",
    facts: "view 0.0 0.1 is 0.0 0.1",
};

/// A query with two cases, and nothing known.
pub(crate) const EITHER: Worked = Worked {
    job: "old
table t { a: int, b: int }
new
table t { a: int, b: int }
program
query get() { select t.a from t where t.a = 1 or t.b = 2; }
",
    program: "query get() {
  select t.a from t where t.a = 1 or t.b = 2;
}
",
    facts: "",
};

/// One key is inserted twice.
pub(crate) const TWICE: Worked = Worked {
    job: "old
table K { id: key }
new
table K { id: key }
program
update two() { insert into K { K.id = fresh 0 }; insert into K { K.id = fresh 0 }; }
",
    program: "update two() {
  insert into K { K.id = fresh 0 };
  insert into K { K.id = fresh 0 };
}
",
    facts: "unique old 0.0",
};

/// A job that is read with its program and its invariants.
pub(crate) fn read(alloc: Global, worked: &Worked) -> Result<Sample, Fail> {
    let job = job_of(alloc, worked.job)?;
    let program = program(alloc, &job, worked.program)?;
    let invariants = invariants(alloc, worked.facts)?;
    Ok(Sample {
        job,
        program,
        invariants,
    })
}
