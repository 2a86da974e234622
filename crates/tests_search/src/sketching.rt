// Options and completions that were worked out by hand. A job's hints are the pairs of the correspondence.
use crate::completing::{digits, told};
use crate::jobs::job;
use mig_base::Seq;
use mig_invariant::{ColPair, Corr};
use mig_printing::print_program;
use mig_schema::{Hint, Job};
use mig_sketch::{Choice, Made, Plan, fill, sketch};
use std::alloc::{AllocError, Global};
use std::test::Fail;

/// Pictures of instructors move to a table of their own, which comes first.
const PICTURES: &str = "old table Instructor { id: int, name: text, pic: text }
new table Picture { pid: key, pic: text } table Instructor { id: int, name: text, pid: key } link Instructor.pid = Picture.pid;
program
update add(id: int, name: text, pic: text) { insert into Instructor { Instructor.id = id, Instructor.name = name, Instructor.pic = pic }; }
update del(id: int) { delete Instructor from Instructor where Instructor.id = id; }
query getName(id: int) { select Instructor.name from Instructor where Instructor.id = id; }
update setPic(id: int, pic: text) { set Instructor.pic = pic in Instructor where Instructor.id = id; }
hints hint Instructor.id -> Instructor.id 1; hint Instructor.name -> Instructor.name 1; hint Instructor.pic -> Picture.pic 1;";

const PICTURES_FIRST: &str = "update add(id: int, name: text, pic: text) {
  insert into Picture join Instructor on Picture.pid = Instructor.pid { Picture.pid = fresh 0, Picture.pic = pic, Instructor.id = id, Instructor.name = name };
}
update del(id: int) {
  delete Picture from Picture join Instructor on Picture.pid = Instructor.pid where Instructor.id = id;
}
query getName(id: int) {
  select Instructor.name from Instructor where Instructor.id = id;
}
update setPic(id: int, pic: text) {
  set Picture.pic = pic in Picture join Instructor on Picture.pid = Instructor.pid where Instructor.id = id;
}
";

const PICTURES_LAST: &str = "update add(id: int, name: text, pic: text) {
  insert into Picture join Instructor on Picture.pid = Instructor.pid { Picture.pid = fresh 0, Picture.pic = pic, Instructor.id = id, Instructor.name = name };
}
update del(id: int) {
  delete Picture, Instructor from Picture join Instructor on Picture.pid = Instructor.pid where Instructor.id = id;
}
query getName(id: int) {
  select Instructor.name from Picture join Instructor on Picture.pid = Instructor.pid where Instructor.id = id;
}
update setPic(id: int, pic: text) {
  set Picture.pic = pic in Picture join Instructor on Picture.pid = Instructor.pid where Instructor.id = id;
}
";

/// Two tables with a key in common become one without keys.
const MERGE: &str =
    "old table A { id: key, x: int } table B { aid: key, y: text } link A.id = B.aid;
new table C { x: int, y: text }
program
update add(x: int, y: text) { insert into A join B on A.id = B.aid { A.id = fresh 0, A.x = x, B.y = y }; }
update del(x: int) { delete A, B from A join B on A.id = B.aid where A.x = x; }
query get(x: int) { select B.y from A join B on A.id = B.aid where A.x = x; }
hints hint A.x -> C.x 1; hint B.y -> C.y 1;";

const MERGED: &str = "update add(x: int, y: text) {
  insert into C { C.x = x, C.y = y };
}
update del(x: int) {
  delete C from C where C.x = x;
}
query get(x: int) {
  select C.y from C where C.x = x;
}
";

/// Labels that the function uses are passed over, in the second statement four further ones too.
const LABELS: &str = "old table T { k: key, x: int }
new table T { k: key, x: int, l: key }
program
update two(x: int) { insert into T { T.k = fresh 0, T.x = x }; insert into T { T.k = fresh 2, T.x = 5 }; }
hints hint T.k -> T.k 1; hint T.x -> T.x 1;";

const LABELED: &str = "update two(x: int) {
  insert into T { T.k = fresh 0, T.x = x, T.l = fresh 1 };
  insert into T { T.k = fresh 2, T.x = 5, T.l = fresh 6 };
}
";

/// A written column with two images; a text that is compared with its first image in schema order.
const TWICE: &str = "old table T { a: text, b: int }
new table U { b: int, a: text } table V { a: text, b: int } link U.b = V.b;
program
query get(a: text) { select T.a, T.b from T where T.a = a or \"x\" <> T.a; }
hints hint T.a -> V.a 1; hint T.a -> U.a 1; hint T.b -> V.b 1;";

const TWICE_ALONE: &str = "query get(a: text) {
  select V.a, V.b from V where V.a = a or \"x\" <> V.a;
}
";

const TWICE_JOINED: &str = "query get(a: text) {
  select U.a, V.b from U join V on U.b = V.b where U.a = a or \"x\" <> U.a;
}
";

/// A job, the picks of a completion, one digit each, and the program that it is.
const COMPLETIONS: [(&str, &str, &str); 6] = [
    (PICTURES, "0000", PICTURES_FIRST),
    (PICTURES, "0210", PICTURES_LAST),
    (MERGE, "000", MERGED),
    (LABELS, "00", LABELED),
    (TWICE, "0", TWICE_ALONE),
    (TWICE, "1", TWICE_JOINED),
];

/// Deletions from one of two tables that share a third: three sets of two tables, and seven of three.
const CUTS: &str =
    "old table I { id: int, name: text, pic: text } table T { id: int, name: text, pic: text }
new table P { pid: key, pic: text } table I { id: int, name: text, pid: key } table T { id: int, name: text, pid: key } link I.pid = P.pid; link T.pid = P.pid;
program
query name(id: int) { select I.name from I where I.id = id; }
update cut(id: int) { delete T from T where T.id = id; delete T from T where T.id = id; }
hints hint I.id -> I.id 1; hint I.name -> I.name 1; hint I.pic -> P.pic 1; hint T.id -> T.id 1; hint T.name -> T.name 1; hint T.pic -> P.pic 1;";

/// Two new tables without a link.
const APART: &str = "old table t { a: int, b: int }
new table u { a: int } table v { b: int }
program
query one() { select t.a from t; }
update add(a: int, b: int) { insert into t { t.a = a, t.b = b }; }
hints hint t.a -> u.a 1; hint t.b -> v.b 1;";

/// A set of a column with two images.
const SET_TWICE: &str = "old table t { a: int }
new table u { a: int } table v { a: int } link u.a = v.a;
program
query one() { select t.a from t; }
update put(a: int) { set t.a = a in t; }
hints hint t.a -> u.a 1; hint t.a -> v.a 1;";

/// A star of 16 tables and 32 links, of whose link trees 4,904 hold its middle.
const STAR: &str = "old table p { a: int }
new table m { a: int, k: int }
table a { k: int } table b { k: int } table c { k: int } table d { k: int } table e { k: int } table f { k: int } table g { k: int } table h { k: int }
table i { k: int } table j { k: int } table l { k: int } table n { k: int } table o { k: int } table p { k: int } table q { k: int }
link m.k = a.k; link m.k = b.k; link m.k = c.k; link m.k = d.k; link m.k = e.k; link m.k = f.k; link m.k = g.k; link m.k = h.k;
link m.k = i.k; link m.k = j.k; link m.k = l.k; link m.k = n.k; link m.k = o.k; link m.k = p.k; link m.k = q.k;
link m.k = a.k; link m.k = b.k; link m.k = c.k; link m.k = d.k; link m.k = e.k; link m.k = f.k; link m.k = g.k; link m.k = h.k;
link m.k = i.k; link m.k = j.k; link m.k = l.k; link m.k = n.k; link m.k = o.k; link m.k = p.k; link m.k = q.k;
link m.k = a.k; link m.k = b.k;
program
query one() { select p.a from p; }
hints hint p.a -> m.a 1;";

/// A job, and what its sketch is: how many options each hole has, or what ends it, with the number of the function.
const SHAPES: [(&str, &str); 7] = [
    (PICTURES, "1;3;2;1;"),
    (MERGE, "1;1;1;"),
    (TWICE, "2;"),
    (CUTS, "3;10;10;"),
    (APART, "empty 1"),
    (SET_TWICE, "empty 1"),
    (STAR, "wide 0"),
];

/// The pairs of these hints.
fn corr_of(alloc: Global, hints: &[Hint]) -> Result<Corr, AllocError> {
    let mut pairs = Seq::new(alloc);
    for hint in hints {
        pairs.push(ColPair {
            source: hint.source,
            target: hint.target,
        })?;
    }
    Ok(Corr { pairs })
}

/// The sketch of a job under its hints.
fn sketched(alloc: Global, job: &Job) -> Result<Made, AllocError> {
    sketch(alloc, job, &corr_of(alloc, job.hints.as_slice())?)
}

/// Whether the program of these picks is this text.
fn fills(
    alloc: Global,
    job: &Job,
    plan: &Plan,
    picks: Seq<u32>,
    want: &str,
) -> Result<bool, AllocError> {
    let choice = Choice { picks };
    if !plan.takes(&choice) {
        return Ok(false);
    }
    let program = fill(alloc, plan, &choice)?;
    let text = print_program(alloc, &job.target, &program)?;
    Ok(text.as_slice() == want.as_bytes())
}

/// Whether the completion of a job with these picks is this program.
pub(crate) fn completes(
    alloc: Global,
    text: &str,
    picks: &str,
    want: &str,
) -> Result<bool, AllocError> {
    let job = job(alloc, text)?;
    match sketched(alloc, &job)? {
        Made::Plan(plan) => fills(alloc, &job, &plan, digits(alloc, picks)?, want),
        _ => Ok(false),
    }
}

/// Whether the sketch of a job under its hints is this.
pub(crate) fn is_shaped(alloc: Global, text: &str, want: &str) -> Result<bool, AllocError> {
    let job = job(alloc, text)?;
    let made = sketched(alloc, &job)?;
    Ok(told(alloc, &made)?.as_slice() == want.as_bytes())
}

#[test]
fn completions_are_as_by_hand(rt: HostRuntime) -> Result<(), Fail> {
    for (text, picks, want) in COMPLETIONS {
        assert!(rt; completes(rt.alloc(), text, picks, want)?, "{want}");
    }
    Ok(())
}

#[test]
fn sketches_are_as_by_hand(rt: HostRuntime) -> Result<(), Fail> {
    for (text, want) in SHAPES {
        assert!(rt; is_shaped(rt.alloc(), text, want)?, "{text}");
    }
    Ok(())
}
