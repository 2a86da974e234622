// Sketches of the worked jobs under their first correspondence, and what decides whether an insert has a value for each class,
// worked out by hand.
use crate::completing::{first_corr, told};
use crate::jobs::{PICTURES, job};
use crate::sketching::{completes, is_shaped};
use mig_sketch::sketch;
use std::alloc::{AllocError, Global};
use std::test::Fail;

/// Pictures of instructors move to a table of their own.
const MOVING: &str = "old table Instructor { id: int, name: text, pic: text }
new table Picture { pid: key, pic: text } table Instructor { id: int, name: text, pid: key } link Instructor.pid = Picture.pid;
program
update add(id: int, name: text, pic: text) { insert into Instructor { Instructor.id = id, Instructor.name = name, Instructor.pic = pic }; }
update del(id: int) { delete Instructor from Instructor where Instructor.id = id; }
query getName(id: int) { select Instructor.name from Instructor where Instructor.id = id; }";

/// A table is split into two without a link.
const SPLIT: &str = "old table t { a: int, b: int } new table u { a: int } table v { b: int }
program update add(a: int, b: int) { insert into t { t.a = a, t.b = b }; }";

/// Two tables with pictures, and twelve deletions from one of them.
const MANY: &str =
    "old table Instructor { id: int, name: text, pic: text } table TA { id: int, name: text, pic: text }
new table Picture { pid: key, pic: text } table Instructor { id: int, name: text, pid: key } table TA { id: int, name: text, pid: key }
link Instructor.pid = Picture.pid; link TA.pid = Picture.pid;
program
update addInstructor(id: int, name: text, pic: text) { insert into Instructor { Instructor.id = id, Instructor.name = name, Instructor.pic = pic }; }
update delInstructor(id: int) { delete Instructor from Instructor where Instructor.id = id; }
query nameInstructor(id: int) { select Instructor.name from Instructor where Instructor.id = id; }
update addTA(id: int, name: text, pic: text) { insert into TA { TA.id = id, TA.name = name, TA.pic = pic }; }
update cut1(id: int) { delete TA from TA where TA.id = id; }
update cut2(id: int) { delete TA from TA where TA.id = id; }
update cut3(id: int) { delete TA from TA where TA.id = id; }
update cut4(id: int) { delete TA from TA where TA.id = id; }
update cut5(id: int) { delete TA from TA where TA.id = id; }
update cut6(id: int) { delete TA from TA where TA.id = id; }
update cut7(id: int) { delete TA from TA where TA.id = id; }
update cut8(id: int) { delete TA from TA where TA.id = id; }
update cut9(id: int) { delete TA from TA where TA.id = id; }
update cut10(id: int) { delete TA from TA where TA.id = id; }
update cut11(id: int) { delete TA from TA where TA.id = id; }
update cut12(id: int) { delete TA from TA where TA.id = id; }
query getTA(id: int) { select TA.name, TA.pic from TA where TA.id = id; }";

/// A picture is set through the join.
const SET: &str = "old table Instructor { id: int, name: text, pic: text }
new table Instructor { id: int, name: text, pid: key } table Picture { pid: key, pic: text } link Instructor.pid = Picture.pid;
program
update add(id: int, name: text, pic: text) { insert into Instructor { Instructor.id = id, Instructor.name = name, Instructor.pic = pic }; }
update setPic(id: int, pic: text) { set Instructor.pic = pic in Instructor where Instructor.id = id; }
query get(id: int) { select Instructor.name, Instructor.pic from Instructor where Instructor.id = id; }";

/// A job, and what its sketch under its first correspondence is, as in `SHAPES`. A deletion over a tree of two tables has
/// 3 options, over one of three tables 7.
const WORKED: [(&str, &str); 5] = [
    (PICTURES, "1;10;2;1;10;2;"),
    (MOVING, "1;3;2;"),
    (SET, "1;1;1;"),
    (SPLIT, "empty 0"),
    (MANY, "1;10;3;1;10;10;10;10;10;10;10;10;10;10;10;10;2;"),
];

/// Both columns fall into one class.
const ONE_CLASS: &str =
    "old table t { a: int, b: int } new table u { a: int } table v { b: int } link u.a = v.b;
program
update add(x: int) { insert into t { t.a = x, t.b = x }; }
update put() { insert into t { t.a = 7, t.b = 7 }; }
hints hint t.a -> u.a 1; hint t.b -> v.b 1;";

const ONE_VALUE: &str = "update add(x: int) {
  insert into u join v on u.a = v.b { u.a = x };
}
update put() {
  insert into u join v on u.a = v.b { u.a = 7 };
}
";

/// The same, with two scalars for the class.
const TWO_PARAMETERS: &str =
    "old table t { a: int, b: int } new table u { a: int } table v { b: int } link u.a = v.b;
program
update put() { insert into t { t.a = 7, t.b = 7 }; }
update add(x: int, y: int) { insert into t { t.a = x, t.b = y }; }
hints hint t.a -> u.a 1; hint t.b -> v.b 1;";

const A_NUMBER_AND_A_PARAMETER: &str =
    "old table t { a: int, b: int } new table u { a: int } table v { b: int } link u.a = v.b;
program update add(x: int) { insert into t { t.a = 7, t.b = x }; }
hints hint t.a -> u.a 1; hint t.b -> v.b 1;";

/// A second link joins by keys, so that the columns may fall into two classes.
const TWO_LINKS: &str =
    "old table t { a: int, b: int } new table u { a: int, k: key } table v { b: int, k: key } link u.a = v.b; link u.k = v.k;
program
update one(x: int) { insert into t { t.a = x, t.b = x }; }
update two() { insert into t { t.a = 7, t.b = 8 }; }
hints hint t.a -> u.a 1; hint t.b -> v.b 1;";

const BY_VALUES: &str = "update one(x: int) {
  insert into u join v on u.a = v.b { u.a = x, u.k = fresh 0, v.k = fresh 1 };
}
update two() {
  insert into u join v on u.k = v.k { u.a = 7, u.k = fresh 0, v.b = 8 };
}
";

const BY_KEYS: &str = "update one(x: int) {
  insert into u join v on u.k = v.k { u.a = x, u.k = fresh 0, v.b = x };
}
update two() {
  insert into u join v on u.k = v.k { u.a = 7, u.k = fresh 0, v.b = 8 };
}
";

/// A new column is the image of another table's column alone.
const UNGIVEN: &str = "old table t { a: int } table s { b: int } new table u { a: int, b: int }
program update add(a: int) { insert into t { t.a = a }; }
hints hint t.a -> u.a 1; hint s.b -> u.b 1;";

/// The fourth statement's label is the twelfth, from 0, that the function does not use.
const THREE_USED: &str = "old table T { k: key, x: int } new table T { k: key, x: int, l: key }
program
update four(x: int) { insert into T { T.k = fresh 0, T.x = x }; insert into T { T.k = fresh 1, T.x = x }; insert into T { T.k = fresh 2, T.x = x }; insert into T { T.k = fresh 2, T.x = x }; }
hints hint T.k -> T.k 1; hint T.x -> T.x 1;";

const LAST_LABEL: &str = "update four(x: int) {
  insert into T { T.k = fresh 0, T.x = x, T.l = fresh 3 };
  insert into T { T.k = fresh 1, T.x = x, T.l = fresh 7 };
  insert into T { T.k = fresh 2, T.x = x, T.l = fresh 11 };
  insert into T { T.k = fresh 2, T.x = x, T.l = fresh 15 };
}
";

const FOUR_USED: &str = "old table T { k: key, x: int } new table T { k: key, x: int, l: key }
program
update four(x: int) { insert into T { T.k = fresh 0, T.x = x }; insert into T { T.k = fresh 1, T.x = x }; insert into T { T.k = fresh 2, T.x = x }; insert into T { T.k = fresh 3, T.x = x }; }
hints hint T.k -> T.k 1; hint T.x -> T.x 1;";

/// A statement takes four new labels at most.
const FOUR_KEYS: &str =
    "old table t { x: int } new table t { x: int, a: key, b: key, c: key, d: key }
program update add(x: int) { insert into t { t.x = x }; }
hints hint t.x -> t.x 1;";

const FOUR_LABELS: &str = "update add(x: int) {
  insert into t { t.x = x, t.a = fresh 0, t.b = fresh 1, t.c = fresh 2, t.d = fresh 3 };
}
";

const FIVE_KEYS: &str =
    "old table t { x: int } new table t { x: int, a: key, b: key, c: key, d: key, e: key }
program update add(x: int) { insert into t { t.x = x }; }
hints hint t.x -> t.x 1;";

/// A deletion over a row of four tables with 7, 6 and 6 links between neighbours: 1 + 7 * 3 + 42 * 7 + 252 * 15 = 4096
/// options.
const MOST: &str =
    "old table p { x: int } new table a { x: int, k: int } table b { k: int } table c { k: int } table d { k: int }
link a.k = b.k; link a.k = b.k; link a.k = b.k; link a.k = b.k; link a.k = b.k; link a.k = b.k; link a.k = b.k;
link b.k = c.k; link b.k = c.k; link b.k = c.k; link b.k = c.k; link b.k = c.k; link b.k = c.k;
link c.k = d.k; link c.k = d.k; link c.k = d.k; link c.k = d.k; link c.k = d.k; link c.k = d.k;
program update cut() { delete p from p; }
hints hint p.x -> a.x 1;";

/// One link more, and an insert that has no value for the links.
const WIDE_FIRST: &str =
    "old table p { x: int } new table a { x: int, k: int } table b { k: int } table c { k: int } table d { k: int }
link a.k = b.k; link a.k = b.k; link a.k = b.k; link a.k = b.k; link a.k = b.k; link a.k = b.k; link a.k = b.k;
link b.k = c.k; link b.k = c.k; link b.k = c.k; link b.k = c.k; link b.k = c.k; link b.k = c.k;
link c.k = d.k; link c.k = d.k; link c.k = d.k; link c.k = d.k; link c.k = d.k; link c.k = d.k; link c.k = d.k;
program update cut() { delete p from p; } update add(x: int) { insert into p { p.x = x }; }
hints hint p.x -> a.x 1;";

const EMPTY_FIRST: &str =
    "old table p { x: int } new table a { x: int, k: int } table b { k: int } table c { k: int } table d { k: int }
link a.k = b.k; link a.k = b.k; link a.k = b.k; link a.k = b.k; link a.k = b.k; link a.k = b.k; link a.k = b.k;
link b.k = c.k; link b.k = c.k; link b.k = c.k; link b.k = c.k; link b.k = c.k; link b.k = c.k;
link c.k = d.k; link c.k = d.k; link c.k = d.k; link c.k = d.k; link c.k = d.k; link c.k = d.k; link c.k = d.k;
program update add(x: int) { insert into p { p.x = x }; } update cut() { delete p from p; }
hints hint p.x -> a.x 1;";

/// A job, and what its sketch under its hints is.
const RULED: [(&str, &str); 12] = [
    (ONE_CLASS, "1;1;"),
    (TWO_PARAMETERS, "empty 1"),
    (A_NUMBER_AND_A_PARAMETER, "empty 0"),
    (TWO_LINKS, "2;1;"),
    (UNGIVEN, "empty 0"),
    (THREE_USED, "1;1;1;1;"),
    (FOUR_USED, "empty 0"),
    (FOUR_KEYS, "1;"),
    (FIVE_KEYS, "empty 0"),
    (MOST, "4096;"),
    (WIDE_FIRST, "wide 0"),
    (EMPTY_FIRST, "empty 0"),
];

/// A job, the picks of a completion, one digit each, and the program that it is.
const VALUED: [(&str, &str, &str); 5] = [
    (ONE_CLASS, "00", ONE_VALUE),
    (TWO_LINKS, "00", BY_VALUES),
    (TWO_LINKS, "10", BY_KEYS),
    (THREE_USED, "0000", LAST_LABEL),
    (FOUR_KEYS, "0", FOUR_LABELS),
];

/// Whether the sketch of a job under its first correspondence is this.
fn is_worked(alloc: Global, text: &str, want: &str) -> Result<bool, AllocError> {
    let job = job(alloc, text)?;
    let corr = first_corr(alloc, &job)?;
    let made = sketch(alloc, &job, &corr)?;
    Ok(told(alloc, &made)?.as_slice() == want.as_bytes())
}

#[test]
fn worked_jobs_have_these_options(rt: HostRuntime) -> Result<(), Fail> {
    for (text, want) in WORKED {
        assert!(rt; is_worked(rt.alloc(), text, want)?, "{text}");
    }
    Ok(())
}

#[test]
fn classes_have_one_value_or_none(rt: HostRuntime) -> Result<(), Fail> {
    for (text, want) in RULED {
        assert!(rt; is_shaped(rt.alloc(), text, want)?, "{text}");
    }
    Ok(())
}

#[test]
fn values_are_written_by_classes(rt: HostRuntime) -> Result<(), Fail> {
    for (text, picks, want) in VALUED {
        assert!(rt; completes(rt.alloc(), text, picks, want)?, "{want}");
    }
    Ok(())
}
