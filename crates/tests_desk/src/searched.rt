// Jobs that are searched: how each search ends, and what is told of it.
use crate::calling::{Ended, called, roomy, text_of};
use std::alloc::{AllocError, Global};
use std::test::Fail;

/// A table gives its pictures to another one. Deleting the picture alone leaves the name.
const PICTURES: &str =
    "old\ntable Instructor { id: int, name: text, pic: text }\nnew\ntable Picture { pid: key, pic: text }\ntable Instructor { id: int, name: text, pid: key }\nlink Instructor.pid = Picture.pid;\nprogram\nupdate add(id: int, name: text, pic: text) { insert into Instructor { Instructor.id = id, Instructor.name = name, Instructor.pic = pic }; }\nupdate del(id: int) { delete Instructor from Instructor where Instructor.id = id; }\nquery getName(id: int) { select Instructor.name from Instructor where Instructor.id = id; }\n";

/// A table is split, and no key joins its parts again.
const SPLIT: &str =
    "old\ntable P { id: int, name: text, city: text }\nnew\ntable A { id: int, name: text }\ntable B { id: int, city: text }\nlink A.id = B.id;\nprogram\nupdate add(id: int, name: text, city: text) { insert into P { P.id = id, P.name = name, P.city = city }; }\nquery get(id: int) { select P.name, P.city from P where P.id = id; }\n";

/// Two new tables without a link.
const UNLINKED: &str =
    "old\ntable t { a: int, b: int }\nnew\ntable u { a: int }\ntable v { b: int }\nprogram\nupdate add(a: int, b: int) { insert into t { t.a = a, t.b = b }; }\n";

/// A new column that is no image of an old one.
const WIDER: &str =
    "old\ntable t { a: int }\nnew\ntable t { a: int, b: text }\nprogram\nupdate add(a: int) { insert into t { t.a = a }; }\n";

/// Two correspondences of equal weight.
const TIED: &str =
    "old\ntable t { a: int, b: int }\nnew\ntable t { x: int, y: int }\nprogram\nupdate add(a: int, b: int) { insert into t { t.a = a, t.b = b }; }\nquery get(a: int) { select t.b from t where t.a = a; }\n";

/// Words, a job, the status, and what is on `err`.
const SEARCHES: [(&str, &str, &str, u8, &str); 11] = [
    (
        "a rename without hints",
        "|migrate|job",
        "OLD|NEW|PROGRAM",
        0,
        "found: 0 entries\n",
    ),
    (
        "a rename to the same name",
        "|migrate|job",
        "OLD|new\ntable user { id: int, nick: text }\n|GETTING",
        0,
        "found: 0 entries\n",
    ),
    (
        "two correspondences",
        "|migrate|job",
        TIED,
        0,
        "found: 0 entries\n",
    ),
    (
        "a deletion from both",
        "|migrate|job",
        PICTURES,
        0,
        "entry 1: refuted: add(0, \"a\", \"a\"); del(0); getName(0)\nfound: 1 entries\n",
    ),
    (
        "its budget",
        "|migrate|job|--budget|1",
        PICTURES,
        4,
        "entry 1: refuted: add(0, \"a\", \"a\"); del(0); getName(0)\nspent: 1 entries\n",
    ),
    (
        "a split",
        "|migrate|job",
        SPLIT,
        3,
        "entry 1: refuted: add(0, \"a\", \"a\"); add(0, \"a\", \"a\"); get(0)\nentry 2: no option: add\nentry 3: no option: add\nentry 4: refuted: add(0, \"a\", \"a\"); add(0, \"a\", \"a\"); get(0)\nentry 5: no option: add\nentry 6: no option: add\nentry 7: no option: add\nexhausted: 7 entries\n",
    ),
    (
        "a split without tests",
        "|migrate|--tests|0|job|--maps|1",
        SPLIT,
        3,
        "entry 1: unproved: get\nexhausted: 1 entries\n",
    ),
    (
        "no link",
        "|migrate|job",
        UNLINKED,
        3,
        "entry 1: no option: add\nentry 2: no option: add\nentry 3: no option: add\nentry 4: no option: add\nentry 5: no option: add\nentry 6: no option: add\nentry 7: no option: add\nexhausted: 7 entries\n",
    ),
    (
        "no link, one correspondence",
        "|migrate|job|--maps|1",
        UNLINKED,
        3,
        "entry 1: no option: add\nexhausted: 1 entries\n",
    ),
    (
        "no correspondence",
        "|migrate|job",
        WIDER,
        3,
        "exhausted: 0 entries\n",
    ),
    (
        "no functions",
        "|migrate|job",
        "OLD|NEW|program\n",
        0,
        "found: 0 entries\n",
    ),
];

/// What the words leave on this job.
fn searched(alloc: Global, line: &str, parts: &str) -> Result<Ended, AllocError> {
    let text = text_of(alloc, parts)?;
    called(alloc, line, text, roomy(alloc)?, roomy(alloc)?)
}

/// Whether a search ends so; an answer is there with 0 alone.
fn is_right(
    alloc: Global,
    line: &str,
    parts: &str,
    status: u8,
    report: &str,
) -> Result<bool, AllocError> {
    let ended = searched(alloc, line, parts)?;
    let told = ended.status == status && ended.err.taken() == report.as_bytes();
    Ok(told && ended.out.taken().is_empty() == (status != 0))
}

#[test]
fn searches_end_as_worked_out(rt: HostRuntime) -> Result<(), Fail> {
    for (name, line, parts, status, report) in SEARCHES {
        let right = is_right(rt.alloc(), line, parts, status, report)?;
        assert!(rt; right, "{name}");
    }
    Ok(())
}
