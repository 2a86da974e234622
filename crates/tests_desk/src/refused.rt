// Words, files and texts that are refused, each with its line.
use crate::calling::{called_on, migrated, text_of};
use std::alloc::{AllocError, Global};
use std::test::Fail;

/// Words, a bar before each, their status and their line. No other file than `job` is there.
const WORDS: [(&str, u8, &str); 16] = [
    ("", 1, "words: no command\n"),
    ("|move", 1, "words: unknown word 1\n"),
    ("|migrate", 1, "words: missing\n"),
    ("|migrate|a|b", 1, "words: unknown word 3\n"),
    ("|migrate|a|--budget|0", 1, "words: number at 4\n"),
    ("|migrate|a|--budget|5|--budget|5", 1, "words: twice at 5\n"),
    ("|check|job", 1, "words: missing\n"),
    ("|check|job|job", 2, "job:1:1: not expected\n"),
    ("|check|job|jo", 6, "jo: cannot read\n"),
    ("|check|jo|job", 6, "jo: cannot read\n"),
    ("|run|job|jo", 6, "jo: cannot read\n"),
    ("|run|jo|job", 6, "jo: cannot read\n"),
    ("|run|job|job|jo", 11, "job: record 1: unknown\n"),
    ("|trial|1", 1, "words: not built\n"),
    ("|migrate|jo", 6, "jo: cannot read\n"),
    ("|migrate|", 6, ": cannot read\n"),
];

fn are_refused(alloc: Global, line: &str, status: u8, report: &str) -> Result<bool, AllocError> {
    let text = text_of(alloc, "OLD|NEW|PROGRAM|HINTS")?;
    Ok(called_on(alloc, line, text)?.is(status, &[], report))
}

#[test]
fn words_and_missing_files_are_refused(rt: HostRuntime) -> Result<(), Fail> {
    for (line, status, report) in WORDS {
        let right = are_refused(rt.alloc(), line, status, report)?;
        assert!(rt; right, "{line}");
    }
    Ok(())
}

/// Texts in parts that are not answered, their status and their line.
const TEXTS: [(&str, u8, &str); 12] = [
    ("old\ntable t { a: int, }\n", 2, "job:2:19: not expected\n"),
    (
        "OLD|NEW|PROGRAM|hints\nhint user.uid -> person.id 100;\n}",
        2,
        "job:14:1: not expected\n",
    ),
    (
        "old\ntable a_name_of_33_bytes_is_one_too_lon { a: int }\n|NEW|PROGRAM|HINTS",
        10,
        "job:2: limit name\n",
    ),
    (
        "OLD|NEW|PROGRAM|hints\nhint user.uid -> person.id 101;\n",
        10,
        "job:13: limit hint\n",
    ),
    (
        "OLD|NEW|program\nquery all() {\n  select user.uid from user where user.uid = 9223372036854775808;\n}\n|HINTS",
        10,
        "job:7: limit int\n",
    ),
    (
        "old\ntable user { uid: int, nick: text }\ntable user { uid: int, nick: text }\n|NEW|PROGRAM|HINTS",
        2,
        "job: OldTableTwice at 1 0\n",
    ),
    (
        "old\ntable user { uid: int, nick: text }\nlink user.uid = user.uid;\n|NEW|PROGRAM|HINTS",
        2,
        "job: OldLinkTables at 0 0\n",
    ),
    (
        "OLD|new\ntable person { id: int, nick: text, id: int }\n|PROGRAM|HINTS",
        2,
        "job: NewColumnTwice at 0 2\n",
    ),
    (
        "OLD|NEW|program\nupdate add(id: int) {\n  insert into user { user.uid = id };\n}\n|HINTS",
        2,
        "job: InsertCover at 0 0\n",
    ),
    (
        "OLD|NEW|program\nupdate add(id: int) {\n  insert into user { user.uid = id, user.nick = \"\" };\n}\nquery get() {\n  select user.uid from user where user.nick < \"b\";\n}\n|HINTS",
        2,
        "job: OrderKind at 1 0\n",
    ),
    (
        "OLD|NEW|PROGRAM|hints\nhint user.uid -> person.id 100;\nhint user.nick -> person.nick 100;\nhint user.nick -> person.nick 100;\n",
        2,
        "job: HintTwice at 2 0\n",
    ),
    ("TABLES|NEW|PROGRAM|HINTS", 10, "job:18: limit tables\n"),
];

fn is_refused(alloc: Global, parts: &str, status: u8, report: &str) -> Result<bool, AllocError> {
    let text = text_of(alloc, parts)?;
    Ok(migrated(alloc, text)?.is(status, &[], report))
}

#[test]
fn texts_are_refused_with_their_lines(rt: HostRuntime) -> Result<(), Fail> {
    for (parts, status, report) in TEXTS {
        let right = is_refused(rt.alloc(), parts, status, report)?;
        assert!(rt; right, "{report}");
    }
    Ok(())
}
