// Every front of a job, and where it is refused.
//
// Below each line stands a mark for each of its bytes, its line feed included. The text up to and with that byte is a job
// (`J`), is refused at its end (`.`), or at the start of its last word or sign (`<`).
use super::{fault_of, place_behind};
use mig_tokens::Misread;
use std::alloc::{AllocError, Global};
use std::process::Abort;
use std::test::Fail;

/// A table is renamed with its columns.
const RENAMED: [(&str, &str); 14] = [
    ("old", "<<.."),
    (
        "table user { uid: int, nick: text }",
        "<<<<..............<<.........<<<....",
    ),
    ("new", "<<.."),
    (
        "table person { id: int, nick: text }",
        "<<<<...............<<.........<<<....",
    ),
    ("program", "<<<<<<JJ"),
    (
        "update add(id: int, nick: text) {",
        "<<<<<..........<<.........<<<.....",
    ),
    (
        "  insert into user { user.uid = id, user.nick = nick };",
        "..<<<<<..<<<............................................",
    ),
    ("}", "JJ"),
    ("query all() {", "<<<<.........."),
    (
        "  select user.uid, user.nick from user;",
        "..<<<<<......................<<<........",
    ),
    ("}", "JJ"),
    ("hints", "<<<<JJ"),
    (
        "hint user.uid -> person.id 100;",
        "<<<...........<...............JJ",
    ),
    (
        "hint user.nick -> person.nick 100;",
        "<<<............<.................JJ",
    ),
];

/// Pictures move to a table of their own.
const PICTURES: [(&str, &str); 28] = [
    ("old", "<<.."),
    (
        "table Instructor { id: int, name: text, pic: text }",
        "<<<<...................<<.........<<<........<<<....",
    ),
    (
        "table TA { id: int, name: text, pic: text }",
        "<<<<...........<<.........<<<........<<<....",
    ),
    ("new", "<<.."),
    (
        "table Instructor { id: int, name: text, pid: key }",
        "<<<<...................<<.........<<<........<<....",
    ),
    (
        "table TA { id: int, name: text, pid: key }",
        "<<<<...........<<.........<<<........<<....",
    ),
    (
        "table Picture { pid: key, pic: text }",
        "<<<<.................<<........<<<....",
    ),
    (
        "link Instructor.pid = Picture.pid;",
        "<<<................................",
    ),
    ("link TA.pid = Picture.pid;", "<<<........................"),
    ("program", "<<<<<<JJ"),
    (
        "update addInstructor(id: int, name: text, pic: text) {",
        "<<<<<....................<<.........<<<........<<<.....",
    ),
    (
        "  insert into Instructor { Instructor.id = id, Instructor.name = name, Instructor.pic = pic };",
        "..<<<<<..<<<...................................................................................",
    ),
    ("}", "JJ"),
    (
        "update deleteInstructor(id: int) {",
        "<<<<<.......<...............<<.....",
    ),
    (
        "  delete Instructor from Instructor where Instructor.id = id;",
        "..<<<<<.............<<<.............<<<<......................",
    ),
    ("}", "JJ"),
    (
        "query getInstructor(id: int) {",
        "<<<<....................<<.....",
    ),
    (
        "  select Instructor.name, Instructor.pic from Instructor where Instructor.id = id;",
        "..<<<<<..................................<<<.............<<<<......................",
    ),
    ("}", "JJ"),
    (
        "update addTA(id: int, name: text, pic: text) {",
        "<<<<<............<<.........<<<........<<<.....",
    ),
    (
        "  insert into TA { TA.id = id, TA.name = name, TA.pic = pic };",
        "..<<<<<..<<<...................................................",
    ),
    ("}", "JJ"),
    ("update deleteTA(id: int) {", "<<<<<.......<.......<<....."),
    (
        "  delete TA from TA where TA.id = id;",
        "..<<<<<.....<<<.....<<<<..............",
    ),
    ("}", "JJ"),
    ("query getTA(id: int) {", "<<<<............<<....."),
    (
        "  select TA.name, TA.pic from TA where TA.id = id;",
        "..<<<<<..................<<<.....<<<<..............",
    ),
    ("}", "JJ"),
];

/// How many bytes the last word takes, or the last sign.
fn last_word(text: &[u8]) -> u32 {
    let mut length: u32 = 0;
    for b in text.iter().rev() {
        if !b.is_ascii_alphanumeric() {
            break;
        }
        length = length.saturating_add(1);
    }
    length.max(1)
}

/// How a text is refused at this mark.
fn refusal(text: &[u8], mark: u8) -> Option<Misread> {
    let (line, end) = place_behind(text);
    let column = match mark {
        b'<' => end.saturating_sub(last_word(text)),
        _ => end,
    };
    match mark {
        b'J' => None,
        _ => Some(Misread::At { line, column }),
    }
}

fn check(rt: &impl Abort, alloc: Global, lines: &[(&str, &str)]) -> Result<(), AllocError> {
    let mut text = Vec::new(alloc);
    for (line, marks) in lines {
        for (b, mark) in line.bytes().chain("\n".bytes()).zip(marks.bytes()) {
            text.push(b)?;
            let is = fault_of(alloc, text.as_slice()) == refusal(text.as_slice(), mark);
            assert!(rt; is, "{} bytes", text.len());
        }
    }
    Ok(())
}

#[test]
fn fronts_of_a_renaming(rt: HostRuntime) -> Result<(), Fail> {
    check(&rt, rt.alloc(), &RENAMED)?;
    Ok(())
}

#[test]
fn fronts_of_moved_pictures(rt: HostRuntime) -> Result<(), Fail> {
    check(&rt, rt.alloc(), &PICTURES)?;
    Ok(())
}
