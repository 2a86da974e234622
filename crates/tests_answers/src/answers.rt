// Answers from texts.
use mig_answer::print_answer;
use mig_reading::read_answer;
use mig_schema::{Job, Limit};
use mig_syntax::{TextFault, read_job};
use std::alloc::{AllocError, Global};
use std::test::Fail;

/// A job that renames a table with its columns.
const JOB: &str = "old
table user { uid: int, nick: text }
new
table person { id: int, nick: text }
program
update add(id: int, nick: text) {
  insert into user { user.uid = id, user.nick = nick };
}
query all() { select user.uid, user.nick from user; }
";

/// An answer to it.
const ANSWER: &str = "answer 1
program
update add(id: int, nick: text) {
  insert into person { person.id = id, person.nick = nick };
}
query all() {
  select person.id, person.nick from person;
}
invariants
view user { user.uid, user.nick } is person { person.id, person.nick };
certificate
pair add
holds 0
old
stage 0 - 0
fold 0 - 0 0
new
stage 0 - 0
pair all
answers
old
fold 0 - 0 0
new
end
";

/// What a change is called, what it replaces in the answer, once, by what, and what comes of it: `ok`, a line and a column, a limit and a line, or `typing`.
const CHANGES: [(&str, &str, &str, &str); 45] = [
    ("the answer itself", "end\n", "end\n", "ok"),
    ("two spaces for one", "view user", "view  user", "10:7"),
    (
        "a term with a leading zero",
        "fold 0 - 0 0\nnew\nstage",
        "fold 00 - 0 0\nnew\nstage",
        "16:6",
    ),
    (
        "an invariant's number with a leading zero",
        "holds 0",
        "holds 00",
        "13:7",
    ),
    ("the greatest number", "holds 0", "holds 4294967295", "ok"),
    ("a number past it", "holds 0", "holds 4294967296", "13:7"),
    ("a line behind the end", "end\n", "end\nend\n", "25:1"),
    ("a line feed behind the end", "end\n", "end\n\n", "26:1"),
    ("no line feed at the end", "end\n", "end", "24:4"),
    ("a tab for a space", "pair add", "pair\tadd", "12:6"),
    (
        "a space for a line feed",
        "answers\nold",
        "answers old",
        "20:9",
    ),
    (
        "an empty line",
        "certificate\npair add",
        "certificate\n\npair add",
        "13:1",
    ),
    (
        "a space before a line feed",
        "holds 0\n",
        "holds 0 \n",
        "14:1",
    ),
    (
        "no rule",
        "fold 0 - 0 0\nnew\nstage",
        "folds 0 - 0 0\nnew\nstage",
        "16:1",
    ),
    (
        "a path",
        "stage 0 - 0\nfold",
        "stage 0 1.20.3 0\nfold",
        "ok",
    ),
    (
        "a path with a dot behind it",
        "stage 0 - 0\nfold",
        "stage 0 1. 0\nfold",
        "15:12",
    ),
    (
        "a number below 0 in place of a path",
        "stage 0 - 0\nfold",
        "stage 0 -0 0\nfold",
        "15:9",
    ),
    ("no path", "stage 0 - 0\nfold", "stage 0\nfold", "16:1"),
    ("no arguments", "stage 0 - 0\nfold", "stage 0 -\nfold", "ok"),
    (
        "16 numbers in a path",
        "stage 0 - 0\nfold",
        "stage 0 1.1.1.1.1.1.1.1.1.1.1.1.1.1.1.1 0\nfold",
        "ok",
    ),
    (
        "17 numbers in a path",
        "stage 0 - 0\nfold",
        "stage 0 1.1.1.1.1.1.1.1.1.1.1.1.1.1.1.1.1 0\nfold",
        "limit path 15",
    ),
    (
        "16 arguments",
        "stage 0 - 0\nfold",
        "stage 0 - 1 1 1 1 1 1 1 1 1 1 1 1 1 1 1 1\nfold",
        "ok",
    ),
    (
        "17 arguments",
        "stage 0 - 0\nfold",
        "stage 0 - 1 1 1 1 1 1 1 1 1 1 1 1 1 1 1 1 1\nfold",
        "limit args 15",
    ),
    (
        "a name of 32 bytes",
        "pair add",
        "pair aaaaaaaaaaaaaaaaaaaaaaaaaaaaaaaa",
        "ok",
    ),
    (
        "a name of 33 bytes",
        "pair add",
        "pair aaaaaaaaaaaaaaaaaaaaaaaaaaaaaaaaa",
        "limit name 12",
    ),
    ("a reserved word as a name", "pair add", "pair old", "12:6"),
    (
        "a pair without entries",
        "pair all\nanswers\nold\nfold 0 - 0 0\nnew\n",
        "pair all\n",
        "ok",
    ),
    (
        "the sides of an entry exchanged",
        "answers\nold",
        "answers\nnew",
        "21:1",
    ),
    (
        "two spaces in the program",
        "insert into person",
        "insert  into person",
        "4:11",
    ),
    (
        "a line feed left out of the program",
        "{\n  insert",
        "{ insert",
        "3:35",
    ),
    (
        "a comment in the program",
        "}\nquery",
        "}\n# all\nquery",
        "7:1",
    ),
    (
        "no space in the program",
        "person.id = id",
        "person.id= id",
        "4:33",
    ),
    (
        "a column that the schema doesn't have, in the program",
        "person.nick from",
        "person.nack from",
        "typing",
    ),
    (
        "a column that the schema doesn't have, in a view",
        "user.nick }",
        "user.nack }",
        "ok",
    ),
    (
        "a view without outputs",
        "{ person.id, person.nick };\ncertificate",
        "{ };\ncertificate",
        "10:47",
    ),
    (
        "no semicolon behind an invariant",
        "person.nick };\ncertificate",
        "person.nick }\ncertificate",
        "11:1",
    ),
    (
        "a column that is unique",
        "certificate\npair add",
        "unique old user.uid;\ncertificate\npair add",
        "ok",
    ),
    (
        "two columns that are apart",
        "certificate\npair add",
        "apart old user.uid user.nick;\ncertificate\npair add",
        "ok",
    ),
    (
        "a column within another",
        "certificate\npair add",
        "within new person.id person.nick;\ncertificate\npair add",
        "ok",
    ),
    (
        "no side",
        "certificate\npair add",
        "unique user.uid;\ncertificate\npair add",
        "11:8",
    ),
    (
        "another number of the format",
        "answer 1",
        "answer 2",
        "1:8",
    ),
    (
        "a leading zero in the first line",
        "answer 1",
        "answer 01",
        "1:8",
    ),
    (
        "two spaces in the first line",
        "answer 1",
        "answer  1",
        "1:9",
    ),
    (
        "no invariants",
        "invariants\nview",
        "certificate\nview",
        "9:1",
    ),
    ("a byte of no word", "pair add", "pair adé", "12:8"),
];

fn job(alloc: Global) -> Result<Job, TextFault> {
    let bytes = JOB.as_bytes();
    if bytes.len() < 1 << 31 {
        read_job(alloc, bytes)
    } else {
        Err(TextFault::Memory)
    }
}

fn limit_name(which: Limit) -> &'static str {
    match which {
        Limit::Path => "path",
        Limit::Args => "args",
        Limit::Steps => "steps",
        Limit::Name => "name",
        _ => "other",
    }
}

/// What comes of a text.
fn outcome(alloc: Global, job: &Job, text: &[u8]) -> Result<String, AllocError> {
    if 1 << 31 <= text.len() {
        return format!(in alloc; "long");
    }
    match read_answer(alloc, job, text) {
        Ok(_) => format!(in alloc; "ok"),
        Err(TextFault::Memory) => format!(in alloc; "memory"),
        Err(TextFault::Typing(_)) => format!(in alloc; "typing"),
        Err(TextFault::At { line, column }) => format!(in alloc; "{line}:{column}"),
        Err(TextFault::Limit { which, line }) => {
            let name = limit_name(which);
            format!(in alloc; "limit {name} {line}")
        }
    }
}

/// The answer with a change.
fn changed(alloc: Global, old: &str, new: &str) -> Result<String, AllocError> {
    match ANSWER.split_once(old) {
        Some((front, rest)) => format!(in alloc; "{front}{new}{rest}"),
        None => format!(in alloc; ""),
    }
}

/// Whether this comes of the answer with a change.
fn is_told(alloc: Global, job: &Job, old: &str, new: &str, want: &str) -> Result<bool, AllocError> {
    let text = changed(alloc, old, new)?;
    let found = outcome(alloc, job, text.as_bytes())?;
    Ok(found.as_bytes() == want.as_bytes())
}

#[test]
fn changed_answers_are_told_apart(rt: HostRuntime) -> Result<(), Fail> {
    let job = job(rt.alloc())?;
    for (name, old, new, want) in CHANGES {
        let right = is_told(rt.alloc(), &job, old, new, want)?;
        assert!(rt; right, "{name}");
    }
    Ok(())
}

/// Whether the first bytes of the answer are refused at a place.
fn is_refused(alloc: Global, job: &Job, bytes: &[u8]) -> bool {
    if 1 << 31 <= bytes.len() {
        return false;
    }
    match read_answer(alloc, job, bytes) {
        Err(TextFault::At { .. }) => true,
        _ => false,
    }
}

#[test]
fn fronts_of_an_answer_are_refused(rt: HostRuntime) -> Result<(), Fail> {
    let job = job(rt.alloc())?;
    let bytes = ANSWER.as_bytes();
    for n in 0..bytes.len() {
        assert!(rt; is_refused(rt.alloc(), &job, &bytes[..n]), "{n}");
    }
    Ok(())
}

/// Whether what is read is printed as the same text.
fn is_printed_back(alloc: Global, job: &Job, bytes: &[u8]) -> Result<bool, Fail> {
    if 1 << 31 <= bytes.len() {
        return Ok(false);
    }
    let (program, certificate) = read_answer(alloc, job, bytes)?;
    let printed = print_answer(alloc, job, &program, &certificate)?;
    Ok(printed.as_slice() == bytes)
}

#[test]
fn what_is_read_is_printed_back(rt: HostRuntime) -> Result<(), Fail> {
    let job = job(rt.alloc())?;
    assert!(rt;
        is_printed_back(rt.alloc(), &job, ANSWER.as_bytes())?,
        "the answer"
    );
    Ok(())
}
