// Calls of the desk on texts in memory, and a worked job with its answer.
ghost use Rattle.mig_storage.specs.Meaning.{IsAtRest};

use mig_base::{Bytes, Seq, Word};
use mig_cli::desk;
use mig_io::{MemFiles, MemSink};
use mig_storage::{Store, VecStore};
use std::alloc::{AllocError, Global};

/// Parts of jobs, by the names that texts of tests give them.
const PARTS: [(&str, &str); 7] = [
    ("OLD", "old\ntable user { uid: int, nick: text }\n"),
    ("NEW", "new\ntable person { id: int, nick: text }\n"),
    (
        "PROGRAM",
        "program\nupdate add(id: int, nick: text) {\n  insert into user { user.uid = id, user.nick = nick };\n}\nquery all() {\n  select user.uid, user.nick from user;\n}\n",
    ),
    (
        "HINTS",
        "hints\nhint user.uid -> person.id 100;\nhint user.nick -> person.nick 100;\n",
    ),
    (
        "GETTING",
        "program\nupdate add(id: int, nick: text) {\n  insert into user { user.uid = id, user.nick = nick };\n}\nquery get(id: int) {\n  select user.nick from user where user.uid = id;\n}\n",
    ),
    // Two tables without links, and a deletion from both.
    (
        "CUTTING",
        "old\ntable A { id: int, x: int }\ntable B { id: int, y: int }\nnew\nprogram\nupdate addA(i: int, x: int) { insert into A { A.id = i, A.x = x }; }\nupdate addB(i: int, y: int) { insert into B { B.id = i, B.y = y }; }\nupdate cut(i: int) { delete A, B from A join B on A.id = B.id where A.id = i; }\nquery getA() { select A.x from A; }\nquery getB() { select B.y from B; }\n",
    ),
    // A schema of seventeen tables, each in a line of its own.
    (
        "TABLES",
        "old\ntable t0 { a: int }\ntable t1 { a: int }\ntable t2 { a: int }\ntable t3 { a: int }\ntable t4 { a: int }\ntable t5 { a: int }\ntable t6 { a: int }\ntable t7 { a: int }\ntable t8 { a: int }\ntable t9 { a: int }\ntable t10 { a: int }\ntable t11 { a: int }\ntable t12 { a: int }\ntable t13 { a: int }\ntable t14 { a: int }\ntable t15 { a: int }\ntable t16 { a: int }\n",
    ),
];

/// The answer to the job of the first four parts.
pub(crate) const ANSWER: &[u8] =
    b"answer 1\nprogram\nupdate add(id: int, nick: text) {\n  insert into person { person.id = id, person.nick = nick };\n}\nquery all() {\n  select person.id, person.nick from person;\n}\ninvariants\nview user { user.uid, user.nick } is person { person.id, person.nick };\ncertificate\npair add\nholds 0\nold\nstage 0 - 0\nfold 0 - 0 0\nnew\nstage 0 - 0\npair all\nanswers\nold\nfold 0 - 0 0\nnew\nend\n";

/// What a call of the desk left.
#[derive(Drop)]
pub(crate) struct Ended {
    pub(crate) status: u8,
    pub(crate) out: MemSink,
    pub(crate) err: MemSink,
}

impl Ended {
    pub(crate) fn is(&self, status: u8, out: &[u8], err: &str) -> bool {
        self.status == status && self.out.taken() == out && self.err.taken() == err.as_bytes()
    }

    /// Whether the answer to the first four parts was given.
    pub(crate) fn is_answer(&self) -> bool {
        self.is(0, ANSWER, "found: 0 entries\n")
    }
}

/// The part of this name, or the name itself where no part has it.
fn part(name: &str) -> &str {
    for (known, text) in PARTS {
        if known == name {
            return text;
        }
    }
    name
}

/// The parts between bars, one after the other: each by its name, or as it stands.
pub(crate) fn text_of(alloc: Global, parts: &str) -> Result<Bytes, AllocError> {
    let mut text = Seq::new(alloc);
    for name in parts.split('|') {
        text.extend_from_slice(part(name).as_bytes())?;
    }
    Ok(text)
}

/// The words of a line, a bar before each.
pub(crate) fn words_of(alloc: Global, line: &str) -> Result<Vec<Word>, AllocError> {
    let mut words = Vec::new(alloc);
    for word in line.split('|').skip(1) {
        words.push(Seq::from_slice(alloc, word.as_bytes())?)?;
    }
    Ok(words)
}

/// A sink with ample room.
pub(crate) fn ample(alloc: Global) -> Result<MemSink, AllocError> {
    MemSink::new(alloc, 4096, 4096, Seq::new(alloc))
}

/// A sink with room for the longest answer.
pub(crate) fn roomy(alloc: Global) -> Result<MemSink, AllocError> {
    MemSink::new(alloc, 100_000, 4096, Seq::new(alloc))
}

/// Files that fail at the listed calls, with a text under `job`.
pub(crate) fn one_file(alloc: Global, fails: &[u64], job: Bytes) -> Result<MemFiles, AllocError> {
    let mut files = MemFiles::new(alloc, Seq::from_slice(alloc, fails)?);
    files.hold(Seq::from_slice(alloc, b"job")?, job)?;
    Ok(files)
}

/// The desk on these words and files, with these sinks, over this store.
pub(crate) fn called_over<S: Store + Drop>(
    alloc: Global,
    line: &str,
    mut files: MemFiles,
    mut out: MemSink,
    mut err: MemSink,
    mut store: S,
) -> Result<Ended, AllocError>
    requires { IsAtRest (S.meaning store) }
{
    let words = words_of(alloc, line)?;
    let status = desk(
        alloc,
        words.as_slice(),
        &mut files,
        &mut out,
        &mut err,
        &mut store,
    );
    Ok(Ended { status, out, err })
}

/// The desk on these words, where only `job` holds a text.
pub(crate) fn called(
    alloc: Global,
    line: &str,
    text: Bytes,
    out: MemSink,
    err: MemSink,
) -> Result<Ended, AllocError> {
    let files = one_file(alloc, &[], text)?;
    called_over(alloc, line, files, out, err, VecStore::new(alloc))
}

/// The desk on these words and this job, with ample sinks.
pub(crate) fn called_on(alloc: Global, line: &str, text: Bytes) -> Result<Ended, AllocError> {
    let out = ample(alloc)?;
    let err = ample(alloc)?;
    called(alloc, line, text, out, err)
}

/// The migration of a job, with ample sinks.
pub(crate) fn migrated(alloc: Global, text: Bytes) -> Result<Ended, AllocError> {
    called_on(alloc, "|migrate|job", text)
}
