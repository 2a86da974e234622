// A job from a tree with names that are there and names that are not.
use mig_base::{Exact, Seq, Txt};
use mig_grammar::{ColName, HintTree, JobTree, read_tree};
use mig_schema::{Body, ColId, Hint, Job, Scalar, Stmt};
use mig_syntax::job_of_tree;
use mig_tokens::Misread;
use std::alloc::{AllocError, Global};

const NONE: u32 = 4_294_967_295;

/// A hint's left end and its weight, as written and as numbers.
const HINTS: [(&str, &str, &str, u32, u32, u32); 5] = [
    ("user", "uid", "100", 0, 0, 100),
    ("user", "nick", "007", 0, 1, 7),
    ("user", "age", "0", 0, NONE, 0),
    ("nobody", "uid", "101", NONE, NONE, 0),
    ("group", "nick", "-5", 1, 0, 0),
];

/// An insert of the second parameter into a column of the second table, whose second column has the same name; and a query.
const JOB: &str = "old table user { uid: int, nick: int } table group { nick: int, nick: int }
new table person { id: int, nick: int }
program
update put(a: int, b: int) { insert into group { group.nick = b }; }
query get() { select user.nick from user; }
";

fn txt(alloc: Global, text: &str) -> Result<Txt, AllocError> {
    Seq::from_slice(alloc, text.as_bytes())
}

fn col(alloc: Global, table: &str, column: &str) -> Result<ColName, AllocError> {
    let table = txt(alloc, table)?;
    let column = txt(alloc, column)?;
    Ok(ColName { table, column })
}

fn hints(alloc: Global) -> Result<Seq<HintTree>, AllocError> {
    let mut hints = Seq::new(alloc);
    for (table, column, weight, _, _, _) in &HINTS {
        let source = col(alloc, table, column)?;
        let target = col(alloc, "person", "nick")?;
        let weight = txt(alloc, weight)?;
        hints.push(HintTree {
            source,
            target,
            weight,
        })?;
    }
    Ok(hints)
}

/// The tree of the text, with hints that no text has.
fn tree(alloc: Global) -> Result<JobTree, Misread> {
    let mut tree = read_tree(alloc, JOB.as_bytes())?;
    tree.hints = Some(hints(alloc)?);
    Ok(tree)
}

/// Whether the update inserts parameter 1 into column 0 of table 1, and the query selects column 1 of table 0.
fn has_numbers(job: &Job) -> bool {
    match job.program.functions.as_slice() {
        [put, get] => inserts(&put.body) && selects(&get.body),
        _ => false,
    }
}

fn inserts(body: &Body) -> bool {
    let Body::Update(stmts) = body else {
        return false;
    };
    let [Stmt::Insert { join, values }] = stmts.as_slice() else {
        return false;
    };
    let [value] = values.as_slice() else {
        return false;
    };
    let Scalar::Param(p) = &value.value else {
        return false;
    };
    join.first == 1
        && value.column
            == ColId {
                table: 1,
                column: 0,
            }
        && *p == 1
}

fn selects(body: &Body) -> bool {
    let Body::Query(query) = body else {
        return false;
    };
    let columns = query.columns.as_slice();
    query.join.first == 0
        && query.cond.cases.len() == 1
        && columns
            == [ColId {
                table: 0,
                column: 1,
            }]
            .as_slice()
}

/// Whether a hint has these numbers, and column 1 of table 0 at its right end.
fn is_hint(hint: &Hint, t: u32, c: u32, weight: u32) -> bool {
    let source = ColId {
        table: t,
        column: c,
    };
    let target = ColId {
        table: 0,
        column: 1,
    };
    *hint
        == Hint {
            source,
            target,
            weight,
        }
}

#[test]
fn names_become_numbers(rt: HostRuntime) -> Result<(), Misread> {
    let tree = tree(rt.alloc())?;
    let job = job_of_tree(rt.alloc(), &tree)?;
    assert!(rt; has_numbers(&job));
    assert_eq!(rt; job.hints.len(), 5);
    for (hint, (table, column, digits, t, c, weight)) in job.hints.as_slice().iter().zip(&HINTS) {
        assert!(rt; is_hint(hint, *t, *c, *weight), "{table}.{column} {digits}");
    }
    Ok(())
}
