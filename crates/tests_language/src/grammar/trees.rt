// The trees of texts.
use super::tree_of;
use mig_base::{Seq, Txt};
use mig_grammar::{
    AssignTree, BodyTree, CmpTree, FunctionTree, HintTree, ItemTree, JoinTree, LinkTree,
    ScalarTree, SchemaTree, StmtTree, ValueTree,
};
use mig_schema::{Column, Kind, Op, Table};
use mig_tokens::Misread;
use std::alloc::{AllocError, Global};
use std::test::Fail;

const JOB: &str = "old
table user { uid: int, nick: text }
new
table person { id: int, nick: text }
link person.id = user.uid;
program
update add(id: int, nick: text) {
  insert into user { user.uid = id, user.nick = \"\\n\\\"\" };
  delete user from user join group on user.uid = group.uid where 1 < id or user.nick <> nick and 2 = -07;
}
query all() {
  select user.uid, user.nick from user;
}
hints
hint user.uid -> person.id 100;
hint user.nick -> person.nick 007;
";

/// Whether a text is this one.
fn is(text: &Txt, want: &str) -> bool {
    text.as_slice() == want.as_bytes()
}

fn is_column(column: &Column, name: &str, kind: Kind) -> bool {
    column.kind == kind && is(&column.name, name)
}

/// Whether a table has this name, and these columns of kinds int and text.
fn is_table(table: &Table, name: &str, first: &str, second: &str) -> bool {
    match table.columns.as_slice() {
        [a, b] => {
            is(&table.name, name)
                && is_column(a, first, Kind::Int)
                && is_column(b, second, Kind::Text)
        }
        _ => false,
    }
}

fn is_source(schema: &SchemaTree) -> bool {
    match schema.tables.as_slice() {
        [user] => is_table(user, "user", "uid", "nick") && schema.links.is_empty(),
        _ => false,
    }
}

fn is_link(link: &LinkTree) -> bool {
    is(&link.left.table, "person") && is(&link.right.column, "uid")
}

fn is_target(schema: &SchemaTree) -> bool {
    match (schema.tables.as_slice(), schema.links.as_slice()) {
        ([person], [link]) => is_table(person, "person", "id", "nick") && is_link(link),
        _ => false,
    }
}

fn is_second_value(value: &AssignTree) -> bool {
    match &value.value {
        ValueTree::Scalar(ScalarTree::Text(text)) => {
            is(&value.column.column, "nick") && is(text, "\n\"")
        }
        _ => false,
    }
}

fn is_insert(stmt: &StmtTree) -> bool {
    match stmt {
        StmtTree::Insert { join, values } => {
            is(&join.first, "user")
                && join.more.is_empty()
                && values.get(1).is_some_and(is_second_value)
        }
        _ => false,
    }
}

fn is_unequal(cmp: &CmpTree) -> bool {
    cmp.op == Op::Ne && matches!(&cmp.left, ItemTree::Col(_))
}

fn is_last(cmp: &CmpTree) -> bool {
    match &cmp.right {
        ItemTree::Scalar(ScalarTree::Int(int)) => is(int, "-07"),
        _ => false,
    }
}

/// Whether the second of two cases is the one of the text.
fn are_cases(cases: &[Seq<CmpTree>]) -> bool {
    match cases {
        [_, case] => match case.as_slice() {
            [first, second] => is_unequal(first) && is_last(second),
            _ => false,
        },
        _ => false,
    }
}

fn is_group(join: &JoinTree) -> bool {
    match join.more.as_slice() {
        [joined] => is(&joined.right.table, "group"),
        _ => false,
    }
}

fn is_delete(stmt: &StmtTree) -> bool {
    match stmt {
        StmtTree::Delete { tables, rows } => {
            tables.len() == 1 && is_group(&rows.join) && are_cases(rows.cases.as_slice())
        }
        _ => false,
    }
}

fn is_update(function: &FunctionTree) -> bool {
    match &function.body {
        BodyTree::Update(stmts) => match stmts.as_slice() {
            [insert, delete] => {
                function.params.len() == 2 && is_insert(insert) && is_delete(delete)
            }
            _ => false,
        },
        BodyTree::Query(_) => false,
    }
}

fn is_query(function: &FunctionTree) -> bool {
    match &function.body {
        BodyTree::Query(select) => {
            is(&function.name, "all")
                && function.params.is_empty()
                && select.columns.len() == 2
                && select.rows.cases.is_empty()
        }
        BodyTree::Update(_) => false,
    }
}

fn are_functions(functions: &[FunctionTree]) -> bool {
    match functions {
        [add, all] => is_update(add) && is_query(all),
        _ => false,
    }
}

fn is_second_hint(hint: &HintTree) -> bool {
    is(&hint.target.table, "person") && is(&hint.weight, "007")
}

fn are_hints(hints: &Option<Seq<HintTree>>) -> bool {
    match hints {
        Some(hints) => match hints.as_slice() {
            [_, second] => is_second_hint(second),
            _ => false,
        },
        None => false,
    }
}

#[test]
fn a_job_has_a_tree(rt: HostRuntime) -> Result<(), Misread> {
    let job = tree_of(rt.alloc(), JOB.as_bytes())?;
    assert!(rt; is_source(&job.source), "the old schema");
    assert!(rt; is_target(&job.target), "the new schema");
    assert!(rt; are_functions(job.functions.as_slice()), "the functions");
    assert!(rt; are_hints(&job.hints), "the hints");
    Ok(())
}

/// The job with each line feed written in another way.
fn with_gaps(alloc: Global, gap: &[u8]) -> Result<Vec<u8>, AllocError> {
    let mut text = Vec::new(alloc);
    for b in JOB.bytes() {
        if b == b'\n' {
            text.extend_from_slice(gap)?;
        } else {
            text.push(b)?;
        }
    }
    Ok(text)
}

#[test]
fn gaps_are_free(rt: HostRuntime) -> Result<(), Fail> {
    let gaps: [&[u8]; 4] = [b"\r\n", b" # \xff\x00 \" hint { \n", b"\t", b"\n\n\r"];
    for gap in &gaps {
        let text = with_gaps(rt.alloc(), gap)?;
        let job = tree_of(rt.alloc(), text.as_slice())?;
        assert!(rt; are_hints(&job.hints), "at {gap:?}");
    }
    Ok(())
}
