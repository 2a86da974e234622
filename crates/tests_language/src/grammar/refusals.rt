// Texts with a wrong token. It stands behind the mark `^`, which is no part of the text.
use super::{fault_of, functions_fault_of, repeated, unmarked};
use std::alloc::{AllocError, Global};
use std::test::Fail;

/// Texts of jobs.
const JOBS: [&[u8]; 25] = [
    b"^",
    b"# old\n^",
    b"^new",
    b"old ^old",
    b"old\nnew\n^",
    b"old\r^olde",
    b"old\ntable t { a: int, ^}\n",
    b"old table ^table { a: int }",
    b"old table t { ^}",
    b"old table t { a ^int }",
    b"old table t { a: ^bool }",
    b"old link a.b = c ^= d.e;",
    b"old link a.b = c.d; ^table t { a: int }",
    b"old new program update u(p: ^key) { }",
    b"old new program update u(p: int,^) { }",
    b"old new program update u() { ^}",
    b"old new program query q() { ^}",
    b"old new program query q() { select b.c from b; ^select b.c from b; }",
    b"old new program ^hint a.b -> c.d 1;",
    b"old new program hints ^query q() { select b.c from b; }",
    b"old new program hints hint a.b ^- > c.d 1;",
    b"old new program hints hint a.b -> c.d ^x;",
    b"old new program hints hint a.b -> c.d 1 ^",
    b"old new program # \r hints\n^}",
    b"old^\xff\xff",
];

/// Whether a job is refused at its mark, and read where it has none.
fn stops_at_mark(alloc: Global, marked: &[u8]) -> Result<bool, AllocError> {
    let (text, fault) = unmarked(alloc, marked)?;
    Ok(fault_of(alloc, text.as_slice()) == fault)
}

#[test]
fn a_wrong_token_is_refused_where_it_stands(rt: HostRuntime) -> Result<(), Fail> {
    for marked in &JOBS {
        assert!(rt; stops_at_mark(rt.alloc(), marked)?, "at {marked:?}");
    }
    Ok(())
}

/// What stands behind `where t.a = `.
const VALUES: [&[u8]; 16] = [
    b"^\"x;\n}",
    b"^\"\\t\";\n}",
    b"^\"\xc3(\";\n}",
    b"^\"a\nb\";\n}",
    b"^\"a\\",
    b"^- 1;\n}",
    b"^+1;\n}",
    b"^old;\n}",
    b"^fresh 1;\n}",
    b"^(1);\n}",
    b"1^.a;\n}",
    b"p ^q;\n}",
    b"1;\n^",
    b"1; # }^",
    b"# a\r 1;\n^}",
    b"\"\\\"\\\\\\n\xc3\xa9\" and ^;\n}",
];

#[test]
fn a_broken_value_is_refused_where_it_begins(rt: HostRuntime) -> Result<(), Fail> {
    for tail in &VALUES {
        let mut marked = Vec::from_slice(rt.alloc(), HEAD.as_bytes())?;
        marked.extend_from_slice(tail)?;
        assert!(rt;
            stops_at_mark(rt.alloc(), marked.as_slice())?,
            "at {tail:?}"
        );
    }
    Ok(())
}

const HEAD: &str = "old table t { a: int }
new table t { a: int }
program
query q() {
  select t.a from t where t.a = ";

/// Functions of each form; some have a wrong token.
const FUNCTIONS: [&[u8]; 14] = [
    b"",
    b"update a() { delete b, c from b join c on b.d = c.d where b.d <> 1 and 1 < p or b.d >= 2; }",
    b"update a() { set b.c = \"x\" in b join c on b.d = c.d;\ninsert into b join c on b.d = c.e { b.d = fresh 1, c.f = -2 }; }",
    b"query a() { select b.c, b.d from b where b.c = p and 2 > b.d; }\nquery a(p: int, q: text) { select b.c from b; }",
    b"query a() { select b.c from b where b.c^; }",
    b"query a() { select b.c from b where b = c and ^; }",
    b"query a() { select b.c from b where b = ^fresh 1; }",
    b"query a() { select b.c from b join c on b ^= c; }",
    b"query a() { select b.c, ^from b; }",
    b"update a() { delete ^from b; }",
    b"update a() { set b.c = ^fresh 1 in b; }",
    b"update a() { ^select b.c from b; }",
    b"update a() { insert into b { b.c = 1, ^}; }",
    b"query a() { select b.c from b; }\n^hints",
];

/// Whether functions are refused at their mark, and read where they have none.
fn functions_stop_at_mark(alloc: Global, marked: &[u8]) -> Result<bool, AllocError> {
    let (text, fault) = unmarked(alloc, marked)?;
    Ok(functions_fault_of(alloc, text.as_slice()) == fault)
}

#[test]
fn functions_alone_are_read_likewise(rt: HostRuntime) -> Result<(), Fail> {
    for marked in &FUNCTIONS {
        assert!(rt;
            functions_stop_at_mark(rt.alloc(), marked)?,
            "at {marked:?}"
        );
    }
    Ok(())
}

const RESERVED: [&str; 25] = [
    "old", "new", "program", "hints", "table", "link", "update", "query", "insert", "into",
    "delete", "from", "set", "in", "select", "where", "join", "on", "and", "or", "int", "text",
    "key", "fresh", "hint",
];

/// Whether a word is refused as a table's name.
fn is_no_name(alloc: Global, word: &str) -> Result<bool, AllocError> {
    let parts = ["old table ^", word, " { b: int } new program hints"];
    let marked = repeated(alloc, parts, 1)?;
    stops_at_mark(alloc, marked.as_slice())
}

/// Whether a word that stands twice is read as a table's name.
fn is_name_twice(alloc: Global, word: &str) -> Result<bool, AllocError> {
    let parts = ["old table ", word, " { b: int } new program"];
    let text = repeated(alloc, parts, 2)?;
    Ok(fault_of(alloc, text.as_slice()).is_none())
}

#[test]
fn reserved_words_are_no_names(rt: HostRuntime) -> Result<(), Fail> {
    for word in &RESERVED {
        assert!(rt; is_no_name(rt.alloc(), word)?, "at {word}");
        assert!(rt; is_name_twice(rt.alloc(), word)?, "at {word} twice");
    }
    Ok(())
}
