// Each typing rule, broken by a text once.
use mig_schema::{HintRule, Limit, ProgramRule, SchemaRule, Side, TypeFault};
use mig_syntax::{TextFault, read_job};
use std::alloc::{AllocError, Global};

/// A text, and the side, rule and numbers of its first broken rule.
const SCHEMAS: [(&str, Side, SchemaRule, u32, u32); 6] = [
    (
        "old table t { a: int } table t { a: int } new table t { a: int } table t { a: int } program",
        Side::Old,
        SchemaRule::TableTwice,
        1,
        0,
    ),
    (
        "old new table t { a: int } table t { a: int } program query q() { select t.a from t; }",
        Side::New,
        SchemaRule::TableTwice,
        1,
        0,
    ),
    (
        "old table t { a: int, b: int, a: text, b: int } new program",
        Side::Old,
        SchemaRule::ColumnTwice,
        0,
        2,
    ),
    (
        "old table t { a: int } link t.a = t.b; new program",
        Side::Old,
        SchemaRule::LinkEnd,
        0,
        0,
    ),
    (
        "old table t { a: int } link t.a = t.a; new program",
        Side::Old,
        SchemaRule::LinkTables,
        0,
        0,
    ),
    (
        "old new table t { a: int } table s { a: text } link t.a = s.a; program",
        Side::New,
        SchemaRule::LinkKinds,
        0,
        0,
    ),
];

/// Two old tables, and a new one.
const HEAD: &str =
    "old table u { id: int, nick: text, k: key } table v { id: int, nick: text, k: key } link u.k = v.k; new table p { id: int, nick: text, k: key } program ";

/// A function that breaks no rule.
const RIGHT: &str = "query f() { select u.id from u; } ";

/// A function behind the right one, the first rule that it breaks, and at which statement.
const PROGRAMS: [(&str, ProgramRule, u32); 11] = [
    (
        "query f() { select u.id from u; }",
        ProgramRule::FunctionTwice,
        0,
    ),
    (
        "query g(a: int, a: int) { select u.id from u; }",
        ProgramRule::ParameterTwice,
        0,
    ),
    (
        "query g() { select u.id from w; }",
        ProgramRule::UnknownTable,
        0,
    ),
    (
        "query g() { select u.no from u; }",
        ProgramRule::UnknownColumn,
        0,
    ),
    (
        "query g() { select u.id from u join u on u.k = u.k; }",
        ProgramRule::JoinedTwice,
        0,
    ),
    (
        "query g() { select u.id from u join v on v.k = u.k; }",
        ProgramRule::OnShape,
        0,
    ),
    (
        "query g() { select u.id from u where u.id = p; }",
        ProgramRule::UnknownParameter,
        0,
    ),
    (
        "query g() { select v.id from u; }",
        ProgramRule::NotJoined,
        0,
    ),
    (
        "update g(a: int) { delete u from u; set u.nick = a in u; }",
        ProgramRule::KindDiffers,
        1,
    ),
    (
        "query g() { select u.id from u where u.nick < \"b\"; }",
        ProgramRule::OrderKind,
        0,
    ),
    (
        "update g(a: int) { insert into u { u.id = a }; }",
        ProgramRule::InsertCover,
        0,
    ),
];

/// Hints, and the number and the first rule of the first broken one.
const HINTS: [(&str, HintRule, u32); 4] = [
    (
        "hints hint u.id -> p.id 1; hint u.id -> u.id 1;",
        HintRule::HintEnd,
        1,
    ),
    ("hints hint v.id -> v.id 1;", HintRule::HintEnd, 0),
    ("hints hint u.id -> p.nick 1;", HintRule::HintKinds, 0),
    (
        "hints hint u.id -> p.id 1; hint u.id -> p.id 2;",
        HintRule::HintTwice,
        1,
    ),
];

/// A broken program before broken hints, and what comes before both.
const ORDER: [(&str, TextFault); 3] = [
    (
        "hints hint u.id -> p.nick 1;",
        TextFault::Typing(TypeFault::Program {
            rule: ProgramRule::UnknownTable,
            function: 0,
            statement: 0,
        }),
    ),
    (
        "hints hint u.id -> p.nick 101;",
        TextFault::Limit {
            which: Limit::Hint,
            line: 1,
        },
    ),
    (
        "hints hint u.id -> p.nick 1",
        TextFault::At {
            line: 1,
            column: 214,
        },
    ),
];

/// Why the job of these texts, one behind the other, is refused.
pub(crate) fn fault_of(alloc: Global, parts: &[&str]) -> Result<Option<TextFault>, AllocError> {
    let mut text = Vec::new(alloc);
    for part in parts {
        text.extend_from_slice(part.as_bytes())?;
    }
    if text.len() < 1 << 31 {
        Ok(read_job(alloc, text.as_slice()).err())
    } else {
        Ok(None)
    }
}

#[test]
fn rules_of_schemas(rt: HostRuntime) -> Result<(), AllocError> {
    for (text, side, rule, a, b) in &SCHEMAS {
        let want = TextFault::Typing(TypeFault::Schema {
            side: *side,
            rule: *rule,
            a: *a,
            b: *b,
        });
        let got = fault_of(rt.alloc(), &[*text])?;
        assert!(rt; got == Some(want), "{text}");
    }
    Ok(())
}

#[test]
fn rules_of_programs(rt: HostRuntime) -> Result<(), AllocError> {
    for (function, rule, statement) in &PROGRAMS {
        let want = TextFault::Typing(TypeFault::Program {
            rule: *rule,
            function: 1,
            statement: *statement,
        });
        let got = fault_of(rt.alloc(), &[HEAD, RIGHT, *function])?;
        assert!(rt; got == Some(want), "{function}");
    }
    Ok(())
}

#[test]
fn rules_of_hints(rt: HostRuntime) -> Result<(), AllocError> {
    for (hints, rule, at) in &HINTS {
        let want = TextFault::Typing(TypeFault::Hint {
            rule: *rule,
            at: *at,
        });
        let got = fault_of(rt.alloc(), &[HEAD, *hints])?;
        assert!(rt; got == Some(want), "{hints}");
    }
    Ok(())
}

#[test]
fn programs_come_before_hints(rt: HostRuntime) -> Result<(), AllocError> {
    for (hints, want) in &ORDER {
        let broken = "query g() { select u.id from w; } ";
        let got = fault_of(rt.alloc(), &[HEAD, broken, *hints])?;
        assert!(rt; got == Some(*want), "{hints}");
    }
    Ok(())
}
