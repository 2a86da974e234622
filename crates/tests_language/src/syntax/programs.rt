// Programs over a schema: read, printed, and read again.
use mig_schema::{ProgramRule, Schema, TypeFault};
use mig_syntax::{TextFault, print_program, read_job, read_program};
use std::alloc::Global;

/// Two tables with a link.
const TABLES: &str =
    "old table u { id: int, nick: text, k: key } table v { id: int, nick: text, k: key } link u.k = v.k; new program";

/// A text, and the same program as it is printed.
const TEXTS: [(&str, &str); 5] = [
    ("", ""),
    (
        "query q(){select u.id from u;}",
        "query q() {\n  select u.id from u;\n}\n",
    ),
    (
        "update a(p:int,q:text){insert into u join v on u.k=v.k{u.id=p,u.nick=q,u.k=fresh 07,v.id=-0,v.nick=\"\"};} # end",
        "update a(p: int, q: text) {\n  insert into u join v on u.k = v.k { u.id = p, u.nick = q, u.k = fresh 7, v.id = 0, v.nick = \"\" };\n}\n",
    ),
    (
        "update d(p:int){delete u,v from u join v on u.k=v.k where u.id=-05 and u.nick<>\"a\\\"b\\\\c\\nd\" or p<v.id and v.id>=7; delete u from u where u.id<=1 or u.id>-9223372036854775808;}",
        "update d(p: int) {\n  delete u, v from u join v on u.k = v.k where u.id = -5 and u.nick <> \"a\\\"b\\\\c\\nd\" or p < v.id and v.id >= 7;\n  delete u from u where u.id <= 1 or u.id > -9223372036854775808;\n}\n",
    ),
    (
        "update s(q:text){set u.nick=q in u where u.id=u.id;}query b(){select v.nick,u.id from v join u on v.k=u.k;}",
        "update s(q: text) {\n  set u.nick = q in u where u.id = u.id;\n}\nquery b() {\n  select v.nick, u.id from v join u on v.k = u.k;\n}\n",
    ),
];

/// A text that is refused, and why.
const REFUSED: [(&str, TextFault); 4] = [
    (
        "query q() {\n select w.id from u; }",
        TextFault::Typing(TypeFault::Program {
            rule: ProgramRule::UnknownTable,
            function: 0,
            statement: 0,
        }),
    ),
    (
        "query q() {\n select u.id from u }",
        TextFault::At {
            line: 2,
            column: 21,
        },
    ),
    ("program", TextFault::At { line: 1, column: 1 }),
    (
        "query q() {",
        TextFault::At {
            line: 1,
            column: 12,
        },
    ),
];

/// What is printed of the program that the text says over the schema.
fn printed(alloc: Global, schema: &Schema, text: &[u8]) -> Result<Vec<u8>, TextFault> {
    if 1 << 31 <= text.len() {
        return Err(TextFault::Memory);
    }
    let program = read_program(alloc, schema, text)?;
    let text = print_program(alloc, schema, &program)?;
    Ok(text.into_vec())
}

#[test]
fn programs_have_one_spelling(rt: HostRuntime) -> Result<(), TextFault> {
    let job = read_job(rt.alloc(), TABLES.as_bytes())?;
    for (text, want) in &TEXTS {
        for spelling in [*text, *want] {
            let got = printed(rt.alloc(), &job.source, spelling.as_bytes())?;
            assert_eq!(rt; got.as_slice(), want.as_bytes(), "{spelling}");
        }
    }
    Ok(())
}

#[test]
fn programs_are_refused(rt: HostRuntime) -> Result<(), TextFault> {
    let job = read_job(rt.alloc(), TABLES.as_bytes())?;
    for (text, want) in &REFUSED {
        let got = read_program(rt.alloc(), &job.source, text.as_bytes()).err();
        assert!(rt; got == Some(*want), "{text}");
    }
    Ok(())
}
