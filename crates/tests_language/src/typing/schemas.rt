// One schema for each rule, and schemas in which the order of rules and places decides.
use super::WIDE;
use crate::texts::untyped;
use mig_schema::{Schema, SchemaRule, Side, TypeFault};
use mig_tokens::Misread;
use mig_typing::check_schema;
use std::alloc::Global;

const A: &str = "table a { id: int, x: text } ";

const B: &str = "table b { id: int, y: int }";

/// What stands behind table `a`, two links, and the first broken rule with its numbers.
const SCHEMAS: [(&str, &str, Option<(SchemaRule, u32, u32)>); 10] = [
    (B, "link a.id = b.id; link a.id = b.id;", None),
    (
        "table a { id: int, y: int }",
        "link a.id = b.id; link a.id = b.id;",
        Some((SchemaRule::TableTwice, 1, 0)),
    ),
    (
        "table b { id: int, id: int }",
        "link a.id = b.id; link a.id = b.id;",
        Some((SchemaRule::ColumnTwice, 1, 1)),
    ),
    (
        B,
        "link a.id = b.id; link a.id = b.past;",
        Some((SchemaRule::LinkEnd, 1, 0)),
    ),
    (
        B,
        "link a.id = b.id; link b.id = b.y;",
        Some((SchemaRule::LinkTables, 1, 0)),
    ),
    (
        B,
        "link a.x = b.y; link a.id = b.id;",
        Some((SchemaRule::LinkKinds, 0, 0)),
    ),
    // A later rule, at whatever place, is not answered.
    (
        "table a { id: int, id: int }",
        "link c.id = b.id; link a.id = b.id;",
        Some((SchemaRule::TableTwice, 1, 0)),
    ),
    (
        "table b { id: int, id: int }",
        "link c.id = b.id; link a.id = b.id;",
        Some((SchemaRule::ColumnTwice, 1, 1)),
    ),
    (
        B,
        "link a.x = b.y; link b.id = b.y;",
        Some((SchemaRule::LinkTables, 1, 0)),
    ),
    // Of one rule the first place is answered.
    (
        B,
        "link a.past = b.id; link a.id = c.id;",
        Some((SchemaRule::LinkEnd, 0, 0)),
    ),
];

fn schema(alloc: Global, second: &str, links: &str) -> Result<Schema, Misread> {
    let own = untyped(alloc, &["old ", A, second, " new program"])?;
    let wide = untyped(alloc, &["old ", WIDE, links, " new program"])?;
    Ok(Schema {
        tables: own.source.tables,
        links: wide.source.links,
    })
}

/// The answer that is wanted.
fn answer(want: Option<(SchemaRule, u32, u32)>) -> Result<(), TypeFault> {
    match want {
        None => Ok(()),
        Some((rule, a, b)) => Err(TypeFault::Schema {
            side: Side::New,
            rule,
            a,
            b,
        }),
    }
}

#[test]
fn first_rule_of_a_schema(rt: HostRuntime) -> Result<(), Misread> {
    for (second, links, want) in &SCHEMAS {
        let schema = schema(rt.alloc(), second, links)?;
        let got = check_schema(rt.alloc(), &schema, Side::New);
        assert!(rt; got == answer(*want), "{second} {links}");
    }
    Ok(())
}
