// One hint for each rule, and hints in which the order decides.
use super::{TABLES, WIDE};
use crate::texts::untyped;
use mig_schema::{HintRule, Job, TypeFault};
use mig_tokens::Misread;
use mig_typing::check_hints;
use std::alloc::Global;

/// Two hints, and the first broken rule with its hint.
const HINTS: [(&str, Option<(HintRule, u32)>); 6] = [
    ("hint a.id -> a.id 1; hint a.id -> b.id 1;", None),
    (
        "hint a.id -> a.id 1; hint a.past -> a.id 1;",
        Some((HintRule::HintEnd, 1)),
    ),
    (
        "hint a.id -> c.id 1; hint a.id -> a.id 1;",
        Some((HintRule::HintEnd, 0)),
    ),
    (
        "hint a.id -> a.x 1; hint a.id -> c.id 1;",
        Some((HintRule::HintKinds, 0)),
    ),
    (
        "hint a.id -> a.id 1; hint a.id -> a.id 1;",
        Some((HintRule::HintTwice, 1)),
    ),
    (
        "hint a.id -> a.x 1; hint a.id -> a.x 1;",
        Some((HintRule::HintKinds, 0)),
    ),
];

/// A job of no functions with these hints.
fn job(alloc: Global, hints: &str) -> Result<Job, Misread> {
    let own = untyped(alloc, &["old ", TABLES, " new ", TABLES, " program"])?;
    let wide = untyped(
        alloc,
        &["old ", WIDE, " new ", WIDE, " program hints ", hints],
    )?;
    Ok(Job {
        source: own.source,
        target: own.target,
        program: own.program,
        hints: wide.hints,
    })
}

/// The answer that is wanted.
fn answer(want: Option<(HintRule, u32)>) -> Result<(), TypeFault> {
    match want {
        None => Ok(()),
        Some((rule, at)) => Err(TypeFault::Hint { rule, at }),
    }
}

#[test]
fn first_rule_of_hints(rt: HostRuntime) -> Result<(), Misread> {
    for (hints, want) in &HINTS {
        let job = job(rt.alloc(), hints)?;
        assert!(rt; check_hints(rt.alloc(), &job) == answer(*want), "{hints}");
    }
    Ok(())
}
