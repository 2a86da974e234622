// The verdicts on an answer that renames a table, and on others.
use crate::certificates::certificate;
use crate::jobs::{OTHER_NAME, RENAMED, job, program};
use mig_checker::{Verdict, Why, check};
use std::alloc::{AllocError, Global};
use std::test::Fail;

/// One table is the other, with its columns.
const VIEW: &str = "view 0.0 0.1 is 0.0 0.1";

/// The same twice.
const TWO_VIEWS: &str = "view 0.0 0.1 is 0.0 0.1\nview 0.0 0.1 is 0.0 0.1";

/// What a certificate is called, its invariants and pairs, and the verdict on it.
const VERDICTS: [(&str, &str, &str, &str); 13] = [
    (
        "the right one",
        VIEW,
        "add; holds 0: stage 0 - 0, fold 0 - 0 0 | stage 0 - 0\nall; answers: fold 0 - 0 0 |",
        "accepted",
    ),
    (
        "the view twice, and an entry for each",
        TWO_VIEWS,
        "add; holds 0: stage 0 - 0, fold 0 - 0 0 | stage 0 - 0; holds 1: stage 0 - 0, fold 0 - 0 0 | stage 0 - 0\nall; answers: fold 0 - 0 0 |",
        "accepted",
    ),
    (
        "an output of the new view is in no table",
        "view 0.0 0.1 is 0.0 0.2",
        "add; holds 0: stage 0 - 0, fold 0 - 0 0 | stage 0 - 0\nall; answers: fold 0 - 0 0 |",
        "2 0 0 shape",
    ),
    (
        "the query's proof before the update's",
        VIEW,
        "all; answers: fold 0 - 0 0 |\nadd; holds 0: stage 0 - 0, fold 0 - 0 0 | stage 0 - 0",
        "0 0 0 missing",
    ),
    (
        "the update has no entry",
        VIEW,
        "add\nall; answers: fold 0 - 0 0 |",
        "0 0 0 missing",
    ),
    (
        "the view twice, and its entries in the other order",
        TWO_VIEWS,
        "add; holds 1: stage 0 - 0, fold 0 - 0 0 | stage 0 - 0; holds 0: stage 0 - 0, fold 0 - 0 0 | stage 0 - 0\nall; answers: fold 0 - 0 0 |",
        "0 0 0 missing",
    ),
    (
        "the update's fold is of term 1",
        VIEW,
        "add; holds 0: stage 0 - 0, fold 1 - 0 0 | stage 0 - 0\nall; answers: fold 0 - 0 0 |",
        "0 0 1 step",
    ),
    (
        "the new update is unfolded at term 1",
        VIEW,
        "add; holds 0: stage 0 - 0, fold 0 - 0 0 | stage 1 - 0\nall; answers: fold 0 - 0 0 |",
        "0 0 2 step",
    ),
    (
        "the update has no fold",
        VIEW,
        "add; holds 0: stage 0 - 0 | stage 0 - 0\nall; answers: fold 0 - 0 0 |",
        "0 0 2 ends",
    ),
    (
        "the update has its entry twice",
        VIEW,
        "add; holds 0: stage 0 - 0, fold 0 - 0 0 | stage 0 - 0; holds 0: stage 0 - 0, fold 0 - 0 0 | stage 0 - 0\nall; answers: fold 0 - 0 0 |",
        "0 1 0 extra",
    ),
    (
        "no proof for the query",
        VIEW,
        "add; holds 0: stage 0 - 0, fold 0 - 0 0 | stage 0 - 0",
        "1 0 0 missing",
    ),
    (
        "the query has no fold",
        VIEW,
        "add; holds 0: stage 0 - 0, fold 0 - 0 0 | stage 0 - 0\nall; answers: |",
        "1 0 0 ends",
    ),
    (
        "a third proof",
        VIEW,
        "add; holds 0: stage 0 - 0, fold 0 - 0 0 | stage 0 - 0\nall; answers: fold 0 - 0 0 |\nall; answers: fold 0 - 0 0 |",
        "2 0 0 extra",
    ),
];

fn why_text(why: Why) -> &'static str {
    match why {
        Why::Shape => "shape",
        Why::Missing => "missing",
        Why::Extra => "extra",
        Why::NoFollow => "step",
        Why::EndsDiffer => "ends",
    }
}

/// The numbers and the reason of a rejection.
fn verdict_text(alloc: Global, verdict: Verdict) -> Result<String, AllocError> {
    match verdict {
        Verdict::Accepted => format!(in alloc; "accepted"),
        Verdict::Rejected {
            pair,
            obligation,
            step,
            why,
        } => format!(in alloc; "{pair} {obligation} {step} {}", why_text(why)),
    }
}

/// Whether the verdict on a new program and a certificate is this.
fn is_judged(
    alloc: Global,
    text: &str,
    facts: &str,
    shown: &str,
    want: &str,
) -> Result<bool, Fail> {
    let job = job(alloc)?;
    let program = program(alloc, &job, text)?;
    let certificate = certificate(alloc, facts, shown)?;
    let verdict = check(alloc, &job, &program, &certificate)?;
    let text = verdict_text(alloc, verdict)?;
    Ok(text.as_str() == want)
}

#[test]
fn certificates_are_judged_at_their_places(rt: HostRuntime) -> Result<(), Fail> {
    for (name, facts, shown, want) in VERDICTS {
        let right = is_judged(rt.alloc(), RENAMED, facts, shown, want)?;
        assert!(rt; right, "{name}");
    }
    Ok(())
}

#[test]
fn a_function_of_another_name_is_rejected(rt: HostRuntime) -> Result<(), Fail> {
    let shown =
        "add; holds 0: stage 0 - 0, fold 0 - 0 0 | stage 0 - 0\nall; answers: fold 0 - 0 0 |";
    let right = is_judged(rt.alloc(), OTHER_NAME, VIEW, shown, "0 0 0 shape")?;
    assert!(rt; right);
    Ok(())
}
