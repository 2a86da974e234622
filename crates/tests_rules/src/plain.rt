// The first step beside a plain search: all rules, terms, paths and arguments in order, each of them tried.
use crate::certificates::steps;
use crate::expressions::sum;
use crate::firsts::is_step;
use crate::steps::{Sample, pair, sampled_with};
use mig_algebra::Expr;
use mig_base::{Exact, Seq};
use mig_rules::{Facts, Rule, Step, StepFault, apply, first};
use std::alloc::{AllocError, Global};
use std::test::Fail;

/// The rules in the order in which they are tried.
const RULES: [Rule; 17] = [
    Rule::Stage,
    Rule::StageIn,
    Rule::Dead,
    Rule::Same,
    Rule::Implied,
    Rule::Lift,
    Rule::Split,
    Rule::Found,
    Rule::Alone,
    Rule::Inside,
    Rule::Never,
    Rule::Merge,
    Rule::Apart,
    Rule::Lossless,
    Rule::Fold,
    Rule::FoldIn,
    Rule::Rejoin,
];

/// What is known, an expression of at most three terms, whose lists have at most three literals, with at most three
/// variables in scope and bodies at most one in another, and the first step from it.
const SMALL: [(&str, &str, &str); 23] = [
    ("", "", ""),
    ("", "n0 -> 0.0", ""),
    ("", "o0@1 -> 0.0 0.1", "stage 0 - 0"),
    ("", "n0@1 o0 any( o0@1 1.0=2.0 ) -> 0.0", "stage 0 - 0"),
    ("", "o0 none( n0@1 0.0=1.0 )", "stagein 0 0 1"),
    ("", "o0 1=0.0 -> 0.1; o0 1=0.0 2=0.0 -> 0.1", "dead 1 -"),
    ("", "o0 0.0=0.1 -> 0.1", "same 0 -"),
    ("", "n0 p0=0.0 p0<=p0 -> 0.1", "implied 0 1"),
    ("", "n0 n0 0~1 none( n0 0~1 ) none( n0 0~1 )", "implied 0 2"),
    ("", "n0 n0 any( n0 ) any( 0.0<1.0 any( ) )", "lift 0 1"),
    ("", "n0 -> 0.0; n0 none( 1=0.0 'a=0.1 ) -> 0.1", "split 1 0"),
    ("", "n0 n0 p0=1.1 any( n0 p0=2.1 ) -> 0.0", "found 0 1 1"),
    ("", "n0 n0 0.0<1.0 none( n0 0.0<2.0 )", "found 0 1 1"),
    (
        "unique old 1.0\nunique old 0.0",
        "o0 none( o0 0.0=1.0 0.1<1.1 )",
        "alone 0 0 1 0 1",
    ),
    (
        "within old 0.1 1.0",
        "o0 p0=0.1 none( o1 p0=1.0 )",
        "inside 0 1 1 0 0",
    ),
    ("within old 0.1 1.0", "o0 none( o1 0.1<1.0 )", ""),
    (
        "apart old 0.0 1.0",
        "o0 p0=0.0 none( o1 p0=1.0 ) -> 0.1",
        "never 0 1",
    ),
    (
        "unique old 0.0",
        "o0 o0 o0 0.0=2.0 0~1 -> 1.1",
        "merge 0 - 0 2 0",
    ),
    (
        "unique old 0.0\napart old 0.0 1.0",
        "o0 o1 p0=0.0 p0=1.0 -> 0.1",
        "apart 0 - 0 1 1",
    ),
    (
        "unique old 1.0\nwithin old 0.1 1.0",
        "n0 o0 o1 1.1=2.0 -> 1.0",
        "lossless 0 - 2 1 1 0",
    ),
    (
        "unique old 0.1\nview 0.0 0.1 is 0.0 0.1",
        "n0 o0 0.0<1.1 -> 1.0",
        "fold 0 - 1 1",
    ),
    (
        "view 0.0 is 0.0",
        "o0 0.1<5 none( o0 1.0<5 )",
        "foldin 0 1 0 1",
    ),
    (
        "",
        "n0 1=0.0 0.1<7 -> 0.1; n0 1=0.0 7<=0.1 -> 0.1",
        "rejoin 0 - 1 1",
    ),
];

/// Lists in order, a list after those that it begins with: the one behind a list, of numbers below `base`, at most `most`. Whether there is one.
fn go_on(list: &mut Vec<u32>, base: u32, most: usize) -> Result<bool, AllocError> {
    if list.len() < most {
        list.push(0)?;
        return Ok(true);
    }
    for _ in 0..most {
        let next = list.pop().unwrap_or(base).saturating_add(1);
        if next < base {
            list.push(next)?;
            return Ok(true);
        }
    }
    Ok(false)
}

/// All such lists in order.
fn lists(alloc: Global, base: u32, most: usize) -> Result<Vec<Seq<u32>>, AllocError> {
    let mut all = Vec::new(alloc);
    let mut list = Vec::new(alloc);
    for _ in 0..1_000 {
        all.push(Seq::from_slice(alloc, list.as_slice())?)?;
        if !go_on(&mut list, base, most)? {
            break;
        }
    }
    Ok(all)
}

/// The paths and arguments that are tried.
#[derive(Drop)]
struct Tried {
    paths: Vec<Seq<u32>>,
    args: Vec<Seq<u32>>,
}

/// A step without arguments.
fn place(alloc: Global, rule: Rule, term: u32, path: &Seq<u32>) -> Result<Step, AllocError> {
    Ok(Step {
        rule,
        term,
        path: path.twin(alloc)?,
        args: Seq::new(alloc),
    })
}

fn follows(alloc: Global, facts: &Facts, step: &Step, expr: &Expr) -> Result<bool, AllocError> {
    match apply(alloc, facts, step, expr) {
        Ok(_) => Ok(true),
        Err(StepFault::NoFollow) => Ok(false),
        Err(StepFault::Memory) => Err(AllocError),
    }
}

/// The first step that follows at a place.
fn first_there(
    alloc: Global,
    facts: &Facts,
    expr: &Expr,
    place: Step,
    args: &[Seq<u32>],
) -> Result<Option<Step>, AllocError> {
    let mut step = place;
    for list in args {
        step.args = list.twin(alloc)?;
        if follows(alloc, facts, &step, expr)? {
            return Ok(Some(step));
        }
    }
    Ok(None)
}

/// The first step of a rule that follows at a term.
fn first_at(
    alloc: Global,
    facts: &Facts,
    expr: &Expr,
    tried: &Tried,
    rule: Rule,
    term: u32,
) -> Result<Option<Step>, AllocError> {
    for path in &tried.paths {
        let place = place(alloc, rule, term, path)?;
        let found = first_there(alloc, facts, expr, place, tried.args.as_slice())?;
        if found.is_some() {
            return Ok(found);
        }
    }
    Ok(None)
}

/// The first step of a rule that follows.
fn first_by(
    alloc: Global,
    facts: &Facts,
    expr: &Expr,
    tried: &Tried,
    rule: Rule,
) -> Result<Option<Step>, AllocError> {
    for term in 0..3 {
        let found = first_at(alloc, facts, expr, tried, rule, term)?;
        if found.is_some() {
            return Ok(found);
        }
    }
    Ok(None)
}

/// The first step that follows.
fn first_of_all(
    alloc: Global,
    facts: &Facts,
    expr: &Expr,
    tried: &Tried,
) -> Result<Option<Step>, AllocError> {
    for rule in RULES {
        let found = first_by(alloc, facts, expr, tried, rule)?;
        if found.is_some() {
            return Ok(found);
        }
    }
    Ok(None)
}

/// Whether this step, or none, is what `first` gives and what the plain search finds.
fn are_first(
    alloc: Global,
    facts: &Facts,
    tried: &Tried,
    expr: &Expr,
    want: Option<&Step>,
) -> Result<bool, AllocError> {
    let found = first(alloc, facts, expr)?;
    let plain = first_of_all(alloc, facts, expr, tried)?;
    Ok(is_step(&found, want) && is_step(&plain, want))
}

/// Whether a row is right for the pair of updates.
fn is_right(
    alloc: Global,
    sample: &Sample,
    tried: &Tried,
    given: &str,
    want: &str,
) -> Result<bool, AllocError> {
    let Some(pair) = pair(sample, 0) else {
        return Ok(false);
    };
    let facts = Facts {
        pair: &pair,
        invariants: &sample.invariants,
    };
    let given = sum(alloc, given)?;
    let want = steps(alloc, want)?;
    are_first(alloc, &facts, tried, &given, want.get(0))
}

/// All paths of at most two numbers below 3, and all arguments of at most four.
fn short_lists(alloc: Global) -> Result<Tried, AllocError> {
    let paths = lists(alloc, 3, 2)?;
    let args = lists(alloc, 3, 4)?;
    Ok(Tried { paths, args })
}

#[test]
fn all_short_lists_are_tried(rt: HostRuntime) -> Result<(), Fail> {
    let tried = short_lists(rt.alloc())?;
    assert_eq!(rt; tried.paths.len(), 13);
    assert_eq!(rt; tried.args.len(), 121);
    Ok(())
}

#[test]
fn first_steps_are_those_of_a_plain_search(rt: HostRuntime) -> Result<(), Fail> {
    let tried = short_lists(rt.alloc())?;
    for (facts, given, want) in SMALL {
        let sample = sampled_with(rt.alloc(), facts)?;
        let right = is_right(rt.alloc(), &sample, &tried, given, want)?;
        assert!(rt; right, "{given}");
    }
    Ok(())
}
