// What lists of literals give, which of them contradict themselves, and complements, worked out by hand.
use crate::expressions::term;
use mig_base::Exact;
use mig_classes::{Groups, complement, contradictory, is_given, one_class};
use std::alloc::{AllocError, Global};
use std::test::Fail;

/// What a case is called, variables and literals, a literal, and whether they give it.
const GIVEN: [(&str, &str, &str, bool); 9] = [
    ("one class", "o0 o0@1 0.0=0.1 1.0=0.1", "0.0=1.0", true),
    (
        "no order in a class",
        "o0 o0@1 0.0=0.1 1.0=0.1",
        "0.0<1.0",
        false,
    ),
    (
        "constants of two classes",
        "o0 o0 3=0.0 5=1.0",
        "0.0<1.0",
        true,
    ),
    (
        "constants the other way",
        "o0 o0 3=0.0 5=1.0",
        "1.0<0.0",
        false,
    ),
    ("a key and a row from before", "o0", "k0<>0.0", true),
    ("a key and a row from after", "o0@1", "k0<>0.0", false),
    ("two arguments", "", "p0<>p1", false),
    (
        "said the other way round",
        "o0 o0 0.0<>0.1 0.1=1.1",
        "1.1<>0.0",
        true,
    ),
    ("different rows", "o0 o0 0~1", "0~1", false),
];

/// Whether literals give a literal or not, as wanted, where they are asked once, and where their classes are kept.
fn are_asked(alloc: Global, given: &str, asked: &str, want: bool) -> Result<bool, AllocError> {
    let given = term(alloc, given)?;
    let asked = term(alloc, asked)?;
    let scope = given.vars.as_slice();
    let lits = given.lits.as_slice();
    let Some(lit) = asked.lits.get(0) else {
        return Ok(false);
    };
    let once = is_given(alloc, scope, lits, lit)?;
    let groups = Groups::of(alloc, lits)?;
    Ok(once == want && groups.gives(scope, lit) == want)
}

#[test]
fn given_as_by_hand(rt: HostRuntime) -> Result<(), Fail> {
    for (name, given, asked, want) in GIVEN {
        let right = are_asked(rt.alloc(), given, asked, want)?;
        assert!(rt; right, "{name}");
    }
    Ok(())
}

/// What a case is called, variables and literals, and whether these contradict themselves.
const CONTRADICTORY: [(&str, &str, bool); 8] = [
    ("two numbers in a class", "o0 1=0.0 2=0.0", true),
    ("two arguments in a class", "o0 p0=0.0 p1=0.0", false),
    ("a key in a row from before", "o0 k0=0.0", true),
    ("a key in a row from after", "o0@1 k0=0.0", false),
    (
        "an order and its complement",
        "o0 o0 0.0<1.0 1.0<=0.0",
        true,
    ),
    ("a row and itself", "o0 0~0", true),
    ("two rows", "o0 o0 0~1", false),
    ("a body that does", "o0 none( 1=0.0 2=0.0 )", false),
];

fn contradicts(alloc: Global, given: &str, want: bool) -> Result<bool, AllocError> {
    let given = term(alloc, given)?;
    let scope = given.vars.as_slice();
    let lits = given.lits.as_slice();
    let once = contradictory(alloc, scope, lits)?;
    let groups = Groups::of(alloc, lits)?;
    Ok(once == want && groups.contradict(alloc, scope)? == want)
}

#[test]
fn contradictory_as_by_hand(rt: HostRuntime) -> Result<(), Fail> {
    for (name, given, want) in CONTRADICTORY {
        let right = contradicts(rt.alloc(), given, want)?;
        assert!(rt; right, "{name}");
    }
    Ok(())
}

/// What a case is called, literals, an atom and the least of its class, and whether the two are in one class by no literals too.
const LEAST: [(&str, &str, &str, bool); 3] = [
    ("a number before columns", "0.1=1.0 5=1.0", "0.1 5", false),
    ("a text before an argument", "p0=0.1 'a=0.1", "p0 'a", false),
    ("an atom that is not named", "5=0.1", "0.2 0.2", true),
];

/// Whether the second of two atoms is the least of the first one's class, and in one class with it.
fn leads(alloc: Global, lits: &str, atoms: &str, alone: bool) -> Result<bool, AllocError> {
    let given = term(alloc, lits)?;
    let atoms = term(alloc, atoms)?.head;
    let (Some(atom), Some(least)) = (atoms.get(0), atoms.get(1)) else {
        return Ok(false);
    };
    let groups = Groups::of(alloc, given.lits.as_slice())?;
    let joined = one_class(alloc, given.lits.as_slice(), atom, least)?;
    let apart = one_class(alloc, &[], atom, least)?;
    Ok(groups.least(atom).same(least) && joined && apart == alone)
}

#[test]
fn leasts_as_by_hand(rt: HostRuntime) -> Result<(), Fail> {
    for (name, lits, atoms, alone) in LEAST {
        let right = leads(rt.alloc(), lits, atoms, alone)?;
        assert!(rt; right, "{name}");
    }
    Ok(())
}

/// A literal, and its complement; a literal that has none is copied.
const COMPLEMENTS: [(&str, &str); 4] = [
    ("p0=0.0", "p0<>0.0"),
    ("0.0<p0", "p0<=0.0"),
    ("any( o1 1=0.0 )", "none( o1 1=0.0 )"),
    ("0~1", "0~1"),
];

fn is_complement(alloc: Global, given: &str, want: &str) -> Result<bool, AllocError> {
    let given = term(alloc, given)?;
    let want = term(alloc, want)?;
    match (given.lits.get(0), want.lits.get(0)) {
        (Some(lit), Some(want)) => Ok(complement(alloc, lit)?.same(want)),
        _ => Ok(false),
    }
}

#[test]
fn complements_as_by_hand(rt: HostRuntime) -> Result<(), Fail> {
    for (given, want) in COMPLEMENTS {
        let right = is_complement(rt.alloc(), given, want)?;
        assert!(rt; right, "{given}");
    }
    Ok(())
}
