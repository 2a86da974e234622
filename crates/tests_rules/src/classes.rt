// Classes, and terms without one of their variables, worked out by hand.
use crate::expressions::{sum, term};
use mig_algebra::Atom;
use mig_base::{Exact, Seq};
use mig_classes::{closure, may_go, substitute};
use std::alloc::{AllocError, Global};
use std::test::Fail;

/// What a case is called, literals, and the classes that they make.
const CLASSES: [(&str, &str, &str); 3] = [
    (
        "ints, texts, parameters, labels, columns",
        "0.1=k2 'b=p1 -3=0.0 p1='a 1.0=0.0 1<3.3",
        "-3 0.0 1.0; 'a 'b p1; k2 0.1",
    ),
    (
        "two chains made one",
        "0.1=0.0 1.0=1.1 0.2=0.1 1.1=1.2 0.3=0.2 1.2=1.3 1.3=0.2",
        "0.0 0.1 0.2 0.3 1.0 1.1 1.2 1.3",
    ),
    (
        "no class of an atom with itself, nor of a body's equality",
        "0.0=0.0 any( o1 0.0=1.0 ) 0.0<>0.1",
        "",
    ),
];

/// Lists of atoms, between `;`.
fn groups(alloc: Global, text: &str) -> Result<Seq<Seq<Atom>>, AllocError> {
    let mut groups = Seq::new(alloc);
    for term in sum(alloc, text)?.terms.into_vec() {
        groups.push(term.head)?;
    }
    Ok(groups)
}

/// Whether literals make these classes.
fn make(alloc: Global, lits: &str, want: &str) -> Result<bool, AllocError> {
    let classes = closure(alloc, &term(alloc, lits)?)?;
    Ok(classes.groups.same(&groups(alloc, want)?))
}

#[test]
fn classes_as_by_hand(rt: HostRuntime) -> Result<(), Fail> {
    for (name, lits, want) in CLASSES {
        let right = make(rt.alloc(), lits, want)?;
        assert!(rt; right, "{name}");
    }
    Ok(())
}

/// What a case is called, a term, a variable that goes, the atoms that are written for its columns, and the term then.
const GONE: [(&str, &str, u32, &str, &str); 2] = [
    (
        "for a parameter, a column of variable 1 and a number, in bodies two deep",
        "o0 o1 0.0=1.1 any( o2 2.0<0.2 none( o3 0.1=3.0 ) ) -> 0.1 1.0 0.0",
        0,
        "p4 1.0 9",
        "o1 p4=0.1 any( o2 1.0<9 none( o3 0.0=2.0 ) ) -> 0.0 0.0 p4",
    ),
    (
        "the lesser side of an equality comes left",
        "o0 o1 0.0=1.0",
        1,
        "2",
        "o0 2=0.0",
    ),
];

/// Whether a variable goes, and leaves this.
fn leaves(
    alloc: Global,
    given: &str,
    var: u32,
    atoms: &str,
    want: &str,
) -> Result<bool, AllocError> {
    let given = term(alloc, given)?;
    let atoms = term(alloc, atoms)?.head;
    if !may_go(&given, var, &atoms) {
        return Ok(false);
    }
    let made = substitute(alloc, &given, var, &atoms)?;
    Ok(made.same(&term(alloc, want)?))
}

#[test]
fn variables_go_as_by_hand(rt: HostRuntime) -> Result<(), Fail> {
    for (name, given, var, atoms, want) in GONE {
        let right = leaves(rt.alloc(), given, var, atoms, want)?;
        assert!(rt; right, "{name}");
    }
    Ok(())
}

/// What a case is called, a variable, the atoms for its columns, and whether it may go from the term below.
const MAY_GO: [(&str, u32, &str, bool); 5] = [
    ("different rows name it", 1, "5", false),
    ("no atom for column 1", 2, "5", false),
    ("no such variable", 3, "5", false),
    ("an atom of its own", 2, "5 2.0", false),
    ("an atom of another", 2, "5 1.0", true),
];

fn goes(alloc: Global, given: &str, var: u32, atoms: &str) -> Result<bool, AllocError> {
    let given = term(alloc, given)?;
    let atoms = term(alloc, atoms)?.head;
    Ok(may_go(&given, var, &atoms))
}

#[test]
fn what_may_go(rt: HostRuntime) -> Result<(), Fail> {
    for (name, var, atoms, want) in MAY_GO {
        let may = goes(rt.alloc(), "o0 o0 o0 0~1 2.1=1", var, atoms)?;
        assert!(rt; may == want, "{name}");
    }
    Ok(())
}
