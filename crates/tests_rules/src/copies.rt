// A copy is the same as what it was copied from, and not as another value; texts of expressions are read as they say.
use crate::certificates::{certificate, entry, step};
use crate::expressions::sum;
use mig_algebra::{Atom, Classes, Expr, Inner, Lit, Term, Var};
use mig_base::{Exact, Seq};
use mig_certificate::{Certificate, Entry};
use mig_rules::{Obligation, Step};
use mig_schema::{Op, Side};
use std::alloc::{AllocError, Global};
use std::test::Fail;

/// Whether the copy of a value is the same as it, and another value is not.
fn is_twin<T: Exact>(alloc: Global, item: &T, other: &T) -> Result<bool, AllocError> {
    let twin = item.twin(alloc)?;
    Ok(item.same(&twin) && !item.same(other))
}

/// A list of one item.
fn one<T: Drop>(alloc: Global, item: T) -> Result<Seq<T>, AllocError> {
    let mut list = Seq::new(alloc);
    list.push(item)?;
    Ok(list)
}

/// No row of table 2 has in column 0 the number `value`.
fn none_with(alloc: Global, value: i64) -> Result<Lit, AllocError> {
    let var = Var {
        side: Side::New,
        table: 2,
        stage: 0,
    };
    let lit = Lit::Cmp {
        op: Op::Eq,
        left: Atom::Int(value),
        right: Atom::Col { var: 0, column: 0 },
    };
    let vars = one(alloc, var)?;
    let lits = one(alloc, lit)?;
    Ok(Lit::Any {
        held: false,
        inner: Inner { vars, lits },
    })
}

/// A text, a parameter and a key.
fn head_of(alloc: Global, label: u32) -> Result<Seq<Atom>, AllocError> {
    let text = Seq::from_slice(alloc, b"a")?;
    let mut head = one(alloc, Atom::Text(text))?;
    head.push(Atom::Param(1))?;
    head.push(Atom::Fresh(label))?;
    Ok(head)
}

/// A sum of one term, with a literal of each form and a head of each atom.
fn sum_of(alloc: Global, label: u32) -> Result<Expr, AllocError> {
    let mut lits = one(alloc, Lit::Other { left: 0, right: 1 })?;
    lits.push(none_with(alloc, 1)?)?;
    let vars = Seq::new(alloc);
    let head = head_of(alloc, label)?;
    let terms = one(alloc, Term { vars, lits, head })?;
    Ok(Expr { terms })
}

fn literals_are_copied(alloc: Global) -> Result<bool, AllocError> {
    let lit = none_with(alloc, 1)?;
    is_twin(alloc, &lit, &none_with(alloc, 2)?)
}

fn sums_are_copied(alloc: Global) -> Result<bool, AllocError> {
    let sum = sum_of(alloc, 3)?;
    is_twin(alloc, &sum, &sum_of(alloc, 4)?)
}

fn classes_of(alloc: Global, number: i64) -> Result<Classes, AllocError> {
    let group = one(alloc, Atom::Int(number))?;
    let groups = one(alloc, group)?;
    Ok(Classes { groups })
}

fn classes_are_copied(alloc: Global) -> Result<bool, AllocError> {
    let classes = classes_of(alloc, -1)?;
    is_twin(alloc, &classes, &classes_of(alloc, 1)?)
}

#[test]
fn a_twin_of_an_expression_is_the_same(rt: HostRuntime) -> Result<(), Fail> {
    assert!(rt; literals_are_copied(rt.alloc())?, "literals");
    assert!(rt; sums_are_copied(rt.alloc())?, "sums");
    assert!(rt; classes_are_copied(rt.alloc())?, "classes");
    Ok(())
}

fn is_read(alloc: Global, text: &str) -> Result<bool, AllocError> {
    let sum = sum(alloc, text)?;
    Ok(sum.same(&sum_of(alloc, 3)?))
}

#[test]
fn a_text_is_read_as_it_says(rt: HostRuntime) -> Result<(), Fail> {
    let right = is_read(rt.alloc(), "0~1 none( n2 1=0.0 ) -> 'a p1 k3")?;
    assert!(rt; right);
    Ok(())
}

fn steps_are_copied(alloc: Global) -> Result<bool, AllocError> {
    let made: Step = step(alloc, "fold 2 1.0 7")?;
    is_twin(alloc, &made, &step(alloc, "fold 2 1.0.1 7")?)
}

fn obligation(alloc: Global, source: &str, target: &str) -> Result<Obligation, AllocError> {
    let source = sum(alloc, source)?;
    let target = sum(alloc, target)?;
    Ok(Obligation { source, target })
}

fn obligations_are_copied(alloc: Global) -> Result<bool, AllocError> {
    let shown = obligation(alloc, "->", "")?;
    is_twin(alloc, &shown, &obligation(alloc, "", "->")?)
}

fn entries_are_copied(alloc: Global) -> Result<bool, AllocError> {
    let made: Entry = entry(alloc, "holds 3: | ")?;
    is_twin(alloc, &made, &entry(alloc, "holds 3: | dead 0 -")?)
}

fn certificates_are_copied(alloc: Global) -> Result<bool, AllocError> {
    let made: Certificate = certificate(alloc, "", "get; answers: | ")?;
    is_twin(alloc, &made, &certificate(alloc, "", "set; answers: | ")?)
}

#[test]
fn a_twin_of_a_proof_is_the_same(rt: HostRuntime) -> Result<(), Fail> {
    assert!(rt; steps_are_copied(rt.alloc())?, "steps");
    assert!(rt; obligations_are_copied(rt.alloc())?, "obligations");
    assert!(rt; entries_are_copied(rt.alloc())?, "entries");
    assert!(rt; certificates_are_copied(rt.alloc())?, "certificates");
    Ok(())
}
