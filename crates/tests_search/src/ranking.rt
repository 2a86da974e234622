// Correspondences in their order, worked out by hand.
use crate::jobs::{PICTURES, job};
use mig_corresp::Ranker;
use mig_invariant::{ColPair, Corr};
use mig_schema::Job;
use std::alloc::{AllocError, Global};
use std::test::Fail;

/// A name; a job; its pairs of columns, each as the numbers of the old table and column and of the new table and column; and the pairs of
/// each correspondence, in the order in which they come.
const RANKED: [(&str, &str, &str, &[&str]); 6] = [
    // One table is split without a key. The seven weigh -4, -13, -13, -20, -21, -21 and -22.
    (
        "a table is split without a key",
        "old table P { id: int, name: text, city: text } new table A { id: int, name: text } table B { id: int, city: text } link A.id = B.id; program update add(id: int, name: text, city: text) { insert into P { P.id = id, P.name = name, P.city = city }; } query get(id: int) { select P.name, P.city from P where P.id = id; }",
        "0000 0010 0101 0111 0201 0211",
        &["1236", "12346", "12356", "1245", "12345", "12456", "123456"],
    ),
    // Two columns of one kind: -12, -12, -18 four times, -24.
    (
        "two columns of one kind",
        "old table t { a: int, b: int } new table t { x: int, y: int } program update add(a: int, b: int) { insert into t { t.a = a, t.b = b }; } query get(a: int) { select t.b from t where t.a = a; }",
        "0000 0001 0100 0101",
        &["14", "23", "123", "124", "134", "234", "1234"],
    ),
    // A hint of weight 5 for the second pair: -7, -12, -13 three times, -18, -19.
    (
        "a hint for the second pair",
        "old table t { a: int, b: int } new table t { x: int, y: int } program update add(a: int, b: int) { insert into t { t.a = a, t.b = b }; } hints hint t.a -> t.y 5;",
        "0000 0001 0100 0101",
        &["23", "14", "123", "124", "234", "134", "1234"],
    ),
    // A key needs no image and may have one: -1, -10.
    (
        "a key needs no image",
        "old table A { id: key, x: int } new table C { k: key, x: int } program update add(x: int) { insert into A { A.id = fresh 0, A.x = x }; }",
        "0000 0101",
        &["2", "12"],
    ),
    // A column that nothing uses needs no image: -4, -13.
    (
        "a column that nothing uses",
        "old table t { a: int, b: int } new table u { a: int } program query all() { select t.a from t; }",
        "0000 0100",
        &["1", "12"],
    ),
    // One column has no three images.
    (
        "no three images",
        "old table t { a: int } new table u { x: int, y: int, z: int } program query all() { select t.a from t; }",
        "0000 0001 0002",
        &[],
    ),
];

/// The digit at a place; 0 past the end.
fn digit(word: &[u8], place: usize) -> u32 {
    match word.get(place) {
        Some(byte) => u32::from(byte.saturating_sub(b'0')),
        None => 0,
    }
}

/// Whether the pair is the one that the four digits give.
fn is_pair(pair: &ColPair, word: &[u8]) -> bool {
    pair.source.table == digit(word, 0)
        && pair.source.column == digit(word, 1)
        && pair.target.table == digit(word, 2)
        && pair.target.column == digit(word, 3)
}

/// The words of a text, by their number.
fn word(text: &str, number: usize) -> &[u8] {
    match text.split(' ').nth(number) {
        Some(word) => word.as_bytes(),
        None => &[],
    }
}

/// Whether the correspondence has the pairs whose numbers, from 1, are these digits.
fn has_pairs(corr: &Corr, pairs: &str, numbers: &[u8]) -> bool {
    if corr.pairs.len() != numbers.len() {
        return false;
    }
    for (place, pair) in corr.pairs.as_slice().iter().enumerate() {
        let number = digit(numbers, place) as usize;
        if !is_pair(pair, word(pairs, number.saturating_sub(1))) {
            return false;
        }
    }
    true
}

/// Whether the next correspondence has the pairs whose numbers, from 1, are these digits.
fn gives(ranker: &mut Ranker, pairs: &str, numbers: &str) -> Result<bool, AllocError> {
    match ranker.next()? {
        Some(corr) => Ok(has_pairs(&corr, pairs, numbers.as_bytes())),
        None => Ok(false),
    }
}

/// Whether no further correspondence comes, nor when it is asked for once more.
fn ends(ranker: &mut Ranker) -> Result<bool, AllocError> {
    let first = ranker.next()?.is_none();
    let again = ranker.next()?.is_none();
    Ok(first && again)
}

/// Whether just these correspondences come, in this order.
fn gives_all(alloc: Global, job: &Job, pairs: &str, told: &[&str]) -> Result<bool, AllocError> {
    let mut ranker = Ranker::new(alloc, job)?;
    for numbers in told {
        if !gives(&mut ranker, pairs, numbers)? {
            return Ok(false);
        }
    }
    ends(&mut ranker)
}

/// Whether the job of the text has just these correspondences, in this order.
fn is_ranked(alloc: Global, text: &str, pairs: &str, told: &[&str]) -> Result<bool, AllocError> {
    let job = job(alloc, text)?;
    gives_all(alloc, &job, pairs, told)
}

#[test]
fn correspondences_come_by_falling_weight(rt: HostRuntime) -> Result<(), Fail> {
    for (name, text, pairs, told) in &RANKED {
        assert!(rt; is_ranked(rt.alloc(), text, pairs, told)?, "{name}");
    }
    Ok(())
}

/// Whether the first correspondence of the job of the text has these pairs.
fn begins(alloc: Global, text: &str, pairs: &str, numbers: &str) -> Result<bool, AllocError> {
    let job = job(alloc, text)?;
    let mut ranker = Ranker::new(alloc, &job)?;
    gives(&mut ranker, pairs, numbers)
}

#[test]
fn the_pictures_move_first(rt: HostRuntime) -> Result<(), Fail> {
    let right = begins(
        rt.alloc(),
        PICTURES,
        "0000 0101 0221 1010 1111 1221",
        "123456",
    )?;
    assert!(rt; right);
    Ok(())
}
