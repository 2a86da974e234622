// The first place at which an entry is broken.
ghost use Rattle.std.specs.Prelude.{◌≡◌, ◌+◌, IfOk};
ghost use Rattle.std.specs.Ordering.{is_eq};
ghost use Rattle.std.specs.Cmp.Lexicographic.{slice_cmp};
ghost use Rattle.mig_typing.specs.First.{IsFirst};
ghost use Rattle.mig_algebra.specs.Orders as orders;
ghost use Rattle.mig_algebra.specs.Tidied.{tidied};
ghost use Rattle.mig_obligations.specs.Pairs.{sides_of};
ghost use Rattle.mig_certificate.specs.BrokenPlace as broken;
ghost use Rattle.mig_checker.specs.declared.places.InEntry.TheVariants as AnInEntry;
ghost use Rattle.mig_checker.specs.Inside as spec;

use crate::places::InEntry;
use crate::walking::{Walk, follow_all};
use mig_algebra::{Expr, Term, is_scoped, term_order, tidy};
use mig_certificate::{Claim, Entry};
use mig_rules::{Facts, Obligation};
use std::alloc::{AllocError, Global};
use std::cmp::Ordering;

/// How two lists of terms stand: as their first terms that differ do, else the shorter first.
fn terms_order(left: &[Term], right: &[Term]) -> Ordering
    ensures { result ≡ slice_cmp orders.term_order left.now right.now }
{
    for i in 0..left.len().min(right.len()) {
        match term_order(&left[i], &right[i]) {
            Ordering::Equal => {}
            order => return order,
        }
    }
    left.len().cmp(&right.len())
}

/// Whether two expressions are equal when tidied. One that names a variable that is not in scope is answered as want of memory.
fn meet(alloc: Global, left: &Expr, right: &Expr) -> Result<bool, AllocError>
    ensures { IfOk result (λ b. b ≡ is_eq (slice_cmp orders.term_order (tidied left.now).terms (tidied right.now).terms)) }
{
    if !is_scoped(left) || !is_scoped(right) {
        return Err(AllocError);
    }
    let left = tidy(alloc, left)?;
    let right = tidy(alloc, right)?;
    Ok(terms_order(left.terms.as_slice(), right.terms.as_slice()).is_eq())
}

/// Whether two claims are one.
fn same_claim(left: Claim, right: Claim) -> bool
    ensures { result ≡ broken.same_claim left right }
{
    match (left, right) {
        (Claim::Holds(k), Claim::Holds(l)) => k == l,
        (Claim::Answers, Claim::Answers) => true,
        _ => false,
    }
}

/// The number of a step of the new block, numbered on behind `before` steps of the old one.
fn numbered_on(before: usize, s: usize) -> Result<InEntry, AllocError>
    ensures { IfOk result (λ q. q ≡ AnInEntry.Step (before + s)) }
{
    match before.checked_add(s) {
        Some(n) => Ok(InEntry::Step(n)),
        None => Err(AllocError),
    }
}

/// The first place at which an entry that is to make this claim, and to show this obligation, is broken.
pub(crate) fn first_in_entry(
    alloc: Global,
    facts: &Facts,
    claim: Claim,
    obligation: Obligation,
    entry: &Entry,
) -> Result<Option<InEntry>, AllocError>
    ensures { IfOk result (λ o. IsFirst spec.entry_numbers (spec.entry_broken (sides_of facts.now.pair.now) facts.now.invariants.now.list claim obligation entry.now) o) }
{
    if !same_claim(entry.claim, claim) {
        return Ok(Some(InEntry::Missing));
    }
    let Obligation { source, target } = obligation;
    let source = match follow_all(alloc, facts, entry.source.as_slice(), source)? {
        Walk::Stuck(s) => return Ok(Some(InEntry::Step(s))),
        Walk::End(end) => end,
    };
    let target = match follow_all(alloc, facts, entry.target.as_slice(), target)? {
        Walk::Stuck(s) => return Ok(Some(numbered_on(entry.source.len(), s)?)),
        Walk::End(end) => end,
    };
    if meet(alloc, &source, &target)? {
        Ok(None)
    } else {
        Ok(Some(InEntry::Ends))
    }
}
