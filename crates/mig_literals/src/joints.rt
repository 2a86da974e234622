// With which later terms, and by which literals, a term may be joined.
ghost use Rattle.std.specs.Prelude.{◌≡◌, ◌∷◌, ◌++◌, ◌+◌, [], map, drop, IfOk, OnOk};
ghost use Rattle.mig_literals.specs.Rejoined as spec;

use mig_algebra::{Lit, Term, lit_order};
use mig_base::Seq;
use mig_obligations::{list_of, number};
use std::alloc::{AllocError, Global};

/// Whether two lists differ at a number; the second may be shorter.
fn differs_at(lit: &Lit, right: &[Lit], at: usize) -> bool
    ensures { result ≡ spec.differs_at lit.now right.now at }
{
    match right.get(at) {
        Some(other) => !lit_order(lit, other).is_eq(),
        None => false,
    }
}

/// The number of the first literal in which two lists differ.
fn first_difference(left: &[Lit], right: &[Lit]) -> Option<usize>
    ensures { spec.as_list result ≡ spec.first_difference 0 left.now right.now }
{
    for (at, lit) in left.iter().enumerate() {
        if differs_at(lit, right, at) {
            return Some(at);
        }
    }
    None
}

/// What stands behind an item.
fn behind(lits: &[Lit], at: usize) -> &[Lit]
    ensures { result.now ≡ drop (at + 1) lits.now }
{
    if at < lits.len() {
        &lits[at + 1..]
    } else {
        &[]
    }
}

/// Whether two lists are alike behind their items of a number.
fn ends_alike(at: usize, left: &[Lit], right: &[Lit]) -> bool
    ensures { result ≡ spec.ends_alike at left.now right.now }
{
    let found = first_difference(behind(left, at), behind(right, at));
    found.is_none()
}

/// The literal by which a term may be joined with a later one.
fn joint(term: &Term, later: &Term) -> Option<usize>
    ensures { spec.as_list result ≡ spec.joints term.now later.now }
{
    let found = first_difference(term.lits.as_slice(), later.lits.as_slice());
    let Some(at) = found else {
        return None;
    };
    let alike = ends_alike(at, term.lits.as_slice(), later.lits.as_slice());
    if alike { Some(at) } else { None }
}

/// Puts the numbers of a later term, and of the literal by which a term may be joined with it, at the end.
fn push_joint(
    alloc: Global,
    all: &mut Seq<Seq<u32>>,
    term: &Term,
    u: u32,
    later: &Term,
) -> Result<(), AllocError>
    ensures { OnOk result (all.new ≡ all.old ++ map (λ l. u ∷ (l ∷ [])) (spec.joints term.now later.now)) }
{
    let found = joint(term, later);
    let Some(at) = found else {
        return Ok(());
    };
    let at = number(at)?;
    all.push(list_of(alloc, [u, at])?)?;
    Ok(())
}

/// The arguments that are tried for the rule `rejoin` at the term of number `n`, in order: each later term, and the literal by which it may be joined with the term.
pub fn rejoin_args(
    alloc: Global,
    n: u32,
    term: &Term,
    later: &[Term],
) -> Result<Seq<Seq<u32>>, AllocError>
    ensures { IfOk result (λ s. s ≡ spec.later_joints term.now (n + 1) later.now) }
{
    let mut all = Seq::new(alloc);
    for (k, other) in later.iter().enumerate() {
        let u = number(n as usize + 1 + k)?;
        push_joint(alloc, &mut all, term, u, other)?;
    }
    Ok(all)
}
