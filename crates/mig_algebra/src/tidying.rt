// Tidied expressions: variables, literals and terms in order.
ghost use Rattle.std.specs.Prelude.{◌≡◌, ◌<◌, ◌^◌, true, length, map, IfOk};
ghost use Rattle.std.specs.List.{list_all};
ghost use Rattle.mig_meaning.specs.Bags.{SameBag};
ghost use Rattle.mig_algebra.specs.Meaning.{Setting, bag};
ghost use Rattle.mig_algebra.specs.Orders as orders;
ghost use Rattle.mig_algebra.specs.Proper.{Sides, IsProper};
ghost use Rattle.mig_algebra.specs.Rename as rename;
ghost use Rattle.mig_algebra.specs.Scope.{IsScoped, lit_scoped, term_scoped};
ghost use Rattle.mig_algebra.specs.Sorted as sorting;
ghost use Rattle.mig_algebra.specs.Tidied as spec;
ghost use Rattle.mig_meaning.specs.Lists.{place};

use crate::arranging::{inside, new_number, renumbered};
use crate::atoms::Atom;
use crate::literals::{Inner, Lit};
use crate::orders::{lit_order, term_order};
use crate::orienting::oriented;
use crate::terms::{Expr, Term};
use mig_base::Seq;
use std::alloc::{AllocError, Global};

/// The literals in order, equal ones kept once.
fn sorted_once(lits: Vec<Lit>) -> Vec<Lit>
    ensures { result.items ≡ sorting.sorted_once orders.lit_order lits.items }
{
    let mut lits = lits;
    lits.sort_unstable_by(|a, b| lit_order(a, b));
    lits.dedup_by(|lit, kept| lit_order(lit, kept).is_eq());
    lits
}

/// The tidied literal, where `old` has the old numbers of the variables in scope in their new order.
#[cycle(tidy_lit)]
fn tidy_lit(alloc: Global, old: &[u32], lit: &Lit) -> Result<Lit, AllocError>
    requires small { length old.now < 2 ^ 31 }
    requires scope { lit_scoped (length old.now) lit.now ≡ true }
    ensures { IfOk result (λ l. l ≡ spec.lit_sorted (spec.lit_arranged old.now lit.now)) }
{
    match lit {
        Lit::Cmp { op, left, right } => {
            let left = renumbered(alloc, old, left)?;
            let right = renumbered(alloc, old, right)?;
            Ok(oriented(*op, left, right))
        }
        Lit::Other { left, right } => Ok(Lit::Other {
            left: new_number(old, *left),
            right: new_number(old, *right),
        }),
        Lit::Any { held, inner } => {
            let scope = inside(alloc, old, inner.vars.as_slice())?;
            let lits = tidy_lits(alloc, scope.old.as_slice(), inner.lits.as_slice())?;
            let lits = Seq::from_vec(sorted_once(lits));
            let vars = scope.vars;
            Ok(Lit::Any {
                held: *held,
                inner: Inner { vars, lits },
            })
        }
    }
}

/// Each literal tidied, in their old order.
#[cycle(tidy_lit)]
fn tidy_lits(alloc: Global, old: &[u32], lits: &[Lit]) -> Result<Vec<Lit>, AllocError>
    requires small { length old.now < 2 ^ 31 }
    requires scope { list_all (lit_scoped (length old.now)) lits.now ≡ true }
    ensures { IfOk result (λ v. v.items ≡ map (λ l. spec.lit_sorted (spec.lit_arranged old.now l)) lits.now) }
{
    let mut tidied = Vec::with_capacity(alloc, lits.len())?;
    for lit in lits {
        tidied.push(tidy_lit(alloc, old, lit)?)?;
    }
    Ok(tidied)
}

/// Each atom with the new number of its variable.
fn tidy_head(alloc: Global, old: &[u32], head: &[Atom]) -> Result<Vec<Atom>, AllocError>
    requires { length old.now < 2 ^ 31 }
    ensures { IfOk result (λ v. v.items ≡ map (rename.renumbered (place old.now)) head.now) }
{
    let mut tidied = Vec::with_capacity(alloc, head.len())?;
    for atom in head {
        tidied.push(renumbered(alloc, old, atom)?)?;
    }
    Ok(tidied)
}

/// The tidied term.
fn tidy_term(alloc: Global, term: &Term) -> Result<Term, AllocError>
    requires { term_scoped term.now ≡ true }
    ensures { IfOk result (λ t. t ≡ spec.term_sorted (spec.term_arranged term.now)) }
{
    let scope = inside(alloc, &[], term.vars.as_slice())?;
    let lits = tidy_lits(alloc, scope.old.as_slice(), term.lits.as_slice())?;
    let lits = Seq::from_vec(sorted_once(lits));
    let head = tidy_head(alloc, scope.old.as_slice(), term.head.as_slice())?;
    let head = Seq::from_vec(head);
    let vars = scope.vars;
    Ok(Term { vars, lits, head })
}

/// Each term tidied, in their old order.
fn tidy_terms(alloc: Global, terms: &[Term]) -> Result<Vec<Term>, AllocError>
    requires { list_all term_scoped terms.now ≡ true }
    ensures { IfOk result (λ v. v.items ≡ map (λ t. spec.term_sorted (spec.term_arranged t)) terms.now) }
{
    let mut tidied = Vec::with_capacity(alloc, terms.len())?;
    for term in terms {
        tidied.push(tidy_term(alloc, term)?)?;
    }
    Ok(tidied)
}

/// The tidied expression: the variables of each term and body in order, then, from the inside out, literals oriented and in order, equal ones once, then terms in order, all of them kept. It means the same bag in every setting, and is proper where `expr` is.
///
/// Each variable that `expr` names is in scope there, and fewer than 2^31 are in scope at each place. The only error is want of memory.
pub fn tidy(alloc: Global, expr: &Expr) -> Result<Expr, AllocError>
    requires { IsScoped expr.now }
    ensures tidied { IfOk result (λ e. e ≡ spec.tidied expr.now) }
    ensures bag { IfOk result (λ e. (s : Setting) → SameBag (bag s e) (bag s expr.now)) }
    ensures proper { IfOk result (λ e. (p : Sides) → IsProper p expr.now → IsProper p e) }
{
    let mut terms = tidy_terms(alloc, expr.terms.as_slice())?;
    terms.sort_unstable_by(|a, b| term_order(a, b));
    let terms = Seq::from_vec(terms);
    Ok(Expr { terms })
}
