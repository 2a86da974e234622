// Terms of which variables are folded by a view.
ghost use Rattle.std.specs.Prelude.{◌≡◌, ◌&&◌, Some, None, cond, IfOk};
ghost use Rattle.std.specs.List.{list_all};
ghost use Rattle.mig_replacing.specs.Given.{plain};
ghost use Rattle.mig_folding.specs.Folding as spec;
ghost use Rattle.mig_folding.specs.Writing as writing;

use crate::hosting::{are_named, join_given};
use crate::images::{Named, lits_fold};
use crate::staying::kept_numbers;
use crate::writing::{Folding, folded_atoms, folded_lits, folded_vars};
use mig_algebra::{Term, View};
use mig_base::Seq;
use mig_obligations::number;
use mig_schema::Join;
use mig_steps::{atoms_pass, push_plain};
use std::alloc::{AllocError, Global};

/// A term with the new view's tables in place of the named variables.
fn folded(alloc: Global, folding: &Folding, term: &Term) -> Result<Term, AllocError>
    requires { writing.IsCounted folding.now }
    ensures { IfOk result (λ t. t ≡ spec.folded (writing.fold_now folding.now) term.now) }
{
    let vars = folded_vars(alloc, folding)?;
    let lits = folded_lits(alloc, folding, term.lits.as_slice())?;
    let head = folded_atoms(alloc, folding, term.head.as_slice())?;
    Ok(Term { vars, lits, head })
}

/// Whether all that a term says of named variables can be said of the view's outputs.
fn term_folds(named: &Named, term: &Term) -> bool
    ensures { result ≡ (spec.lits_fold (writing.named_now named.now) term.now.lits && list_all (spec.atom_folds (writing.named_now named.now)) term.now.head) }
{
    lits_fold(named, term.lits.as_slice()) && atoms_pass(named, term.head.as_slice())
}

/// A term whose named variables may be folded.
fn fold_named(alloc: Global, named: &Named, target: &View, term: &Term) -> Result<Term, AllocError>
    ensures { IfOk result (λ t. t ≡ spec.folded (spec.term_fold named.now.source.now target.now named.now.numbers.now term.now) term.now) }
{
    let vars = term.vars.as_slice();
    let numbers = kept_numbers(alloc, 0, vars, named.numbers)?;
    let kept = numbers.as_slice();
    let first = number(kept.len())?;
    let folding = Folding {
        base: 0,
        vars,
        named,
        target,
        kept,
        first,
    };
    let made = folded(alloc, &folding, term)?;
    Ok(made)
}

/// Whether a term gives all equalities of a join, by the variables of these numbers.
fn term_joins(alloc: Global, join: &Join, numbers: &[u32], term: &Term) -> Result<bool, AllocError>
    ensures { IfOk result (λ b. b ≡ spec.joins_by join.now numbers.now term.now.vars (plain term.now.lits)) }
{
    let mut known = Seq::new(alloc);
    push_plain(alloc, &mut known, term.lits.as_slice())?;
    let given = join_given(alloc, term.vars.as_slice(), known.as_slice(), join, numbers)?;
    Ok(given)
}

/// The term that a term becomes where the rows of variables are those of the new view's join; nothing where these are no variables for the old view's tables, joined as these are, or the view can't say what the term says of them.
pub(crate) fn fold_of(
    alloc: Global,
    source: &View,
    target: &View,
    numbers: &[u32],
    term: &Term,
) -> Result<Option<Term>, AllocError>
    ensures { IfOk result (λ o. o ≡ spec.fold_of source.now target.now numbers.now term.now) }
{
    let named = Named { numbers, source };
    if !are_named(0, term.vars.as_slice(), numbers, &source.join) || !term_folds(&named, term) {
        return Ok(None);
    }
    if !term_joins(alloc, &source.join, numbers, term)? {
        return Ok(None);
    }
    let made = fold_named(alloc, &named, target, term)?;
    Ok(Some(made))
}
