// For each literal the clauses that hold it, by number.
ghost use Rattle.std.specs.Prelude.{◌≡◌, ◌<◌, ◌++◌, [], ◌∷◌, length, slice_set, slice_index_or, All, IfOk, OnOk};
ghost use Rattle.mig_sat.specs.Agendas.{list_number, IsListedFor, IsGrown, ListsFirst};

use crate::clauses::SatLit;
use mig_base::Seq;
use std::alloc::{AllocError, Global};

/// The list of the clauses that hold the literal.
pub fn list_of(lit: SatLit) -> usize
    ensures { result ≡ list_number lit }
{
    let list = 1 + 2 * (lit.var as usize);
    if lit.positive { list + 1 } else { list }
}

/// So many empty lists.
pub fn empty_lists(alloc: Global, count: usize) -> Result<Vec<Seq<usize>>, AllocError>
    ensures count { IfOk result (λ lists. length lists.items ≡ count) }
    ensures empty { IfOk result (λ lists. All (λ list. list ≡ []) lists.items) }
{
    let mut lists = Vec::new(alloc);
    for _ in 0..count {
        lists.push(Seq::new(alloc))?;
    }
    Ok(lists)
}

/// Puts the clause at the end of the list; does nothing where there is no such list.
fn enter(lists: &mut [Seq<usize>], list: usize, clause: usize) -> Result<(), AllocError>
    ensures { OnOk result (lists.new ≡ slice_set lists.old list (slice_index_or lists.old list [] ++ clause ∷ [])) }
{
    if list < lists.len() {
        lists[list].push(clause)?;
    }
    Ok(())
}

/// Puts the clause into the list of each of its literals.
fn enter_all(lists: &mut [Seq<usize>], lits: &[SatLit], clause: usize) -> Result<(), AllocError>
    ensures grown { OnOk result (IsGrown lists.old lists.new) }
    ensures listed { OnOk result (IsListedFor lists.new lits.now clause) }
{
    for lit in lits {
        enter(lists, list_of(*lit), clause)?;
    }
    Ok(())
}

/// Puts each clause into list 0, and into the list of each of its literals.
pub fn enter_clauses(lists: &mut [Seq<usize>], clauses: &[Seq<SatLit>]) -> Result<(), AllocError>
    ensures sized { OnOk result (length lists.new ≡ length lists.old) }
    ensures listed { OnOk result (ListsFirst (length clauses.now) clauses.now lists.new) }
{
    for number in 0..clauses.len() {
        enter(lists, 0, number)?;
        enter_all(lists, clauses[number].as_slice(), number)?;
    }
    Ok(())
}
