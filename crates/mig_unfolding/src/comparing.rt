// The comparisons of a case as literals.
ghost use Rattle.std.specs.Prelude.{◌≡◌, IfOk};
ghost use Rattle.mig_schema.specs.Joins.{tables_of};
ghost use Rattle.mig_algebra.specs.Obligations as spec;
ghost use Rattle.mig_obligations.specs.Forming.{cmp_lit as spec_lit};

use mig_algebra::{Atom, Lit, oriented};
use mig_base::number;
use mig_obligations::{place_in, scalar_atom};
use mig_schema::{Cmp, Item, Join};
use std::alloc::{AllocError, Global};

/// A side of a comparison.
fn item_atom(alloc: Global, join: &Join, item: &Item) -> Result<Atom, AllocError>
    ensures { IfOk result (λ a. a ≡ spec.item_atom (tables_of join.now) item.now) }
{
    match item {
        Item::Col(column) => Ok(Atom::Col {
            var: number(place_in(join, column.table))?,
            column: column.column,
        }),
        Item::Scalar(scalar) => scalar_atom(alloc, scalar),
    }
}

/// A comparison of a case.
fn cmp_lit(alloc: Global, join: &Join, cmp: &Cmp) -> Result<Lit, AllocError>
    ensures { IfOk result (λ l. l ≡ spec_lit (tables_of join.now) cmp.now) }
{
    let left = item_atom(alloc, join, &cmp.left)?;
    let right = item_atom(alloc, join, &cmp.right)?;
    Ok(oriented(cmp.op, left, right))
}

/// The comparisons of a case, in order.
pub(crate) fn case_lits(alloc: Global, join: &Join, case: &[Cmp]) -> Result<Vec<Lit>, AllocError>
    ensures { IfOk result (λ v. v.items ≡ spec.case_lits (tables_of join.now) case.now) }
{
    let mut lits = Vec::with_capacity(alloc, case.len())?;
    for cmp in case {
        lits.push(cmp_lit(alloc, join, cmp)?)?;
    }
    Ok(lits)
}
