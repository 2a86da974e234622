// Conditions and columns written over a tree.
ghost use Rattle.std.specs.Prelude.{◌≡◌, map, IfOk};
ghost use Rattle.mig_sketch.specs.Imaging.{looked as spec_looked};
ghost use Rattle.mig_sketch.specs.Moved as spec;

use crate::images::{Imaged, looked};
use mig_base::{Exact, Seq};
use mig_schema::{Cmp, ColId, Cond, Item, Join};
use std::alloc::{AllocError, Global};

/// A side of a comparison, its column written by its image in the tree.
fn item(alloc: Global, images: &[Imaged], tree: &Join, item: &Item) -> Result<Item, AllocError>
    ensures { IfOk result (λ x. x ≡ spec.item_by (spec_looked images.now tree.now) item.now) }
{
    match item {
        Item::Col(column) => Ok(Item::Col(looked(images, tree, *column))),
        Item::Scalar(value) => Ok(Item::Scalar(value.twin(alloc)?)),
    }
}

/// The comparisons of a case, each column written so.
fn case(alloc: Global, images: &[Imaged], tree: &Join, cmps: &[Cmp]) -> Result<Seq<Cmp>, AllocError>
    ensures { IfOk result (λ list. list ≡ map (spec.cmp_by (spec_looked images.now tree.now)) cmps.now) }
{
    let mut list = Seq::new(alloc);
    for cmp in cmps {
        let left = item(alloc, images, tree, &cmp.left)?;
        let right = item(alloc, images, tree, &cmp.right)?;
        list.push(Cmp {
            op: cmp.op,
            left,
            right,
        })?;
    }
    Ok(list)
}

/// A condition, each column written so.
pub(crate) fn condition(
    alloc: Global,
    images: &[Imaged],
    tree: &Join,
    test: &Cond,
) -> Result<Cond, AllocError>
    ensures { IfOk result (λ c. c ≡ spec.condition_by (spec_looked images.now tree.now) test.now) }
{
    let mut cases = Seq::new(alloc);
    for cmps in test.cases.as_slice() {
        cases.push(case(alloc, images, tree, cmps.as_slice())?)?;
    }
    Ok(Cond { cases })
}

/// Columns, each written so.
pub(crate) fn columns(
    alloc: Global,
    images: &[Imaged],
    tree: &Join,
    columns: &[ColId],
) -> Result<Seq<ColId>, AllocError>
    ensures { IfOk result (λ list. list ≡ map (spec_looked images.now tree.now) columns.now) }
{
    let mut list = Seq::new(alloc);
    for column in columns {
        list.push(looked(images, tree, *column))?;
    }
    Ok(list)
}
