// The columns that a part names, each with its images, and how a column is written in a tree.
ghost use Rattle.std.specs.Prelude.{◌≡◌, [], ◌∷◌, ◌++◌, map, filter, IfOk, OnOk};
ghost use Rattle.std.specs.List.{flat_map};
ghost use Rattle.mig_invariant.specs.Columns.{all_columns as spec_all_columns};
ghost use Rattle.mig_invariant.specs.Images.{images_among};
ghost use Rattle.mig_sketch.specs.Imaging as spec;
ghost use Rattle.mig_sketch.specs.Moved.{image_among};
ghost use Rattle.mig_sketch.specs.Needs.{has_any};

use mig_base::{Exact, Seq};
use mig_invariant::{Corr, all_columns};
use mig_schema::{ColId, Join, Schema, is_in_join, same_col};
use std::alloc::{AllocError, Global};

/// An old column, and its images in the order of the new schema.
#[derive(Debug, Drop)]
pub(crate) struct Imaged {
    pub(crate) source: ColId,
    pub(crate) images: Seq<ColId>,
}

/// Each of these columns with its images among these new ones.
fn images_of_each(
    alloc: Global,
    corr: &Corr,
    targets: &[ColId],
    columns: &[ColId],
) -> Result<Vec<Imaged>, AllocError>
    ensures { IfOk result (λ v. v.items ≡ map (spec.imaged targets.now corr.now) columns.now) }
{
    let mut list = Vec::new(alloc);
    for source in columns {
        let images = corr.images(alloc, targets, *source)?;
        list.push(Imaged {
            source: *source,
            images,
        })?;
    }
    Ok(list)
}

/// Each of these columns with its images.
pub(crate) fn with_images(
    alloc: Global,
    target: &Schema,
    corr: &Corr,
    columns: &[ColId],
) -> Result<Vec<Imaged>, AllocError>
    ensures { IfOk result (λ v. v.items ≡ map (spec.imaged (spec_all_columns target.now) corr.now) columns.now) }
{
    let targets = all_columns(alloc, target)?;
    images_of_each(alloc, corr, targets.as_slice(), columns)
}

/// The images of each.
pub(crate) fn image_sets(alloc: Global, list: &[Imaged]) -> Result<Seq<Seq<ColId>>, AllocError>
    ensures { IfOk result (λ sets. sets ≡ spec.image_sets list.now) }
{
    let mut sets = Seq::new(alloc);
    for one in list {
        sets.push(one.images.twin(alloc)?)?;
    }
    Ok(sets)
}

/// Adds the set where it has a column.
fn add_nonempty(
    alloc: Global,
    set: &Seq<ColId>,
    sets: &mut Seq<Seq<ColId>>,
) -> Result<(), AllocError>
    ensures { OnOk result (sets.new ≡ sets.old ++ filter has_any (set.now ∷ [])) }
{
    match set.as_slice() {
        [] => Ok(()),
        [_, ..] => sets.push(set.twin(alloc)?),
    }
}

/// Adds the images of each that has one.
pub(crate) fn add_any(
    alloc: Global,
    list: &[Imaged],
    sets: &mut Seq<Seq<ColId>>,
) -> Result<(), AllocError>
    ensures { OnOk result (sets.new ≡ sets.old ++ filter has_any (spec.image_sets list.now)) }
{
    for one in list {
        add_nonempty(alloc, &one.images, sets)?;
    }
    Ok(())
}

/// Adds a set for each of these columns.
fn add_singles(
    alloc: Global,
    columns: &[ColId],
    sets: &mut Seq<Seq<ColId>>,
) -> Result<(), AllocError>
    ensures { OnOk result (sets.new ≡ sets.old ++ map (λ d. d ∷ []) columns.now) }
{
    for column in columns {
        let mut set = Seq::new(alloc);
        set.push(*column)?;
        sets.push(set)?;
    }
    Ok(())
}

/// A set for each image of each.
pub(crate) fn single_sets(alloc: Global, list: &[Imaged]) -> Result<Seq<Seq<ColId>>, AllocError>
    ensures { IfOk result (λ sets. sets ≡ flat_map spec.single_sets list.now) }
{
    let mut sets = Seq::new(alloc);
    for one in list {
        add_singles(alloc, one.images.as_slice(), &mut sets)?;
    }
    Ok(sets)
}

/// The first of the images whose table is in the tree; the column itself where none is.
fn image_in(tree: &Join, images: &[ColId], column: ColId) -> ColId
    ensures { result ≡ image_among images.now tree.now column }
{
    match images {
        [] => column,
        [d, rest @ ..] => {
            if is_in_join(tree, d.table) {
                *d
            } else {
                image_in(tree, rest, column)
            }
        }
    }
}

/// What is written for a column in a tree; the column itself where it is not listed.
pub(crate) fn looked(list: &[Imaged], tree: &Join, column: ColId) -> ColId
    ensures { result ≡ spec.looked list.now tree.now column }
{
    match list {
        [] => column,
        [one, rest @ ..] => {
            if same_col(one.source, column) {
                image_in(tree, one.images.as_slice(), column)
            } else {
                looked(rest, tree, column)
            }
        }
    }
}
