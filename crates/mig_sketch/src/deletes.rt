// What may stand for a delete.
ghost use Rattle.std.specs.Prelude.{◌≡◌, ◌++◌, map, OnOk, IfOk};
ghost use Rattle.std.specs.List.{flat_map, range_with_len};
ghost use Rattle.mig_listing.specs.Choices.{choices as spec_choices};
ghost use Rattle.mig_sketch.specs.Imaging.{looked};
ghost use Rattle.mig_sketch.specs.Options as spec;

use crate::images::Imaged;
use crate::over::Over;
use crate::plans::Part;
use crate::writing::condition;
use mig_base::{Exact, Seq, number};
use mig_schema::{Cond, Join, Schema, Stmt, is_in_join};
use mig_trees::choices;
use std::alloc::{AllocError, Global};

/// The condition of an old delete, and the images of the columns that it names.
#[derive(Clone, Copy)]
pub(crate) struct OldDelete<'a> {
    pub(crate) target: &'a Schema,
    pub(crate) cond: &'a Cond,
    pub(crate) images: &'a [Imaged],
}

/// The tables of a join by their numbers.
fn rising_tables(alloc: Global, schema: &Schema, join: &Join) -> Result<Vec<u32>, AllocError>
    ensures { IfOk result (λ v. v.items ≡ spec.rising_tables schema.now join.now) }
{
    let count = number(schema.tables.len())?;
    (0..count).filter(|t| is_in_join(join, *t)).collect(alloc)
}

/// Adds a delete from each of these sets of tables.
fn add_deletes(
    alloc: Global,
    sets: &[Seq<u32>],
    tree: &Join,
    cond: &Cond,
    options: &mut Seq<Part>,
) -> Result<(), AllocError>
    ensures { OnOk result (options.new ≡ options.old ++ map (spec.delete_from tree.now cond.now) sets.now) }
{
    for tables in sets {
        let stmt = Stmt::Delete {
            tables: tables.twin(alloc)?,
            join: tree.twin(alloc)?,
            cond: cond.twin(alloc)?,
        };
        options.push(Part::Stmt(stmt))?;
    }
    Ok(())
}

/// Adds a delete from each set of one to four of these tables, by size.
fn add_all_deletes(
    alloc: Global,
    tables: &[u32],
    tree: &Join,
    cond: &Cond,
    options: &mut Seq<Part>,
) -> Result<(), AllocError>
    ensures { OnOk result (options.new ≡ options.old ++ map (spec.delete_from tree.now cond.now) (flat_map (λ n. spec_choices n tables.now) (range_with_len 1 4))) }
{
    for smaller in 0..4 {
        let sets = choices(alloc, smaller + 1, tables)?;
        add_deletes(alloc, sets.as_slice(), tree, cond, options)?;
    }
    Ok(())
}

impl Over for OldDelete<'_> {
    ghost over = { λ old tree. spec.delete_over old.target.now (looked old.images.now tree) old.cond.now tree };

    fn add_over(
        &self,
        alloc: Global,
        tree: &Join,
        options: &mut Seq<Part>,
    ) -> Result<(), AllocError> {
        let cond = condition(alloc, self.images, tree, self.cond)?;
        let tables = rising_tables(alloc, self.target, tree)?;
        add_all_deletes(alloc, tables.as_slice(), tree, &cond, options)
    }
}
