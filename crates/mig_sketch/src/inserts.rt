// What may stand for an insert.
ghost use Rattle.mig_sketch.specs.Options.{insert_over};
ghost use Rattle.mig_sketch.specs.Values.{insert_values as spec_insert_values};

use crate::over::Over;
use crate::plans::Part;
use crate::values::insert_values;
use mig_base::{Exact, Seq};
use mig_schema::{Assign, Join, Schema, Stmt};
use std::alloc::{AllocError, Global};

/// What an old insert gives to new columns, the number of the statement, and the labels that its function does not use.
#[derive(Clone, Copy)]
pub(crate) struct OldInsert<'a> {
    pub(crate) target: &'a Schema,
    pub(crate) carried: &'a [Assign],
    pub(crate) free: &'a [u32],
    pub(crate) statement: u32,
}

impl Over for OldInsert<'_> {
    ghost over = { λ old tree. insert_over tree (spec_insert_values old.target.now old.carried.now old.free.now old.statement tree) };

    fn add_over(
        &self,
        alloc: Global,
        tree: &Join,
        options: &mut Seq<Part>,
    ) -> Result<(), AllocError> {
        match insert_values(
            alloc,
            self.target,
            self.carried,
            self.free,
            self.statement,
            tree,
        )? {
            None => Ok(()),
            Some(values) => {
                let join = tree.twin(alloc)?;
                options.push(Part::Stmt(Stmt::Insert { join, values }))
            }
        }
    }
}
