// What may stand for a query.
ghost use Rattle.mig_sketch.specs.Imaging.{looked};
ghost use Rattle.mig_sketch.specs.Options.{query_over};

use crate::images::Imaged;
use crate::over::Over;
use crate::plans::Part;
use crate::writing::{columns, condition};
use mig_base::{Exact, Seq};
use mig_schema::{Join, Query};
use std::alloc::{AllocError, Global};

/// An old query, and the images of the columns that it names.
#[derive(Clone, Copy)]
pub(crate) struct OldQuery<'a> {
    pub(crate) query: &'a Query,
    pub(crate) images: &'a [Imaged],
}

impl Over for OldQuery<'_> {
    ghost over = { λ old tree. query_over (looked old.images.now tree) old.query.now tree };

    fn add_over(
        &self,
        alloc: Global,
        tree: &Join,
        options: &mut Seq<Part>,
    ) -> Result<(), AllocError> {
        let query = Query {
            columns: columns(alloc, self.images, tree, self.query.columns.as_slice())?,
            join: tree.twin(alloc)?,
            cond: condition(alloc, self.images, tree, &self.query.cond)?,
        };
        options.push(Part::Query(query))
    }
}
