// What may stand for a set.
ghost use Rattle.std.specs.Prelude.{◌≡◌};
ghost use Rattle.mig_sketch.specs.Imaging.{looked};
ghost use Rattle.mig_sketch.specs.Options as spec;

use crate::images::Imaged;
use crate::over::Over;
use crate::plans::Part;
use crate::writing::condition;
use mig_base::{Exact, Seq};
use mig_schema::{ColId, Cond, Join, Scalar, Stmt};
use std::alloc::{AllocError, Global};

/// The value and the condition of an old set, the one image of its column, if it has just one, and the images of the columns that it names.
#[derive(Clone, Copy)]
pub(crate) struct OldSet<'a> {
    pub(crate) column: Option<ColId>,
    pub(crate) value: &'a Scalar,
    pub(crate) cond: &'a Cond,
    pub(crate) images: &'a [Imaged],
}

/// The only one of these images; `None` where there is none, or a second one.
pub(crate) fn only_image(images: &[ColId]) -> Option<ColId>
    ensures { result ≡ spec.only_image images.now }
{
    match images {
        [one] => Some(*one),
        _ => None,
    }
}

impl Over for OldSet<'_> {
    ghost over = { λ old tree. spec.set_over (looked old.images.now tree) old.column old.value.now old.cond.now tree };

    fn add_over(
        &self,
        alloc: Global,
        tree: &Join,
        options: &mut Seq<Part>,
    ) -> Result<(), AllocError> {
        match self.column {
            None => Ok(()),
            Some(column) => {
                let stmt = Stmt::Set {
                    column,
                    value: self.value.twin(alloc)?,
                    join: tree.twin(alloc)?,
                    cond: condition(alloc, self.images, tree, self.cond)?,
                };
                options.push(Part::Stmt(stmt))
            }
        }
    }
}
