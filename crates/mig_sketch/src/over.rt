// What may stand in a hole, tree by tree.
ghost use Rattle.std.specs.Prelude.{◌≡◌, ◌++◌, IfOk};
ghost use Rattle.std.specs.List.{flat_map};

use crate::plans::Part;
use mig_base::Seq;
use mig_schema::Join;
use std::alloc::{AllocError, Global};

/// An old statement or query that may be written over trees.
pub(crate) trait Over {
    ghost use Rattle.std.specs.Prelude.{List, ◌≡◌, ◌++◌, OnOk};
    ghost use Rattle.mig_schema.specs.declared.programs.Join.{Join};
    ghost use Rattle.mig_sketch.specs.declared.plans.Part.{Part};

    ghost over: { Self → Join → List Part };

    /// Adds all that it may be over this tree.
    fn add_over(
        &self,
        alloc: Global,
        tree: &Join,
        options: &mut Seq<Part>,
    ) -> Result<(), AllocError>
        ensures { OnOk result (options.new ≡ options.old ++ over self.now tree.now) };
}

/// All that it may be over these trees.
pub(crate) fn options_over<T: Over>(
    alloc: Global,
    old: &T,
    trees: &[Join],
) -> Result<Seq<Part>, AllocError>
    ensures { IfOk result (λ options. options ≡ flat_map (T.over old.now) trees.now) }
{
    let mut options = Seq::new(alloc);
    for tree in trees {
        old.add_over(alloc, tree, &mut options)?;
    }
    Ok(options)
}
