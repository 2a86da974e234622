// The link trees of a schema, asked for once for each list of needed columns that is new.
ghost use Rattle.std.specs.Prelude.{◌≡◌, ◌<◌, length, slice_index_or, OnOk, All, IfOk, IfSome};
ghost use Rattle.mig_sketch.specs.declared.asking.Asked.{Asked as Known};
ghost use Rattle.mig_sketch.specs.Asking.{IsRight};
ghost use Rattle.mig_trees.specs.Answer.{AreTrees};

use mig_base::{Exact, Seq};
use mig_schema::{ColSets, Join, Schema, TreeList};
use mig_trees::trees;
use std::alloc::{AllocError, Global};

/// A need, and the link trees that serve it.
#[derive(Debug, Drop)]
pub(crate) struct Asked {
    pub(crate) need: ColSets,
    pub(crate) trees: TreeList,
}

/// The place of an equal need among those that were asked for.
fn place_of(need: &ColSets, asked: &[Asked]) -> Option<usize>
    ensures within { IfSome result (λ k. k < length asked.now) }
    ensures equal { IfSome result (λ k. (d : Known) → (slice_index_or asked.now k d).need.sets ≡ need.now.sets) }
{
    for k in 0..asked.len() {
        if asked[k].need.sets.same(&need.sets) {
            return Some(k);
        }
    }
    None
}

/// The trees of the need, which are asked for where it is new.
pub(crate) fn ask(
    alloc: Global,
    target: &Schema,
    need: ColSets,
    asked: &mut Vec<Asked>,
) -> Result<Seq<Join>, AllocError>
    requires { All (IsRight target.now) asked.old.items }
    ensures right { OnOk result (All (IsRight target.now) asked.new.items) }
    ensures trees { IfOk result (λ joins. AreTrees target.now need.sets joins) }
{
    match place_of(&need, asked.as_slice()) {
        Some(k) => asked[k].trees.joins.twin(alloc),
        None => {
            let trees = trees(alloc, target, &need)?;
            let joins = trees.joins.twin(alloc)?;
            asked.push(Asked { need, trees })?;
            Ok(joins)
        }
    }
}
