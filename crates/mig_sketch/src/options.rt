// All that may stand in a hole, over each link tree that serves what it needs.
ghost use Rattle.std.specs.Prelude.{◌≡◌, ◌++◌, ℕ, List, All, IfOk, OnOk, filter, map};
ghost use Rattle.mig_schema.specs.declared.programs.Join.{Join as Joining};
ghost use Rattle.mig_schema.specs.declared.programs.Stmt.TheVariants.{Insert, Delete, Set};
ghost use Rattle.mig_sketch.specs.declared.plans.Part.TheVariants as part;
ghost use Rattle.mig_invariant.specs.Columns.{all_columns as spec_all_columns, columns_within as spec_columns_within};
ghost use Rattle.mig_invariant.specs.Images.{images};
ghost use Rattle.mig_sketch.specs.Asking.{IsRight};
ghost use Rattle.mig_sketch.specs.Needs.{has_any};
ghost use Rattle.mig_sketch.specs.Options.{AreOptions};

use crate::asking::{Asked, ask};
use crate::deletes::OldDelete;
use crate::images::{add_any, image_sets, single_sets, with_images};
use crate::inserts::OldInsert;
use crate::needing::{add_condition, join_columns, query_columns, set_columns};
use crate::over::options_over;
use crate::plans::Part;
use crate::queries::OldQuery;
use crate::sets::{OldSet, only_image};
use crate::values::carried;
use mig_base::Seq;
use mig_invariant::{Corr, all_columns, columns_within};
use mig_schema::{Assign, ColId, ColSets, Cond, Job, Join, Query, Scalar, Stmt};
use std::alloc::{AllocError, Global};

/// All that may stand for a query.
pub(crate) fn query_options(
    alloc: Global,
    job: &Job,
    corr: &Corr,
    query: &Query,
    asked: &mut Vec<Asked>,
) -> Result<Seq<Part>, AllocError>
    requires { All (IsRight job.now.target) asked.old.items }
    ensures right { OnOk result (All (IsRight job.now.target) asked.new.items) }
    ensures options { IfOk result (λ o. (free : List ℕ) (s : ℕ) → AreOptions job.now corr.now free s (part.Query query.now) o) }
{
    let columns = query_columns(alloc, query)?;
    let images = with_images(alloc, &job.target, corr, columns.as_slice())?;
    let sets = image_sets(alloc, images.as_slice())?;
    let trees = ask(alloc, &job.target, ColSets { sets }, asked)?;
    let old = OldQuery {
        query,
        images: images.as_slice(),
    };
    options_over(alloc, &old, trees.as_slice())
}

/// All that may stand for an insert.
fn insert_options(
    alloc: Global,
    job: &Job,
    corr: &Corr,
    free: &[u32],
    statement: u32,
    join: &Join,
    values: &[Assign],
    asked: &mut Vec<Asked>,
) -> Result<Seq<Part>, AllocError>
    requires { All (IsRight job.now.target) asked.old.items }
    ensures right { OnOk result (All (IsRight job.now.target) asked.new.items) }
    ensures options { IfOk result (λ o. AreOptions job.now corr.now free.now statement (part.Stmt (Insert join.now values.now)) o) }
{
    let columns = join_columns(alloc, &job.source, join)?;
    let images = with_images(alloc, &job.target, corr, columns.as_slice())?;
    let sets = single_sets(alloc, images.as_slice())?;
    let trees = ask(alloc, &job.target, ColSets { sets }, asked)?;
    let carried = carried(alloc, join, values, images.as_slice())?;
    let old = OldInsert {
        target: &job.target,
        carried: carried.as_slice(),
        free,
        statement,
    };
    options_over(alloc, &old, trees.as_slice())
}

/// Adds the images of each column of these old tables that has one.
#[tactic(auto, using(crate::proofs::Agreeing::images_listed))]
fn add_listed(
    alloc: Global,
    job: &Job,
    corr: &Corr,
    tables: &[u32],
    sets: &mut Seq<Seq<ColId>>,
) -> Result<(), AllocError>
    ensures { OnOk result (sets.new ≡ sets.old ++ filter has_any (map (images job.now.target corr.now) (spec_columns_within (spec_all_columns job.now.source) tables.now))) }
{
    let all = all_columns(alloc, &job.source)?;
    let columns = columns_within(alloc, all.as_slice(), tables)?;
    let images = with_images(alloc, &job.target, corr, columns.as_slice())?;
    add_any(alloc, images.as_slice(), sets)
}

/// All that may stand for a delete, whichever join it has.
fn delete_options(
    alloc: Global,
    job: &Job,
    corr: &Corr,
    tables: &[u32],
    cond: &Cond,
    asked: &mut Vec<Asked>,
) -> Result<Seq<Part>, AllocError>
    requires { All (IsRight job.now.target) asked.old.items }
    ensures right { OnOk result (All (IsRight job.now.target) asked.new.items) }
    ensures options { IfOk result (λ o. (free : List ℕ) (s : ℕ) (join : Joining) → AreOptions job.now corr.now free s (part.Stmt (Delete tables.now join cond.now)) o) }
{
    let mut columns = Seq::new(alloc);
    add_condition(cond, &mut columns)?;
    let images = with_images(alloc, &job.target, corr, columns.as_slice())?;
    let mut sets = image_sets(alloc, images.as_slice())?;
    add_listed(alloc, job, corr, tables, &mut sets)?;
    let trees = ask(alloc, &job.target, ColSets { sets }, asked)?;
    let old = OldDelete {
        target: &job.target,
        cond,
        images: images.as_slice(),
    };
    options_over(alloc, &old, trees.as_slice())
}

/// All that may stand for a set, whichever join it has.
fn set_options(
    alloc: Global,
    job: &Job,
    corr: &Corr,
    column: ColId,
    value: &Scalar,
    cond: &Cond,
    asked: &mut Vec<Asked>,
) -> Result<Seq<Part>, AllocError>
    requires { All (IsRight job.now.target) asked.old.items }
    ensures right { OnOk result (All (IsRight job.now.target) asked.new.items) }
    ensures options { IfOk result (λ o. (free : List ℕ) (s : ℕ) (join : Joining) → AreOptions job.now corr.now free s (part.Stmt (Set column value.now join cond.now)) o) }
{
    let columns = set_columns(alloc, column, cond)?;
    let images = with_images(alloc, &job.target, corr, columns.as_slice())?;
    let sets = image_sets(alloc, images.as_slice())?;
    let trees = ask(alloc, &job.target, ColSets { sets }, asked)?;
    let targets = all_columns(alloc, &job.target)?;
    let own = corr.images(alloc, targets.as_slice(), column)?;
    let old = OldSet {
        column: only_image(own.as_slice()),
        value,
        cond,
        images: images.as_slice(),
    };
    options_over(alloc, &old, trees.as_slice())
}

/// All that may stand for a statement.
pub(crate) fn stmt_options(
    alloc: Global,
    job: &Job,
    corr: &Corr,
    free: &[u32],
    statement: u32,
    stmt: &Stmt,
    asked: &mut Vec<Asked>,
) -> Result<Seq<Part>, AllocError>
    requires { All (IsRight job.now.target) asked.old.items }
    ensures right { OnOk result (All (IsRight job.now.target) asked.new.items) }
    ensures options { IfOk result (λ o. AreOptions job.now corr.now free.now statement (part.Stmt stmt.now) o) }
{
    match stmt {
        Stmt::Insert { join, values } => {
            let values = values.as_slice();
            insert_options(alloc, job, corr, free, statement, join, values, asked)
        }
        Stmt::Delete { tables, cond, .. } => {
            delete_options(alloc, job, corr, tables.as_slice(), cond, asked)
        }
        Stmt::Set {
            column,
            value,
            cond,
            ..
        } => set_options(alloc, job, corr, *column, value, cond, asked),
    }
}
