// Writes invariants, a line each.
ghost use Rattle.std.specs.Prelude.{◌≡◌, ◌++◌, OnOk};
ghost use Rattle.std.specs.List.{flat_map};
ghost use Rattle.mig_answer.specs.AnswerText.{schema_of, side_text, view_text, columns_text, fact_text, invariant_text};

use mig_algebra::{Invariant, View};
use mig_base::Txt;
use mig_printing::{put, put_col, put_cols, put_join};
use mig_schema::{ColId, Job, Schema, Side};
use std::alloc::AllocError;

/// The schema of a side.
fn schema_of(job: &Job, side: Side) -> &Schema
    ensures { result.now ≡ schema_of job.now side }
{
    match side {
        Side::Old => &job.source,
        Side::New => &job.target,
    }
}

fn put_side(out: &mut Txt, side: Side) -> Result<(), AllocError>
    ensures { OnOk result (out.new ≡ out.old ++ side_text side) }
{
    match side {
        Side::Old => put(out, "old"),
        Side::New => put(out, "new"),
    }
}

fn put_view(out: &mut Txt, schema: &Schema, view: &View) -> Result<(), AllocError>
    ensures { OnOk result (out.new ≡ out.old ++ view_text schema.now view.now) }
{
    put_join(out, schema, &view.join)?;
    put(out, " { ")?;
    put_cols(out, schema, view.outs.as_slice())?;
    put(out, " }")
}

fn put_columns(
    out: &mut Txt,
    job: &Job,
    side: Side,
    left: ColId,
    right: ColId,
) -> Result<(), AllocError>
    ensures { OnOk result (out.new ≡ out.old ++ columns_text job.now side left right) }
{
    put_side(out, side)?;
    put(out, " ")?;
    put_col(out, schema_of(job, side), left)?;
    put(out, " ")?;
    put_col(out, schema_of(job, side), right)
}

fn put_fact(out: &mut Txt, job: &Job, invariant: &Invariant) -> Result<(), AllocError>
    ensures { OnOk result (out.new ≡ out.old ++ fact_text job.now invariant.now) }
{
    match invariant {
        Invariant::Views { source, target } => {
            put(out, "view ")?;
            put_view(out, &job.source, source)?;
            put(out, " is ")?;
            put_view(out, &job.target, target)
        }
        Invariant::Unique { side, column } => {
            put(out, "unique ")?;
            put_side(out, *side)?;
            put(out, " ")?;
            put_col(out, schema_of(job, *side), *column)
        }
        Invariant::Apart { side, left, right } => {
            put(out, "apart ")?;
            put_columns(out, job, *side, *left, *right)
        }
        Invariant::Within { side, left, right } => {
            put(out, "within ")?;
            put_columns(out, job, *side, *left, *right)
        }
    }
}

fn put_invariant(out: &mut Txt, job: &Job, invariant: &Invariant) -> Result<(), AllocError>
    ensures { OnOk result (out.new ≡ out.old ++ invariant_text job.now invariant.now) }
{
    put_fact(out, job, invariant)?;
    put(out, ";\n")
}

/// Appends the lines of invariants, in order.
pub(crate) fn put_invariants(
    out: &mut Txt,
    job: &Job,
    invariants: &[Invariant],
) -> Result<(), AllocError>
    ensures { OnOk result (out.new ≡ out.old ++ flat_map (invariant_text job.now) invariants.now) }
{
    for invariant in invariants {
        put_invariant(out, job, invariant)?;
    }
    Ok(())
}
