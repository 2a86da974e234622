// The typing rules of a whole job.
ghost use Rattle.mig_schema.specs.Typed.{IsTyped};
ghost use Rattle.mig_syntax.specs.TypingFault.{IsTypingFault, IsChecked};

use mig_schema::{Job, Side, TypeFault};
use mig_typing::{check_hints, check_program, check_schema};
use std::alloc::Global;

/// The first typing rule that a job breaks: of the old schema, of the new one, of the program, and of the hints.
pub(crate) fn check_job(alloc: Global, job: &Job) -> Result<(), TypeFault>
    ensures { IsChecked (IsTyped job.now) (IsTypingFault job.now) result }
{
    check_schema(alloc, &job.source, Side::Old)?;
    check_schema(alloc, &job.target, Side::New)?;
    check_program(alloc, &job.source, &job.program)?;
    check_hints(alloc, job)
}
