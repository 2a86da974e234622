// What is to be put, the status that the desk ends with, and the files that are read for it.
ghost use Rattle.std.specs.Prelude.{◌≡◌, ◌≢◌, ◌≤◌, ◌++◌, ◌∷◌, [], IfOk, IfErr, length};
ghost use Rattle.mig_syntax.specs.Job.{IsTypedJobText};
ghost use Rattle.mig_schema.specs.Within.{IsProgramWithin};
ghost use Rattle.mig_messages.specs.Lines as lines;
ghost use Rattle.mig_messages.specs.Statuses as statuses;
ghost use Rattle.mig_cli.specs.Jobs as spec;
ghost use Rattle.mig_cli.specs.Planned.{IsFaulty, IsNoJob, IsUnfetched};
ghost use Rattle.mig_cli.specs.Plans as plans;
ghost use Rattle.mig_cli.specs.World.{files_meaning};

use mig_base::{Bytes, Seq, Txt, Word};
use mig_io::{FetchFault, Files};
use mig_messages::{Status, cannot_read, fault_line, fault_status, too_long};
use mig_schema::Job;
use mig_syntax::{TextFault, read_job};
use std::alloc::{AllocError, Global};

/// The greatest length of a job, in bytes.
const JOB_CAP: u32 = 262144;

/// The status that the desk is to end with, and the texts for `out` and for `err`.
#[derive(Drop)]
pub struct Plan {
    pub status: Status,
    pub text: Txt,
    pub report: Txt,
}

/// A plan that puts nothing on `out`.
pub fn refusal(alloc: Global, status: Status, report: Txt) -> Plan
    ensures { result ≡ plans.refusal status report }
{
    Plan {
        status,
        text: Seq::new(alloc),
        report,
    }
}

/// The bytes of the named file, at most so many, or the plan of its refusal.
pub fn fetched<F: Files>(
    alloc: Global,
    file: &Word,
    files: &mut F,
    cap: u32,
) -> Result<Result<Bytes, Plan>, AllocError>
    ensures gave { IfOk result (λ r. IfOk r (λ bytes. spec.Gave (F.told files.old) file.now cap bytes)) }
    ensures refused { let before = files_meaning F.Files files.old in
        let after = files_meaning F.Files files.new in
        IfOk result (λ r. IfErr r (IsUnfetched file.now cap before after)) }
    ensures asked { F.asked files.new ≡ F.asked files.old ++ file.now ∷ [] }
    ensures told { F.told files.new ≡ F.told files.old }
    ensures later { F.faults files.old ≤ F.faults files.new }
{
    match files.fetch(alloc, file, u64::from(cap)) {
        Ok(bytes) => Ok(Ok(bytes)),
        Err(FetchFault::Memory) => Err(AllocError),
        Err(FetchFault::Failed) => {
            let report = cannot_read(alloc, file)?;
            Ok(Err(refusal(alloc, Status::File, report)))
        }
        Err(FetchFault::Long) => {
            let report = too_long(alloc, file, cap)?;
            Ok(Err(refusal(alloc, Status::Limit, report)))
        }
    }
}

/// The plan for bytes that are no job, or no answer, of which this fault is told.
pub fn faulty_plan(alloc: Global, file: &Word, fault: TextFault) -> Result<Plan, AllocError>
    ensures { IfOk result (λ p. (fault ≢ TextFault.Memory) × (p ≡ plans.refusal (statuses.fault_status fault) (lines.fault_line file.now fault))) }
{
    let report = fault_line(alloc, file, fault)?;
    Ok(refusal(alloc, fault_status(fault), report))
}

/// The job that the bytes of a file spell, or the plan of their refusal.
fn job_of(alloc: Global, file: &Word, bytes: &Bytes) -> Result<Result<Job, Plan>, AllocError>
    requires { length bytes.now ≤ spec.job_cap }
    ensures found { IfOk result (λ r. IfOk r (λ job. IsTypedJobText bytes.now job × IsProgramWithin job.program)) }
    ensures refused { IfOk result (λ r. IfErr r (IsFaulty file.now bytes.now)) }
{
    match read_job(alloc, bytes.as_slice()) {
        Ok(job) => Ok(Ok(job)),
        Err(fault) => Ok(Err(faulty_plan(alloc, file, fault)?)),
    }
}

/// The job in the named file, or the plan of its refusal.
pub fn job_in<F: Files>(
    alloc: Global,
    file: &Word,
    files: &mut F,
) -> Result<Result<Job, Plan>, AllocError>
    ensures gave { IfOk result (λ r. IfOk r (λ job. spec.GaveJob (F.told files.old) file.now job × IsProgramWithin job.program)) }
    ensures refused { let before = files_meaning F.Files files.old in
        let after = files_meaning F.Files files.new in
        IfOk result (λ r. IfErr r (IsNoJob file.now before after)) }
    ensures asked { F.asked files.new ≡ F.asked files.old ++ file.now ∷ [] }
    ensures told { F.told files.new ≡ F.told files.old }
    ensures later { F.faults files.old ≤ F.faults files.new }
{
    match fetched(alloc, file, files, JOB_CAP)? {
        Ok(bytes) => job_of(alloc, file, &bytes),
        Err(plan) => Ok(Err(plan)),
    }
}
