// Answers that are checked: their programs, and what is to be put.
ghost use Rattle.std.specs.Prelude.{◌≡◌, ◌≤◌, ◌++◌, ◌∷◌, [], ◌⊎◌, IfOk, IfErr, length};
ghost use Rattle.mig_certificate.specs.Valid.{IsValid};
ghost use Rattle.mig_messages.specs.VerdictLines as lines;
ghost use Rattle.mig_cli.specs.Checking as spec;
ghost use Rattle.mig_cli.specs.Migrating.{answer_cap};
ghost use Rattle.mig_cli.specs.Planned.{IsAnswerPlan, IsCheckPlan, IsNoProgram, IsTurnedText, IsValidText};
ghost use Rattle.mig_cli.specs.Plans as plans;
ghost use Rattle.mig_cli.specs.World.{files_meaning};

use crate::migrating::ANSWER_CAP;
use crate::planning::{Plan, faulty_plan, fetched, job_in, refusal};
use mig_base::{Bytes, Seq, Word};
use mig_certificate::Certificate;
use mig_checker::{Verdict, Why, check};
use mig_io::Files;
use mig_messages::{Status, accepted, rejected_line};
use mig_reading::read_answer;
use mig_schema::{Job, Program};
use std::alloc::{AllocError, Global};

/// The plan for a certificate that is not valid: the line on its first broken place.
fn rejected_plan(
    alloc: Global,
    pair: u32,
    obligation: u32,
    step: u32,
    why: Why,
) -> Result<Plan, AllocError>
    ensures { IfOk result (λ p. p ≡ plans.refusal Status.Rejected (lines.rejected_line pair obligation step why)) }
{
    let report = rejected_line(alloc, pair, obligation, step, why)?;
    Ok(refusal(alloc, Status::Rejected, report))
}

/// The program, where the checker accepts it with its certificate, or the plan that tells the first broken place.
fn judged(
    alloc: Global,
    job: &Job,
    program: Program,
    certificate: &Certificate,
) -> Result<Result<Program, Plan>, AllocError>
    ensures accepted { IfOk result (λ r. IfOk r (λ p. (p ≡ program) × IsValid job.now program certificate.now)) }
    ensures rejected { IfOk result (λ r. IfErr r (spec.IsRejected job.now program certificate.now)) }
{
    let verdict = check(alloc, job, &program, certificate)?;
    match verdict {
        Verdict::Accepted => Ok(Ok(program)),
        Verdict::Rejected {
            pair,
            obligation,
            step,
            why,
        } => {
            let plan = rejected_plan(alloc, pair, obligation, step, why)?;
            Ok(Err(plan))
        }
    }
}

/// The program of the answer that the bytes of a file are over a job, where its certificate is valid, or the plan of its refusal.
fn program_of(
    alloc: Global,
    job: &Job,
    file: &Word,
    bytes: &Bytes,
) -> Result<Result<Program, Plan>, AllocError>
    requires { length bytes.now ≤ answer_cap }
    ensures found { IfOk result (λ r. IfOk r (IsValidText job.now bytes.now)) }
    ensures refused { IfOk result (λ r. IfErr r (IsTurnedText job.now file.now bytes.now)) }
{
    match read_answer(alloc, job, bytes.as_slice()) {
        Ok((program, certificate)) => judged(alloc, job, program, &certificate),
        Err(fault) => Ok(Err(faulty_plan(alloc, file, fault)?)),
    }
}

/// The program of the answer in the named file, where its certificate is valid for the job, or the plan of its refusal.
pub fn program_in<F: Files>(
    alloc: Global,
    job: &Job,
    file: &Word,
    files: &mut F,
) -> Result<Result<Program, Plan>, AllocError>
    ensures gave { IfOk result (λ r. IfOk r (spec.GaveProgram (F.told files.old) job.now file.now)) }
    ensures refused { let before = files_meaning F.Files files.old in
        let after = files_meaning F.Files files.new in
        IfOk result (λ r. IfErr r (IsNoProgram job.now file.now before after)) }
    ensures asked { F.asked files.new ≡ F.asked files.old ++ file.now ∷ [] }
    ensures told { F.told files.new ≡ F.told files.old }
    ensures later { F.faults files.old ≤ F.faults files.new }
{
    match fetched(alloc, file, files, ANSWER_CAP)? {
        Ok(bytes) => program_of(alloc, job, file, &bytes),
        Err(plan) => Ok(Err(plan)),
    }
}

/// The plan for an answer whose certificate is valid.
fn accepted_plan(alloc: Global) -> Result<Plan, AllocError>
    ensures { IfOk result (λ p. p ≡ plans.answered lines.accepted []) }
{
    Ok(Plan {
        status: Status::Done,
        text: Seq::from_slice(alloc, accepted().as_bytes())?,
        report: Seq::new(alloc),
    })
}

/// The plan for the named file of an answer, over a job.
fn answer_plan<F: Files>(
    alloc: Global,
    job: &Job,
    file: &Word,
    files: &mut F,
) -> Result<Plan, AllocError>
    ensures plan { let before = files_meaning F.Files files.old in
        let after = files_meaning F.Files files.new in
        IfOk result (IsAnswerPlan job.now file.now before after) }
    ensures asked { F.asked files.new ≡ F.asked files.old ++ file.now ∷ [] }
    ensures told { F.told files.new ≡ F.told files.old }
    ensures later { F.faults files.old ≤ F.faults files.new }
{
    match program_in(alloc, job, file, files)? {
        Ok(_) => accepted_plan(alloc),
        Err(plan) => Ok(plan),
    }
}

/// The plan for the job in the one file and the answer in the other, which is read and checked where the job is sound.
pub fn checked_plan<F: Files>(
    alloc: Global,
    file: &Word,
    answer: &Word,
    files: &mut F,
) -> Result<Plan, AllocError>
    ensures plan { let before = files_meaning F.Files files.old in
        let after = files_meaning F.Files files.new in
        IfOk result (IsCheckPlan file.now answer.now before after) }
    ensures asked { (F.asked files.new ≡ F.asked files.old ++ file.now ∷ []) ⊎ (F.asked files.new ≡ F.asked files.old ++ file.now ∷ answer.now ∷ []) }
    ensures told { F.told files.new ≡ F.told files.old }
    ensures later { F.faults files.old ≤ F.faults files.new }
{
    match job_in(alloc, file, files)? {
        Ok(job) => answer_plan(alloc, &job, answer, files),
        Err(plan) => Ok(plan),
    }
}
