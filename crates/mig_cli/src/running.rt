// What is to be put for calls that are played, and what is left in the store.
ghost use Rattle.std.specs.Prelude.{◌≡◌, ◌≢◌, ◌≤◌, ◌++◌, ◌∷◌, [], ◌⊎◌, IfOk, IfErr, Ok, Some, option_to_list};
ghost use Rattle.mig_schema.specs.Typed.{IsTypedProgram};
ghost use Rattle.mig_schema.specs.Within.{IsProgramWithin};
ghost use Rattle.mig_storage.specs.Meaning.{IsAtRest};
ghost use Rattle.mig_store.specs.Stopped.{IsStopped};
ghost use Rattle.mig_store.specs.declared.faults.CallsFault.TheVariants as calls_fault;
ghost use Rattle.mig_store.specs.Playing as playing;
ghost use Rattle.mig_messages.specs.CallLines as lines;
ghost use Rattle.mig_messages.specs.Statuses as statuses;
ghost use Rattle.mig_cli.specs.Planned as planned;
ghost use Rattle.mig_cli.specs.Plans as plans;
ghost use Rattle.mig_cli.specs.Running as spec;
ghost use Rattle.mig_cli.specs.World.{files_meaning, inputs_of};

use crate::checking::program_in;
use crate::planning::{Plan, fetched, job_in, refusal};
use mig_base::{Bytes, Seq, Word};
use mig_io::Files;
use mig_meaning::Calls;
use mig_messages::{Status, calls_line, calls_status, store_failed};
use mig_schema::{Job, Program, Schema};
use mig_storage::{Store, StoreFault};
use mig_store::{CallsFault, answers_text, read_calls, run};
use std::alloc::{AllocError, Global};

/// The greatest length of a file of calls, in bytes.
const CALLS_CAP: u32 = 8388608;

/// The plan for bytes that say no calls.
fn faulty_calls(alloc: Global, file: &Word, fault: CallsFault) -> Result<Plan, AllocError>
    ensures { IfOk result (λ p. (fault ≢ calls_fault.Memory) × (p ≡ plans.refusal (statuses.calls_status fault) (lines.calls_line file.now fault))) }
{
    let report = calls_line(alloc, file, fault)?;
    Ok(refusal(alloc, calls_status(fault), report))
}

/// The calls of the job's old program that the bytes of a file say, or the plan of their refusal.
fn calls_of(
    alloc: Global,
    job: &Job,
    file: &Word,
    bytes: &Bytes,
) -> Result<Result<Calls, Plan>, AllocError>
    ensures found { IfOk result (λ r. IfOk r (λ c. (playing.calls_in job.now.program bytes.now ≡ Ok c) × planned.ArePlayable job.now.program c.calls)) }
    ensures refused { IfOk result (λ r. IfErr r (planned.AreNoCalls job.now file.now bytes.now)) }
{
    match read_calls(alloc, &job.program, bytes.as_slice()) {
        Ok(calls) => Ok(Ok(calls)),
        Err(fault) => Ok(Err(faulty_calls(alloc, file, fault)?)),
    }
}

/// The calls of the job's old program in the named file, or the plan of its refusal.
fn calls_in<F: Files>(
    alloc: Global,
    job: &Job,
    file: &Word,
    files: &mut F,
) -> Result<Result<Calls, Plan>, AllocError>
    ensures gave { IfOk result (λ r. IfOk r (λ c. spec.GaveCalls (F.told files.old) job.now file.now c.calls × planned.ArePlayable job.now.program c.calls)) }
    ensures refused { let before = files_meaning F.Files files.old in
        let after = files_meaning F.Files files.new in
        IfOk result (λ r. IfErr r (planned.IsNoCalls job.now file.now before after)) }
    ensures asked { F.asked files.new ≡ F.asked files.old ++ file.now ∷ [] }
    ensures told { F.told files.new ≡ F.told files.old }
    ensures later { F.faults files.old ≤ F.faults files.new }
{
    match fetched(alloc, file, files, CALLS_CAP)? {
        Ok(bytes) => calls_of(alloc, job, file, &bytes),
        Err(plan) => Ok(Err(plan)),
    }
}

/// The plan for calls of a program, which are played from empty tables.
fn played_plan<S: Store>(
    alloc: Global,
    store: &mut S,
    schema: &Schema,
    program: &Program,
    calls: &Calls,
) -> Result<Plan, AllocError>
    requires typed { IsTypedProgram schema.now program.now }
    requires within { IsProgramWithin program.now }
    requires playable { planned.ArePlayable program.now calls.now.calls }
    requires rest { IsAtRest (S.meaning store.old) }
    ensures plan { IfOk result (planned.IsPlayPlan schema.now program.now calls.now.calls (S.meaning store.old) (S.meaning store.new)) }
    ensures left { IsStopped schema.now program.now calls.now.calls (S.meaning store.old) (S.meaning store.new) }
    ensures lasts { playing.Lasts (S.meaning store.old) (S.meaning store.new) }
    ensures rest { IsAtRest (S.meaning store.new) }
{
    match run(alloc, store, schema, program, calls) {
        Ok(answers) => Ok(Plan {
            status: Status::Done,
            text: answers_text(alloc, program, &answers)?,
            report: Seq::new(alloc),
        }),
        Err(StoreFault::Memory) => Err(AllocError),
        Err(StoreFault::Failed) => {
            let report = Seq::from_slice(alloc, store_failed().as_bytes())?;
            Ok(refusal(alloc, Status::Store, report))
        }
    }
}

/// The plan for calls that are played with the program of the answer in the named file, if its certificate is valid for the job.
fn answer_run_plan<F: Files, S: Store>(
    alloc: Global,
    job: &Job,
    calls: &Calls,
    answer: &Word,
    files: &mut F,
    store: &mut S,
) -> Result<Plan, AllocError>
    requires playable { planned.ArePlayable job.now.program calls.now.calls }
    requires rest { IsAtRest (S.meaning store.old) }
    ensures plan { let before = inputs_of F.Files S.Store files.old store.old in
        let after = inputs_of F.Files S.Store files.new store.new in
        IfOk result (planned.IsProgramPlan job.now calls.now.calls (Some answer.now) before after) }
    ensures left { (S.meaning store.new ≡ S.meaning store.old) ⊎ spec.PlayedSome (F.told files.old) job.now (Some answer.now) calls.now.calls (S.meaning store.old) (S.meaning store.new) }
    ensures asked { F.asked files.new ≡ F.asked files.old ++ answer.now ∷ [] }
    ensures told { F.told files.new ≡ F.told files.old }
    ensures later { F.faults files.old ≤ F.faults files.new }
    ensures lasts { playing.Lasts (S.meaning store.old) (S.meaning store.new) }
    ensures rest { IsAtRest (S.meaning store.new) }
{
    match program_in(alloc, job, answer, files)? {
        Ok(program) => played_plan(alloc, store, &job.target, &program, calls),
        Err(plan) => Ok(plan),
    }
}

/// The plan for calls that are played with the job's old program; or where an answer is named, with that of the answer.
fn program_plan<F: Files, S: Store>(
    alloc: Global,
    job: &Job,
    calls: &Calls,
    answer: &Option<Word>,
    files: &mut F,
    store: &mut S,
) -> Result<Plan, AllocError>
    requires typed { IsTypedProgram job.now.source job.now.program }
    requires within { IsProgramWithin job.now.program }
    requires playable { planned.ArePlayable job.now.program calls.now.calls }
    requires rest { IsAtRest (S.meaning store.old) }
    ensures plan { let before = inputs_of F.Files S.Store files.old store.old in
        let after = inputs_of F.Files S.Store files.new store.new in
        IfOk result (planned.IsProgramPlan job.now calls.now.calls answer.now before after) }
    ensures left { (S.meaning store.new ≡ S.meaning store.old) ⊎ spec.PlayedSome (F.told files.old) job.now answer.now calls.now.calls (S.meaning store.old) (S.meaning store.new) }
    ensures asked { F.asked files.new ≡ F.asked files.old ++ option_to_list answer.now }
    ensures told { F.told files.new ≡ F.told files.old }
    ensures later { F.faults files.old ≤ F.faults files.new }
    ensures lasts { playing.Lasts (S.meaning store.old) (S.meaning store.new) }
    ensures rest { IsAtRest (S.meaning store.new) }
{
    match answer {
        None => played_plan(alloc, store, &job.source, &job.program, calls),
        Some(answer) => answer_run_plan(alloc, job, calls, answer, files, store),
    }
}

/// The plan for the named file of calls, which are played if they are calls of the job's old program.
fn calls_plan<F: Files, S: Store>(
    alloc: Global,
    job: &Job,
    file: &Word,
    answer: &Option<Word>,
    files: &mut F,
    store: &mut S,
) -> Result<Plan, AllocError>
    requires typed { IsTypedProgram job.now.source job.now.program }
    requires within { IsProgramWithin job.now.program }
    requires rest { IsAtRest (S.meaning store.old) }
    ensures plan { let before = inputs_of F.Files S.Store files.old store.old in
        let after = inputs_of F.Files S.Store files.new store.new in
        IfOk result (planned.IsCallsPlan job.now file.now answer.now before after) }
    ensures left { let before = inputs_of F.Files S.Store files.old store.old in
        let after = inputs_of F.Files S.Store files.new store.new in
        (S.meaning store.new ≡ S.meaning store.old) ⊎ spec.CallsSome job.now file.now answer.now before after }
    ensures asked { planned.FirstAsked (file.now ∷ option_to_list answer.now) (F.asked files.old) (F.asked files.new) }
    ensures told { F.told files.new ≡ F.told files.old }
    ensures later { F.faults files.old ≤ F.faults files.new }
    ensures lasts { playing.Lasts (S.meaning store.old) (S.meaning store.new) }
    ensures rest { IsAtRest (S.meaning store.new) }
{
    match calls_in(alloc, job, file, files)? {
        Ok(calls) => program_plan(alloc, job, &calls, answer, files, store),
        Err(plan) => Ok(plan),
    }
}

/// The plan for the job in the one file and the calls in the other, which are played if both are sound: with the job's old
/// program, or with that of the answer in the third file, if its certificate is valid.
pub fn run_plan<F: Files, S: Store>(
    alloc: Global,
    file: &Word,
    calls: &Word,
    answer: &Option<Word>,
    files: &mut F,
    store: &mut S,
) -> Result<Plan, AllocError>
    requires rest { IsAtRest (S.meaning store.old) }
    ensures plan { let before = inputs_of F.Files S.Store files.old store.old in
        let after = inputs_of F.Files S.Store files.new store.new in
        IfOk result (planned.IsRunPlan file.now calls.now answer.now before after) }
    ensures left { let before = inputs_of F.Files S.Store files.old store.old in
        let after = inputs_of F.Files S.Store files.new store.new in
        (S.meaning store.new ≡ S.meaning store.old) ⊎ spec.RanSome file.now calls.now answer.now before after }
    ensures asked { planned.FirstAsked (file.now ∷ calls.now ∷ option_to_list answer.now) (F.asked files.old) (F.asked files.new) }
    ensures told { F.told files.new ≡ F.told files.old }
    ensures later { F.faults files.old ≤ F.faults files.new }
    ensures lasts { playing.Lasts (S.meaning store.old) (S.meaning store.new) }
    ensures rest { IsAtRest (S.meaning store.new) }
{
    match job_in(alloc, file, files)? {
        Ok(job) => calls_plan(alloc, &job, calls, answer, files, store),
        Err(plan) => Ok(plan),
    }
}
