// What is to be put for a job that is migrated.
ghost use Rattle.std.specs.Prelude.{◌≡◌, ◌≤◌, ◌++◌, ◌∷◌, [], true, IfOk, codes};
ghost use Rattle.mig_schema.specs.Typed.{IsTyped};
ghost use Rattle.mig_schema.specs.Within.{IsProgramWithin};
ghost use Rattle.mig_answer.specs.AnswerText.{answer_text};
ghost use Rattle.mig_messages.specs.Lines as lines;
ghost use Rattle.mig_search.specs.Finds.{IsRightFind, IsRightOutcome};
ghost use Rattle.mig_sketch.specs.Completed.{has_columns};
ghost use Rattle.mig_cli.specs.Migrating as spec;
ghost use Rattle.mig_cli.specs.Planned.{IsMigratePlan};
ghost use Rattle.mig_cli.specs.Plans as plans;
ghost use Rattle.mig_cli.specs.World.{files_meaning};

use crate::planning::{Plan, job_in, refusal};
use mig_answer::print_answer;
use mig_base::{Seq, Txt, Word};
use mig_certificate::Certificate;
use mig_checker::{Verdict, check};
use mig_io::Files;
use mig_messages::{Status, exhausted_report, found_report, spent_report, too_long};
use mig_schema::{Job, Program};
use mig_search::{Options, Outcome, Tried, migrate};
use mig_words::Options as Asked;
use std::alloc::{AllocError, Global};

/// The greatest length of an answer, in bytes.
pub const ANSWER_CAP: u32 = 67108864;

/// How far the words ask the search to go.
fn search_options(options: &Asked) -> Options
    ensures { result ≡ spec.search_options options.now }
{
    Options {
        budget: options.budget,
        maps: options.maps,
        tests: options.tests,
    }
}

/// The answer with a program that was found. The checker accepts it, and nothing else is written.
fn answer_of(
    alloc: Global,
    job: &Job,
    program: &Program,
    certificate: &Certificate,
) -> Result<Txt, AllocError>
    requires { IsRightFind job.now program.now certificate.now }
    ensures { IfOk result (λ t. t ≡ answer_text job.now program.now certificate.now) }
{
    match check(alloc, job, program, certificate)? {
        Verdict::Accepted => print_answer(alloc, job, program, certificate),
        Verdict::Rejected { .. } => unreachable!(),
    }
}

/// The plan for an answer that is longer than it may be.
fn long_plan(alloc: Global) -> Result<Plan, AllocError>
    ensures { IfOk result (λ p. p ≡ plans.refusal Status.Limit (lines.too_long (codes "answer") spec.answer_cap)) }
{
    let name = Seq::from_slice(alloc, b"answer")?;
    let report = too_long(alloc, &name, ANSWER_CAP)?;
    Ok(refusal(alloc, Status::Limit, report))
}

/// The plan for a program that was found.
fn found_plan(
    alloc: Global,
    job: &Job,
    program: &Program,
    certificate: &Certificate,
    tried: &[Tried],
) -> Result<Plan, AllocError>
    requires { IsRightFind job.now program.now certificate.now }
    ensures { IfOk result (λ p. spec.IsFound job.now program.now certificate.now tried.now p) }
{
    let text = answer_of(alloc, job, program, certificate)?;
    if (ANSWER_CAP as usize) < text.len() {
        let plan = long_plan(alloc)?;
        return Ok(plan);
    }
    let report = found_report(alloc, &job.program, tried)?;
    Ok(Plan {
        status: Status::Done,
        text,
        report,
    })
}

/// The plan for the outcome of a search.
fn outcome_plan(alloc: Global, job: &Job, outcome: &Outcome) -> Result<Plan, AllocError>
    requires { IsRightOutcome job.now outcome.now }
    ensures { IfOk result (λ p. spec.Tells job.now outcome.now p) }
{
    match outcome {
        Outcome::Found {
            program,
            certificate,
            tried,
        } => found_plan(alloc, job, program, certificate, tried.as_slice()),
        Outcome::Exhausted { tried } => {
            let report = exhausted_report(alloc, &job.program, tried.as_slice())?;
            Ok(refusal(alloc, Status::Exhausted, report))
        }
        Outcome::Spent { tried } => {
            let report = spent_report(alloc, &job.program, tried.as_slice())?;
            Ok(refusal(alloc, Status::Spent, report))
        }
    }
}

/// The plan for a typed job.
fn job_plan(alloc: Global, job: &Job, options: &Asked) -> Result<Plan, AllocError>
    requires typed { IsTyped job.now }
    requires within { IsProgramWithin job.now.program }
    requires columns { has_columns job.now.target ≡ true }
    ensures { IfOk result (λ p. spec.IsSearched job.now (spec.search_options options.now) p) }
{
    let options = search_options(options);
    let outcome = migrate(alloc, job, &options)?;
    let plan = outcome_plan(alloc, job, &outcome)?;
    Ok(plan)
}

/// The plan for the job in the named file.
pub fn migrated_plan<F: Files>(
    alloc: Global,
    file: &Word,
    options: &Asked,
    files: &mut F,
) -> Result<Plan, AllocError>
    ensures plan { let before = files_meaning F.Files files.old in
        let after = files_meaning F.Files files.new in
        IfOk result (IsMigratePlan file.now (spec.search_options options.now) before after) }
    ensures asked { F.asked files.new ≡ F.asked files.old ++ file.now ∷ [] }
    ensures told { F.told files.new ≡ F.told files.old }
    ensures later { F.faults files.old ≤ F.faults files.new }
{
    match job_in(alloc, file, files)? {
        Ok(job) => job_plan(alloc, &job, options),
        Err(plan) => Ok(plan),
    }
}
