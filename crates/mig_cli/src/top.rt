// The desk itself: the plan for the words, and then its texts put.
ghost use Rattle.std.specs.Prelude.{◌≡◌, ◌≢◌, ◌≤◌, [], IfOk};
ghost use Rattle.mig_storage.specs.Meaning.{IsAtRest};
ghost use Rattle.mig_words.specs.declared.command.WordFault.TheVariants as word;
ghost use Rattle.mig_store.specs.Playing.{Lasts};
ghost use Rattle.mig_messages.specs.Lines as lines;
ghost use Rattle.mig_messages.specs.Statuses.{number};
ghost use Rattle.mig_cli.specs.Asked as asked;
ghost use Rattle.mig_cli.specs.Desk as spec;
ghost use Rattle.mig_cli.specs.Headline.{Checks, Migrates};
ghost use Rattle.mig_cli.specs.Plans as plans;
ghost use Rattle.mig_cli.specs.Running.{IsLeft};
ghost use Rattle.mig_cli.specs.World.{inputs_of, outputs_of, world_of};

use crate::checking::checked_plan;
use crate::ending::finish;
use crate::migrating::migrated_plan;
use crate::planning::{Plan, refusal};
use crate::running::run_plan;
use mig_base::{Seq, Word};
use mig_io::{Files, Sink};
use mig_messages::{Status, no_memory, unbuilt_words, words_line};
use mig_storage::Store;
use mig_words::{Command, WordFault, read_words};
use std::alloc::{AllocError, Global};

/// The plan for words that are no command.
fn refused_plan(alloc: Global, fault: WordFault) -> Result<Plan, AllocError>
    ensures { IfOk result (λ p. (fault ≢ word.Memory) × (p ≡ plans.refusal Status.Words (lines.refused_words fault))) }
{
    let report = words_line(alloc, fault)?;
    Ok(refusal(alloc, Status::Words, report))
}

/// The plan for a command whose work is not there yet.
fn unbuilt_plan(alloc: Global) -> Result<Plan, AllocError>
    ensures { IfOk result (λ p. p ≡ plans.refusal Status.Words lines.unbuilt_words) }
{
    let report = Seq::from_slice(alloc, unbuilt_words().as_bytes())?;
    Ok(refusal(alloc, Status::Words, report))
}

/// What is to be put for the words.
fn plan<F: Files, S: Store>(
    alloc: Global,
    words: &[Word],
    files: &mut F,
    store: &mut S,
) -> Result<Plan, AllocError>
    requires rest { IsAtRest (S.meaning store.old) }
    ensures due { let before = inputs_of F.Files S.Store files.old store.old in
        let after = inputs_of F.Files S.Store files.new store.new in
        IfOk result (spec.IsDue words.now before after) }
    ensures refused { IfOk result (λ p. p.status ≡ Status.Words → asked.AsksForNothing words.now) }
    ensures left { let before = inputs_of F.Files S.Store files.old store.old in
        let after = inputs_of F.Files S.Store files.new store.new in
        IsLeft words.now before after }
    ensures asked { asked.AskedFirst words.now (F.asked files.old) (F.asked files.new) }
    ensures told { F.told files.new ≡ F.told files.old }
    ensures later { F.faults files.old ≤ F.faults files.new }
    ensures lasts { Lasts (S.meaning store.old) (S.meaning store.new) }
    ensures rest { IsAtRest (S.meaning store.new) }
{
    match read_words(alloc, words) {
        Err(fault) => refused_plan(alloc, fault),
        Ok(command) => match command {
            Command::Migrate { job, options } => migrated_plan(alloc, &job, &options, files),
            Command::Run { job, calls, answer } => {
                run_plan(alloc, &job, &calls, &answer, files, store)
            }
            Command::Check { job, answer } => checked_plan(alloc, &job, &answer, files),
            Command::Trial { .. } => unbuilt_plan(alloc),
        },
    }
}

/// Does what the words say, puts an answer on `out` and a report on `err`, and answers the number of its status (`Status`).
///
/// The words are those of a command line without the program's name (`read_words`). The commands whose work is there are
/// `migrate FILE`, with its options, `check FILE ANSWER`, `run FILE CALLS` and `run FILE CALLS ANSWER`; FILE holds a job
/// (`read_job`), ANSWER an answer over it (`read_answer`), of which the checker gives its verdict (`check`), and CALLS calls
/// of its program (`read_calls`), which are played over the store from empty tables (`run`): with the job's program, or with
/// that of an answer which the checker accepts.
///
/// | status | when | on `out` | on `err` |
/// |---|---|---|---|
/// | 0 | `migrate`, and the search found a program | the new program and its certificate | entries, then `found: N entries` |
/// | 0 | `check`, and the certificate of the answer is valid | `accepted` | |
/// | 0 | `run`, and all calls were played | what the query calls answer | |
/// | 1 | the words are no command | | `words: ` and their first fault |
/// | 1 | the command is another | | `words: not built` |
/// | 2 | the text of the job has a wrong token | | `FILE:LINE:COLUMN: not expected` |
/// | 2 | the job breaks a typing rule | | `FILE: RULE at A B` |
/// | 2 | the text of the answer is none over the job, in its one spelling | | as for a job, with ANSWER for FILE |
/// | 3 | `migrate`, and the search tried all that it was to try | | entries, then `exhausted: N entries` |
/// | 4 | `migrate`, and the search spent its budget | | entries, then `spent: N entries` |
/// | 5 | the certificate of the answer is not valid | | `rejected: pair P obligation O step S: WHY`, its first broken place |
/// | 6 | a file could not be read: the count of `files` rose | | `FILE: cannot read` |
/// | 7 | a sink failed: its count rose | a prefix of its text | nothing, or a prefix where `out` has all of its text |
/// | 8 | memory ran out | | `out of memory` |
/// | 9 | `run`, the calls and the answer are sound, and the store failed: its count rose, or it was broken before | | `store failed` |
/// | 10 | the job is longer than 262,144 bytes, the calls than 8,388,608, or the answer than 67,108,864 | | `FILE: longer than N bytes` |
/// | 10 | the text of the job, or of the answer, passes a limit | | `FILE:LINE: limit NAME` |
/// | 10 | there are more than 100,000 calls | | `CALLS:0: limit calls` |
/// | 10 | `migrate`, and the answer is longer than 67,108,864 bytes | | `answer: longer than 67108864 bytes` |
/// | 11 | a record says no call of the program, and is the first | | `CALLS: record N: WHY` |
///
/// Files are asked for in the order of the words, and none after a refusal. Calls are played only where all of them are
/// sound, and the answer is, where one is named. After `run` with 7, 8 or 9 the store tells the state at entry, or that after the first n calls, none left out,
/// or it is broken; a call that ends otherwise than with 0, 7, 8 or 9 leaves it alone, and so does every `migrate` and `check`.
///
/// No transaction may be begun in the store, unless it is broken; so it is left.
///
/// All text is built before any is put; from then on no memory is taken. `docs/PROGRAM.md` has the rules.
pub fn desk<F: Files, W: Sink, E: Sink, S: Store>(
    alloc: Global,
    words: &[Word],
    files: &mut F,
    out: &mut W,
    err: &mut E,
    store: &mut S,
) -> u8
    requires rest { IsAtRest (S.meaning store.old) }
    // Where it migrates and ends with 0, `out` took a new program that does what the old one did, and a valid certificate of it.
    ensures migrates { let before = world_of F.Files W.Sink E.Sink S.Store files.old out.old err.old store.old in
        let after = world_of F.Files W.Sink E.Sink S.Store files.new out.new err.new store.new in
        Migrates words.now before after result }
    // Where it checks and ends with 0, `out` took the line that accepts, and the answer's text is valid for the job's: its program does what the old one did.
    ensures checks { let before = world_of F.Files W.Sink E.Sink S.Store files.old out.old err.old store.old in
        let after = world_of F.Files W.Sink E.Sink S.Store files.new out.new err.new store.new in
        Checks words.now before after result }
    // Right answers: whatever failed, a status other than 6, 7, 8 and 9 is the outcome's, which was put whole.
    ensures right { let before = world_of F.Files W.Sink E.Sink S.Store files.old out.old err.old store.old in
        let after = world_of F.Files W.Sink E.Sink S.Store files.new out.new err.new store.new in
        spec.Right words.now before after result }
    // Completeness: where nothing failed, the outcome was put whole, unless memory ran out.
    ensures complete { let before = world_of F.Files W.Sink E.Sink S.Store files.old out.old err.old store.old in
        let after = world_of F.Files W.Sink E.Sink S.Store files.new out.new err.new store.new in
        spec.Complete words.now before after result }
    // Words are refused for no other reason.
    ensures refused { result ≡ number Status.Words → asked.AsksForNothing words.now }
    // After a fault of a file or of the store, or want of memory, nothing is on `out`, and one line on `err`.
    ensures file_fault { let before = world_of F.Files W.Sink E.Sink S.Store files.old out.old err.old store.old in
        let after = world_of F.Files W.Sink E.Sink S.Store files.new out.new err.new store.new in
        result ≡ number Status.File → spec.FileFault words.now before after }
    ensures memory_fault { let before = outputs_of W.Sink E.Sink out.old err.old in
        let after = outputs_of W.Sink E.Sink out.new err.new in
        result ≡ number Status.Memory → spec.Whole before after [] lines.no_memory }
    ensures store_fault { let before = world_of F.Files W.Sink E.Sink S.Store files.old out.old err.old store.old in
        let after = world_of F.Files W.Sink E.Sink S.Store files.new out.new err.new store.new in
        result ≡ number Status.Store → spec.StoreFault words.now before after }
    // After a sink's fault `out` has a prefix of its text, and `err` nothing unless `out` has all of it.
    ensures sink_fault { let before = world_of F.Files W.Sink E.Sink S.Store files.old out.old err.old store.old in
        let after = world_of F.Files W.Sink E.Sink S.Store files.new out.new err.new store.new in
        result ≡ number Status.Sink → spec.SinkFault words.now before after }
    // The store is left alone, or as the first calls left it that the words ask to run, or broken.
    ensures left { let before = inputs_of F.Files S.Store files.old store.old in
        let after = inputs_of F.Files S.Store files.new store.new in
        IsLeft words.now before after }
    ensures alone { asked.AsksForNoRun words.now → S.meaning store.new ≡ S.meaning store.old }
    ensures spared { spec.EndsEarly result → S.meaning store.new ≡ S.meaning store.old }
    ensures lasts { Lasts (S.meaning store.old) (S.meaning store.new) }
    ensures rest { IsAtRest (S.meaning store.new) }
    // No names are asked for but those that the words give, in their order.
    ensures asked { asked.AskedFirst words.now (F.asked files.old) (F.asked files.new) }
    ensures told { F.told files.new ≡ F.told files.old }
{
    match plan(alloc, words, files, store) {
        Ok(plan) => finish(
            plan.status,
            out,
            plan.text.as_slice(),
            err,
            plan.report.as_slice(),
        )
        .number(),
        Err(AllocError) => finish(Status::Memory, out, &[], err, no_memory().as_bytes()).number(),
    }
}
