// The files of calls that are played, run in memory by the definitions: these answer the same texts.
use crate::played::{PLAYED, Played};
use crate::small_runs::outcomes;
use crate::texts::job;
use mig_base::{Exact, Seq, Txt};
use mig_meaning::{Answer, Invocation, Outcome, Reply};
use mig_schema::Program;
use mig_store::{Answered, Answers, answers_text, read_calls};
use std::alloc::{AllocError, Global};
use std::test::Fail;

/// The text of one answer; want of memory where the program has no such function.
fn answer_text(
    alloc: Global,
    program: &Program,
    call: u32,
    function: u32,
    answer: Answer,
) -> Result<Txt, AllocError> {
    if function as usize >= program.functions.as_slice().len() {
        return Err(AllocError);
    }
    let mut list = Seq::new(alloc);
    list.push(Answered {
        call,
        function,
        answer,
    })?;
    answers_text(alloc, program, &Answers { list })
}

/// The text of what calls answer.
fn all_answers(
    alloc: Global,
    program: &Program,
    calls: &[Invocation],
    outcomes: &[Outcome],
) -> Result<Txt, AllocError> {
    let mut text = Seq::new(alloc);
    let mut number = 0u32;
    for (outcome, call) in outcomes.iter().zip(calls) {
        if let Reply::Rows(answer) = &outcome.reply {
            let answer = answer.twin(alloc)?;
            let one = answer_text(alloc, program, number, call.function, answer)?;
            text.extend_from_slice(one.as_slice())?;
        }
        number = number.saturating_add(1);
    }
    Ok(text)
}

/// The text of all answers, by the definitions.
fn defined(alloc: Global, played: &Played) -> Result<Txt, Fail> {
    let job = job(alloc, played.job)?;
    let calls = read_calls(alloc, &job.program, played.calls.as_bytes())?;
    let outcomes = outcomes(alloc, &job, &calls)?;
    let text = all_answers(
        alloc,
        &job.program,
        calls.calls.as_slice(),
        outcomes.as_slice(),
    )?;
    Ok(text)
}

#[test]
fn the_definitions_answer_the_same(rt: HostRuntime) -> Result<(), Fail> {
    for played in &PLAYED {
        let text = defined(rt.alloc(), played)?;
        assert!(rt;
            text.as_slice() == played.answers.as_bytes(),
            "{}",
            played.name
        );
    }
    Ok(())
}
