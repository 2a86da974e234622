// Files of calls for programs with tables, played over stores in memory and over stores that fail.
ghost use Rattle.mig_storage.specs.Meaning.{IsAtRest};

use crate::faults::is_fault;
use crate::played::{FOUR, PLAYED, Played};
use crate::texts::job;
use mig_base::{Seq, Txt};
use mig_storage::{FaultStore, Store, VecStore};
use mig_store::{PlayFault, play};
use mig_syntax::TextFault;
use std::alloc::{AllocError, Global};
use std::test::Fail;

/// What a file of calls answers for the old program of a job.
fn answered<S: Store>(
    alloc: Global,
    store: &mut S,
    played: &Played,
) -> Result<Result<Txt, PlayFault>, TextFault>
    requires { IsAtRest (S.meaning store.old) }
    ensures { IsAtRest (S.meaning store.new) }
{
    let job = job(alloc, played.job)?;
    let calls = played.calls.as_bytes();
    Ok(play(alloc, store, &job.source, &job.program, calls))
}

/// Whether it answers the text that was worked out by hand.
fn is_right(answer: &Result<Txt, PlayFault>, played: &Played) -> bool {
    match answer {
        Ok(text) => text.as_slice() == played.answers.as_bytes(),
        Err(_) => false,
    }
}

/// Whether both of two plays over one store answer it: each begins from empty tables.
fn is_right_twice(alloc: Global, played: &Played) -> Result<bool, TextFault> {
    let mut store = VecStore::new(alloc);
    let first = answered(alloc, &mut store, played)?;
    let second = answered(alloc, &mut store, played)?;
    Ok(is_right(&first, played) && is_right(&second, played))
}

#[test]
fn programs_answer_as_worked_out_by_hand(rt: HostRuntime) -> Result<(), Fail> {
    for played in &PLAYED {
        let right = is_right_twice(rt.alloc(), played)?;
        assert!(rt; right, "{}", played.name);
    }
    Ok(())
}

/// Files of calls for the first of the jobs, and the fault that is told.
const REFUSED: [(&str, &str); 5] = [
    ("add,7", "record 1: arity"),
    ("add,7,Ann\nput,7,Ann\n", "record 2: unknown"),
    ("add,7,Ann\nget,7,8", "record 2: arity"),
    ("\nget,x\nput", "record 1: value 1"),
    ("get,7\nadd,9223372036854775808,x", "record 2: value 1"),
];

/// Whether a play is refused with this fault of its file.
fn is_refused(
    alloc: Global,
    answer: Result<Txt, PlayFault>,
    want: &str,
) -> Result<bool, AllocError> {
    match answer {
        Err(PlayFault::Calls(fault)) => is_fault(alloc, fault, want),
        _ => Ok(false),
    }
}

/// Whether a file of calls is refused so.
fn refuses(alloc: Global, calls: &str, want: &str) -> Result<bool, Fail> {
    let mut store = VecStore::new(alloc);
    let job = job(alloc, PLAYED[0].job)?;
    let bytes = calls.as_bytes();
    let answer = play(alloc, &mut store, &job.source, &job.program, bytes);
    Ok(is_refused(alloc, answer, want)?)
}

#[test]
fn the_first_broken_record_is_told(rt: HostRuntime) -> Result<(), Fail> {
    for (calls, want) in REFUSED {
        let right = refuses(rt.alloc(), calls, want)?;
        assert!(rt; right, "{calls}");
    }
    Ok(())
}

/// False where the store's fault at its call of this number is told, and told again then, since the store is broken; true
/// where the fault comes too late and the file is played; `None` where neither is so.
fn is_played(alloc: Global, number: u64, played: &Played) -> Result<Option<bool>, Fail> {
    let fails = Seq::from_slice(alloc, &[number])?;
    let mut store = FaultStore::new(VecStore::new(alloc), fails);
    let first = answered(alloc, &mut store, played)?;
    let again = answered(alloc, &mut store, played)?;
    let failed = first.as_ref().err() == Some(&PlayFault::Store);
    if failed && again.err() == Some(PlayFault::Store) {
        return Ok(Some(false));
    }
    Ok(is_right(&first, played).then_some(true))
}

/// The number of the first call, below 100, at which no fault is told.
fn first_played(alloc: Global, played: &Played) -> Result<u64, Fail> {
    for number in 1..100 {
        if is_played(alloc, number, played)? != Some(false) {
            return Ok(number);
        }
    }
    Ok(100)
}

/// The store is called 39 times: by its `create`; 9 times for the first update (begin, two `add`, two `matching` and a `set`,
/// a `matching`, an `add`, commit); 17 times for the second, which changes two rows and takes two away along the join
/// (begin, two `add`, three `matching` and two `set`, five `matching` and two `remove`, an `add`, commit); and three times
/// for each of the four queries.
#[test]
fn a_store_that_fails_at_any_call_is_told(rt: HostRuntime) -> Result<(), Fail> {
    let alloc = rt.alloc();
    let number = first_played(alloc, &FOUR)?;
    assert!(rt; number == 40, "at {number}");
    assert!(rt;
        is_played(alloc, number, &FOUR)? == Some(true),
        "at {number}"
    );
    Ok(())
}
