//! Makes schemas, programs and jobs of a chosen size, and times what the crates do with them.
//!
//! What was found stands on standard output, the time on standard error.
#![tactic(auto)]

mod classes;
mod completing;
mod growing;
mod making;
mod numbering;
mod obliging;
mod playing;
mod pooling;
mod reading;
mod refuting;
mod sketched;
mod stepping;
mod tidying;
mod trees;
mod typing;

use classes::Ties;
use obliging::Shown;
use playing::Tables;
use refuting::Asked;
use sketched::Search;
use std::alloc::Global;
use std::io::Write;
use std::rt::Runtime;
use std::{env, io};
use stepping::Steps;
use trees::Shape;

const USAGE: &str = "measure reading SIZE [TIMES]
measure typing UPDATES TIMES
measure tidying TERMS COMPARISONS TIMES
measure chain-ties|pair-ties EQUALITIES TIMES
measure one-table-calls|joined-calls CALLS
measure first TERMS COMPARISONS TIMES
measure steps TERMS
measure obligations TABLES
measure growing COMPARISONS COMPARISONS
measure candidates TIMES
measure sketching FUNCTIONS TIMES
measure ranking TABLES CORRESPONDENCES
measure failing LISTS
measure star|chain|ring|dense|pair|four TIMES";

/// What is to be measured.
enum Task {
    /// The writing of a plain job of so many bytes.
    Write(u32),
    /// The reading of such a job, so many times.
    Read(u32, u32),
    /// The typing of a program of so many updates, so many times.
    Typing(u8, u32),
    /// The tidying of a sum of so many terms, each of so many comparisons, so many times.
    Tidying(u32, u32, u32),
    /// The classes of a term of so many equalities, so many times.
    Classes(Ties, u32, u32),
    /// The playing of so many calls.
    Playing(Tables, u32),
    /// The finding of first steps.
    Stepping(Steps),
    /// All that is to be shown of a program.
    Obliging(Shown),
    /// What is asked of a job of six functions and a program over its new schema.
    Refuting(Asked),
    /// What is asked of a large job.
    Searching(Search),
    /// The listing of link trees, so many times.
    Trees(Shape, u32),
}

/// The shape of a name, if it is one.
fn shape_of(name: &str) -> Option<Shape> {
    match name {
        "star" => Some(Shape::Star),
        "chain" => Some(Shape::Chain),
        "ring" => Some(Shape::Ring),
        "dense" => Some(Shape::Dense),
        "pair" => Some(Shape::Pair),
        "four" => Some(Shape::Four),
        _ => None,
    }
}

/// What these words ask for, if they ask for anything.
fn task_of(name: &str, numbers: &[u32]) -> Option<Task> {
    match (name, numbers) {
        ("reading", [size]) => Some(Task::Write(*size)),
        ("reading", [size, times]) => Some(Task::Read(*size, *times)),
        ("typing", [size, times]) => Some(Task::Typing(u8::try_from(*size).ok()?, *times)),
        ("tidying", [count, comparisons, times]) => {
            Some(Task::Tidying(*count, *comparisons, *times))
        }
        ("chain-ties", [count, times]) => Some(Task::Classes(Ties::Chain, *count, *times)),
        ("pair-ties", [count, times]) => Some(Task::Classes(Ties::Pairs, *count, *times)),
        ("one-table-calls", [count]) => Some(Task::Playing(Tables::One, *count)),
        ("joined-calls", [count]) => Some(Task::Playing(Tables::Joined, *count)),
        ("first", [terms, comparisons, times]) => {
            Some(Task::Stepping(Steps::None(*terms, *comparisons, *times)))
        }
        ("steps", [terms]) => Some(Task::Stepping(Steps::Chain(*terms))),
        ("obligations", [tables]) => Some(Task::Obliging(Shown::Pool(*tables))),
        ("growing", [c, e]) => Some(Task::Obliging(Shown::Sets(*c, *e))),
        ("candidates", [times]) => Some(Task::Refuting(Asked::Candidates(*times))),
        ("failing", [tests]) => Some(Task::Refuting(Asked::Failing(*tests))),
        ("sketching", [functions, times]) => {
            Some(Task::Searching(Search::Sketch(*functions, *times)))
        }
        ("ranking", [tables, wanted]) => Some(Task::Searching(Search::Ranking(*tables, *wanted))),
        (_, [times]) => Some(Task::Trees(shape_of(name)?, *times)),
        _ => None,
    }
}

/// What the words behind the program's name ask for, if they ask for anything.
fn asked<R: Runtime + Alloc<A = Global>>(rt: &R) -> io::Result<Option<Task>> {
    let mut words = env::args(rt)?.skip(1);
    let Some(name) = words.next() else {
        return Ok(None);
    };
    let mut numbers = Vec::new(rt.alloc());
    for word in words {
        if let Ok(number) = word.parse::<u32>() {
            numbers.push(number)?;
        }
    }
    Ok(task_of(name.as_str(), numbers.as_slice()))
}

fn main(rt: HostRuntime) -> io::Result<()> {
    match asked(&rt)? {
        Some(Task::Write(size)) => {
            let bytes = making::job_of(rt.alloc(), size as usize)?;
            rt.stdout().write_all(bytes.as_slice())
        }
        Some(Task::Read(size, times)) => reading::time(&rt, size, times),
        Some(Task::Typing(size, times)) => typing::time(&rt, size, times),
        Some(Task::Tidying(count, comparisons, times)) => {
            tidying::time(&rt, count, comparisons, times)
        }
        Some(Task::Classes(ties, count, times)) => classes::time(&rt, ties, count, times),
        Some(Task::Playing(tables, count)) => playing::time(&rt, tables, count),
        Some(Task::Stepping(steps)) => stepping::time(&rt, steps),
        Some(Task::Obliging(shown)) => obliging::time(&rt, shown),
        Some(Task::Refuting(asked)) => refuting::time(&rt, asked),
        Some(Task::Searching(search)) => sketched::time(&rt, search),
        Some(Task::Trees(shape, times)) => trees::time(&rt, shape, times),
        None => println!(rt; "{USAGE}"),
    }
}
