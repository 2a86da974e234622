// The words of a command line, and what they are: that memory suffices, and each rule once.
use crate::calling::words_of;
use mig_base::{Seq, Txt};
use mig_words::{Command, Options, WordFault, read_words};
use std::alloc::{AllocError, Global};
use std::test::Fail;

/// Words that are no command, a bar before each, and their first fault.
const FAULTS: [(&str, &str); 34] = [
    ("", "no command"),
    ("|", "unknown word 1"),
    ("|move|a", "unknown word 1"),
    ("|--budget|5", "unknown word 1"),
    ("|Migrate|a", "unknown word 1"),
    ("|migrate", "missing"),
    ("|migrate|--maps|2", "missing"),
    ("|migrate|a|--budget", "missing"),
    ("|migrate|a|b", "unknown word 3"),
    ("|migrate|a|b|--budget|0", "unknown word 3"),
    ("|migrate|-", "unknown word 2"),
    ("|migrate|--", "unknown word 2"),
    ("|migrate|--budget=5|a", "unknown word 2"),
    ("|migrate|a|--Budget|5", "unknown word 3"),
    ("|migrate|a|--budget|5|--budget|5", "twice at 5"),
    ("|migrate|--budget|5|--budget", "twice at 4"),
    ("|migrate|--budget|--budget", "number at 3"),
    ("|migrate|a|--budget|0", "number at 4"),
    ("|migrate|a|--budget|10001", "number at 4"),
    ("|migrate|a|--budget|05", "number at 4"),
    ("|migrate|a|--budget|+5", "number at 4"),
    ("|migrate|a|--maps|257", "number at 4"),
    ("|migrate|a|--maps|4294967297", "number at 4"),
    ("|migrate|a|--tests|1000001", "number at 4"),
    ("|migrate|a|--tests|", "number at 4"),
    ("|check|a", "missing"),
    ("|check|a|--maps", "unknown word 3"),
    ("|check|a|b|c", "unknown word 4"),
    ("|run|a", "missing"),
    ("|run|a|b|c|d", "unknown word 5"),
    ("|trial", "missing"),
    ("|trial|--budget", "number at 2"),
    ("|trial|9|8", "number at 2"),
    ("|trial|8|8", "unknown word 3"),
];

/// Words that are a command, a bar before each; and its name and what it has, a bar before each.
const COMMANDS: [(&str, &str); 11] = [
    ("|migrate|a", "|migrate|a|500 16 20000"),
    ("|migrate|a|--budget|1", "|migrate|a|1 16 20000"),
    ("|migrate|--maps|256|a", "|migrate|a|500 256 20000"),
    ("|migrate|a|--tests|0", "|migrate|a|500 16 0"),
    (
        "|migrate|--tests|1000000|--budget|10000|a|--maps|1",
        "|migrate|a|10000 1 1000000",
    ),
    (
        "|migrate|--budget|7|--maps|8|--tests|9|a",
        "|migrate|a|7 8 9",
    ),
    ("|check|a|", "|check|a|"),
    ("|run|a|trial", "|run|a|trial"),
    ("|run|a|a|c", "|run|a|a|c"),
    ("|trial|1", "|trial|1"),
    ("|trial|8", "|trial|8"),
];

fn fault_text(alloc: Global, fault: WordFault) -> Result<String, AllocError> {
    match fault {
        WordFault::Memory => format!(in alloc; "memory"),
        WordFault::NoCommand => format!(in alloc; "no command"),
        WordFault::UnknownWord { at } => format!(in alloc; "unknown word {at}"),
        WordFault::Missing => format!(in alloc; "missing"),
        WordFault::Twice { at } => format!(in alloc; "twice at {at}"),
        WordFault::Number { at } => format!(in alloc; "number at {at}"),
    }
}

/// The words of a line, a bar before each.
fn line_of(alloc: Global, words: &[&[u8]]) -> Result<Txt, AllocError> {
    let mut line = Seq::new(alloc);
    for word in words {
        line.push(b'|')?;
        line.extend_from_slice(*word)?;
    }
    Ok(line)
}

/// Budget, correspondences and tests.
fn options_text(alloc: Global, options: &Options) -> Result<String, AllocError> {
    let Options {
        budget,
        maps,
        tests,
    } = *options;
    format!(in alloc; "{budget} {maps} {tests}")
}

fn command_line(alloc: Global, command: &Command) -> Result<Txt, AllocError> {
    match command {
        Command::Migrate { job, options } => {
            let options = options_text(alloc, options)?;
            line_of(alloc, &[b"migrate", job.as_slice(), options.as_bytes()])
        }
        Command::Check { job, answer } => {
            line_of(alloc, &[b"check", job.as_slice(), answer.as_slice()])
        }
        Command::Run { job, calls, answer } => match answer {
            Some(answer) => line_of(
                alloc,
                &[b"run", job.as_slice(), calls.as_slice(), answer.as_slice()],
            ),
            None => line_of(alloc, &[b"run", job.as_slice(), calls.as_slice()]),
        },
        Command::Trial { number } => {
            let number = format!(in alloc; "{number}")?;
            line_of(alloc, &[b"trial", number.as_bytes()])
        }
    }
}

fn is_refused(alloc: Global, line: &str, want: &str) -> Result<bool, AllocError> {
    let words = words_of(alloc, line)?;
    match read_words(alloc, words.as_slice()) {
        Ok(_) => Ok(false),
        Err(fault) => Ok(fault_text(alloc, fault)?.as_str() == want),
    }
}

fn is_read(alloc: Global, line: &str, want: &str) -> Result<bool, AllocError> {
    let words = words_of(alloc, line)?;
    match read_words(alloc, words.as_slice()) {
        Ok(command) => Ok(command_line(alloc, &command)?.as_slice() == want.as_bytes()),
        Err(_) => Ok(false),
    }
}

#[test]
fn the_first_fault_is_told(rt: HostRuntime) -> Result<(), Fail> {
    for (line, want) in FAULTS {
        let right = is_refused(rt.alloc(), line, want)?;
        assert!(rt; right, "{line}");
    }
    Ok(())
}

#[test]
fn commands_are_read(rt: HostRuntime) -> Result<(), Fail> {
    for (line, want) in COMMANDS {
        let right = is_read(rt.alloc(), line, want)?;
        assert!(rt; right, "{line}");
    }
    Ok(())
}
