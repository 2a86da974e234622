// Files of calls.
use crate::faults::is_fault;
use crate::programs::program;
use mig_meaning::Invocation;
use mig_schema::Program;
use mig_store::{read_calls, value_text};
use std::alloc::{AllocError, Global};
use std::test::Fail;

/// Calls as text: each the number of its function, a bar before each argument, and a semicolon.
fn shown(alloc: Global, calls: &[Invocation]) -> Result<Vec<u8>, AllocError> {
    let mut out = Vec::new(alloc);
    for call in calls {
        out.push(b'0' + (call.function % 10) as u8)?;
        for value in call.args.values.as_slice() {
            out.push(b'|')?;
            out.extend_from_slice(value_text(alloc, value)?.as_slice())?;
        }
        out.push(b';')?;
    }
    Ok(out)
}

/// Files, and the calls that they say.
const CALLS: [(&str, &str); 13] = [
    ("", ""),
    ("add,7,Ann\nadd,7,Bob\nget,7\n", "0|7|Ann;0|7|Bob;1|7;"),
    ("get,7", "1|7;"),
    ("all\nget,-0\n", "2;1|0;"),
    ("keyed,#18446744073709551615\n", "3|#18446744073709551615;"),
    ("\"add\",\"007\",\"a,\"\"b\"\"\nc\"\n", "0|7|a,\"b\"\nc;"),
    ("add,7,\nadd,7,\"\"\n", "0|7|;0|7|;"),
    ("get,1\r\nget,2\rget,3\n\r\n", "1|1;1|2;1|3;"),
    ("\n\nget,1\n\n\r\nget,2\n\n", "1|1;1|2;"),
    ("\u{feff}get,1\n", "1|1;"),
    ("add,1,a\"b\n", "0|1|a\"b;"),
    ("add,1,\"a\nget,2\n", "0|1|a\nget,2\n;"),
    ("add,1, a \n", "0|1| a ;"),
];

/// Whether a file says calls, and these.
fn says(alloc: Global, program: &Program, file: &str, want: &str) -> Result<bool, AllocError> {
    match read_calls(alloc, program, file.as_bytes()) {
        Ok(calls) => {
            let out = shown(alloc, calls.calls.as_slice())?;
            Ok(out.as_slice() == want.as_bytes())
        }
        Err(_) => Ok(false),
    }
}

#[test]
fn records_say_calls(rt: HostRuntime) -> Result<(), Fail> {
    let program = program(rt.alloc())?;
    for (file, want) in CALLS {
        let right = says(rt.alloc(), &program, file, want)?;
        assert!(rt; right, "at {file}");
    }
    Ok(())
}

/// Files that are refused, and the fault that is told.
const REFUSED: [(&[u8], &str); 18] = [
    (b"add,7\n", "record 1: arity"),
    (b"put,1\n", "record 1: unknown"),
    (b"add,x,Ann\n", "record 1: value 1"),
    (b"get,1\nadd,1,\xff\n", "record 2: value 2"),
    (b"add,x,\xff\n", "record 1: value 1"),
    (b"add,x\n", "record 1: arity"),
    (b"put\nadd\n", "record 1: unknown"),
    (b"get,1\n\n\nget,1,2\nput\n", "record 2: arity"),
    (b"get,1\nget,\nget\n", "record 2: value 1"),
    (b"all,\n", "record 1: arity"),
    (b"\"\"\n", "record 1: unknown"),
    (b"Get,1\n", "record 1: unknown"),
    (b" get,1\n", "record 1: unknown"),
    (b"get\xff,1\n", "record 1: unknown"),
    (b"get, 1\n", "record 1: value 1"),
    (b"get,9223372036854775808\n", "record 1: value 1"),
    (b"keyed,7\n", "record 1: value 1"),
    (b"get,\"1\nget,2\n", "record 1: value 1"),
];

/// Whether a file is refused with this fault.
fn refuses(alloc: Global, program: &Program, file: &[u8], want: &str) -> Result<bool, AllocError> {
    match read_calls(alloc, program, file) {
        Ok(_) => Ok(false),
        Err(fault) => is_fault(alloc, fault, want),
    }
}

#[test]
fn the_first_broken_record_is_refused(rt: HostRuntime) -> Result<(), Fail> {
    let program = program(rt.alloc())?;
    for (file, want) in REFUSED {
        let right = refuses(rt.alloc(), &program, file, want)?;
        assert!(rt; right, "at {file:?}");
    }
    Ok(())
}

/// How many calls of `all` stand in a file, the bytes behind them, and the fault; none where all 100,000 records are read.
const LONG: [(usize, &str, &str); 6] = [
    (100_000, "", ""),
    (100_000, "\n\r\n", ""),
    (100_000, "all", "limit"),
    (100_000, "put", "limit"),
    (99_999, "put\nall", "record 100000: unknown"),
    (99_999, "all,\nall", "record 100000: arity"),
];

/// A file of so many calls of `all`, and these bytes behind them.
fn file(alloc: Global, count: usize, last: &str) -> Result<Vec<u8>, AllocError> {
    let mut file = Vec::new(alloc);
    for _ in 0..count {
        file.extend_from_slice(b"all\n")?;
    }
    file.extend_from_slice(last.as_bytes())?;
    Ok(file)
}

/// Whether such a file is read or refused so.
fn ends_with(
    alloc: Global,
    program: &Program,
    count: usize,
    last: &str,
    want: &str,
) -> Result<bool, AllocError> {
    let file = file(alloc, count, last)?;
    match read_calls(alloc, program, file.as_slice()) {
        Ok(calls) => Ok(want.is_empty() && calls.calls.len() == 100_000),
        Err(fault) => is_fault(alloc, fault, want),
    }
}

#[test]
fn a_file_has_at_most_100000_records(rt: HostRuntime) -> Result<(), Fail> {
    let program = program(rt.alloc())?;
    for (count, last, want) in LONG {
        let right = ends_with(rt.alloc(), &program, count, last, want)?;
        assert!(rt; right, "{count} and {last}");
    }
    Ok(())
}
