// The lines on files of calls and on stores.
ghost use Rattle.std.specs.Prelude.{◌≡◌, ◌≢◌, ◌++◌, IfOk, codes, decimal};
ghost use Rattle.mig_store.specs.declared.faults.CallsFault.TheVariants as calls;
ghost use Rattle.mig_messages.specs.CallLines as spec;

use crate::lines::{line_of, past_limit};
use mig_base::{Txt, Word};
use mig_printing::{put, put_number};
use mig_schema::Limit;
use mig_store::CallsFault;
use std::alloc::{AllocError, Global};

/// The line on a store that failed.
pub fn store_failed() -> &'static str
    ensures { result.now ≡ spec.store_failed }
{
    "store failed\n"
}

/// The file's name, the number of a record, and what is to be said of it.
fn record_line(alloc: Global, file: &Word, at: u32, why: &str) -> Result<Txt, AllocError>
    ensures { IfOk result (λ t. t ≡ file.now ++ (codes ": record " ++ (decimal at ++ (codes ": " ++ why.now)))) }
{
    let mut out = line_of(alloc, file, ": record ")?;
    put_number(&mut out, at)?;
    put(&mut out, ": ")?;
    put(&mut out, why)?;
    Ok(out)
}

/// The line on a record one of whose arguments, by its number, is no value of its kind.
fn value_line(alloc: Global, file: &Word, at: u32, field: u32) -> Result<Txt, AllocError>
    ensures { IfOk result (λ t. t ≡ spec.broken_record file.now at (codes "value " ++ decimal field)) }
{
    let mut out = record_line(alloc, file, at, "value ")?;
    put_number(&mut out, field)?;
    put(&mut out, "\n")?;
    Ok(out)
}

/// The line on calls that are refused; want of memory is handed on.
pub fn calls_line(alloc: Global, file: &Word, fault: CallsFault) -> Result<Txt, AllocError>
    ensures { IfOk result (λ t. (fault ≢ calls.Memory) × (t ≡ spec.calls_line file.now fault)) }
{
    match fault {
        CallsFault::Memory => Err(AllocError),
        CallsFault::Unknown { at } => record_line(alloc, file, at, "unknown\n"),
        CallsFault::Arity { at } => record_line(alloc, file, at, "arity\n"),
        CallsFault::Value { at, field } => value_line(alloc, file, at, field),
        CallsFault::Limit => past_limit(alloc, file, 0, Limit::Calls),
    }
}
