// Files of calls, read record by record.
ghost use Rattle.std.specs.Prelude.{◌≡◌, ◌⊎◌, ◌≤◌, [], IfOk, Err, length, get_or};
ghost use Rattle.csv.specs.Records.{fields_of};
ghost use Rattle.mig_meaning.specs.declared.calling.Invocation.{Invocation as Call};
ghost use Rattle.mig_meaning.specs.Calls.{AreCalls};
ghost use Rattle.mig_meaning.specs.Lists.{Each};
ghost use Rattle.mig_storage.specs.Layout.{IsShort};
ghost use Rattle.mig_store.specs.declared.faults.CallsFault.TheVariants as fault;
ghost use Rattle.mig_store.specs.Reading as spec;

use crate::faults::CallsFault;
use crate::fields::read_value;
use csv::{ByteRecord, ReaderBuilder};
use mig_base::{Seq, number};
use mig_meaning::{Args, Calls, Invocation};
use mig_schema::{Param, Program, Value};
use std::alloc::Global;

/// The number of the first function of this name.
fn function_named(program: &Program, name: &[u8]) -> Option<usize>
    ensures { result ≡ spec.function_named program.now name.now }
{
    program
        .functions
        .as_slice()
        .iter()
        .position(|f| f.name.as_slice() == name)
}

/// The field of this place, from 0; nothing where there is none.
fn field(record: &ByteRecord, k: usize) -> &[u8]
    ensures { result.now ≡ get_or (fields_of record.now) k [] }
{
    match record.get(k) {
        Some(bytes) => bytes,
        None => &[],
    }
}

/// The values of the arguments in the record of this number, which are as many as these parameters.
fn arguments(
    alloc: Global,
    params: &[Param],
    record: &ByteRecord,
    at: u32,
) -> Result<Seq<Value>, CallsFault>
    requires { length (spec.fields_in (fields_of record.now)) ≡ length params.now }
    ensures { (result ≡ Err fault.Memory) ⊎ (result ≡ spec.all_or_first (spec.arguments at 1 params.now (spec.fields_in (fields_of record.now)))) }
{
    let mut values = Seq::new(alloc);
    let mut k = 0;
    for param in params {
        k += 1;
        let Some(value) = read_value(alloc, param.kind, field(record, k))? else {
            let field = number(k)?;
            return Err(CallsFault::Value { at, field });
        };
        values.push(value)?;
    }
    Ok(values)
}

/// The call that the record of this number says.
fn call_said(
    alloc: Global,
    program: &Program,
    record: &ByteRecord,
    at: u32,
) -> Result<Invocation, CallsFault>
    ensures { (result ≡ Err fault.Memory) ⊎ (result ≡ spec.said program.now at (fields_of record.now)) }
{
    let Some(n) = function_named(program, field(record, 0)) else {
        return Err(CallsFault::Unknown { at });
    };
    let params = program.functions.as_slice()[n].params.as_slice();
    if record.len().saturating_sub(1) != params.len() {
        return Err(CallsFault::Arity { at });
    }
    let values = arguments(alloc, params, record, at)?;
    Ok(Invocation {
        function: number(n)?,
        args: Args { values },
    })
}

/// The calls that a file says, one for each of its records.
///
/// The records are those that the crate `csv` reads with its usual settings and without a header: fields between commas,
/// quoted where they must be, and lines with any number of fields. The first field names a function of the program, the
/// first of that name; the others are its arguments, in the spelling that `read_value` reads. An Ok has at most 100,000
/// calls, each well-formed, with texts of at most 1,024 bytes.
///
/// Else the first broken record is answered, and why it is broken: it names no function (`Unknown`); it has more or fewer
/// arguments than the function has parameters (`Arity`); or one of them is no value of its kind, the first such one
/// (`Value`). Records and arguments count from 1. `Limit` comes where the first 100,000 records say calls and one more
/// stands there, whatever else that one breaks. Want of memory may come instead of any answer.
pub fn read_calls(alloc: Global, program: &Program, bytes: &[u8]) -> Result<Calls, CallsFault>
    ensures said { (result ≡ Err fault.Memory) ⊎ (result ≡ spec.calls_said program.now (spec.records_in bytes.now)) }
    ensures sound { IfOk result (λ c. AreCalls program.now c.calls) }
    ensures short { IfOk result (λ c. Each (λ (i : Call). Each IsShort i.args.values) c.calls) }
    ensures few { IfOk result (λ c. length c.calls ≤ 100000) }
{
    let reader = ReaderBuilder::new()
        .has_headers(false)
        .flexible(true)
        .from_reader(alloc, bytes);
    let mut calls = Seq::new(alloc);
    let mut count = 0;
    for record in reader.into_byte_records() {
        let Ok(record) = record else {
            return Err(CallsFault::Memory);
        };
        if count == 100_000 {
            return Err(CallsFault::Limit);
        }
        count += 1;
        calls.push(call_said(alloc, program, &record, count)?)?;
    }
    Ok(Calls { calls })
}
