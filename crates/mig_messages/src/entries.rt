// What a search tells: a line for each program that it tried, and a line on how it ended.
ghost use Rattle.std.specs.Prelude.{◌≡◌, ◌++◌, IfOk, OnOk, codes};
ghost use Rattle.std.specs.List.{flat_map, join_by};
ghost use Rattle.mig_messages.specs.Entries as spec;

use itoa::Buffer;
use mig_base::{Seq, Txt, number};
use mig_meaning::Invocation;
use mig_printing::{put, put_bytes, put_int, put_number, put_quoted};
use mig_schema::{Program, Value};
use mig_search::Tried;
use std::alloc::{AllocError, Global};

/// Appends a value.
fn put_value(out: &mut Txt, value: &Value) -> Result<(), AllocError>
    ensures { OnOk result (out.new ≡ out.old ++ spec.value_text value.now) }
{
    match value {
        Value::Int(int) => put_int(out, *int),
        Value::Text(text) => put_quoted(out, text),
        Value::Key(key) => {
            put(out, "#")?;
            put(out, Buffer::new().format(*key))
        }
    }
}

/// Appends values, each behind a comma.
fn put_others(out: &mut Txt, values: &[Value]) -> Result<(), AllocError>
    ensures { OnOk result (out.new ≡ out.old ++ flat_map (λ v. codes ", " ++ spec.value_text v) values.now) }
{
    for value in values {
        put(out, ", ")?;
        put_value(out, value)?;
    }
    Ok(())
}

/// Appends values, with a comma between each two.
fn put_values(out: &mut Txt, values: &[Value]) -> Result<(), AllocError>
    ensures { OnOk result (out.new ≡ out.old ++ join_by spec.value_text (codes ", ") values.now) }
{
    let [first, others @ ..] = values else {
        return Ok(());
    };
    put_value(out, first)?;
    put_others(out, others)
}

/// Appends the name of a function.
fn put_name(out: &mut Txt, program: &Program, function: u32) -> Result<(), AllocError>
    ensures { OnOk result (out.new ≡ out.old ++ spec.name_text program.now function) }
{
    match program.functions.get(function as usize) {
        Some(function) => put_bytes(out, function.name.as_slice()),
        None => Ok(()),
    }
}

/// Appends a call.
fn put_call(out: &mut Txt, program: &Program, call: &Invocation) -> Result<(), AllocError>
    ensures { OnOk result (out.new ≡ out.old ++ spec.call_text program.now call.now) }
{
    put_name(out, program, call.function)?;
    put(out, "(")?;
    put_values(out, call.args.values.as_slice())?;
    put(out, ")")
}

/// Appends calls, each behind a semicolon.
fn put_more_calls(out: &mut Txt, program: &Program, calls: &[Invocation]) -> Result<(), AllocError>
    ensures { OnOk result (out.new ≡ out.old ++ flat_map (λ i. codes "; " ++ spec.call_text program.now i) calls.now) }
{
    for call in calls {
        put(out, "; ")?;
        put_call(out, program, call)?;
    }
    Ok(())
}

/// Appends calls, with a semicolon between each two.
fn put_calls(out: &mut Txt, program: &Program, calls: &[Invocation]) -> Result<(), AllocError>
    ensures { OnOk result (out.new ≡ out.old ++ join_by (spec.call_text program.now) (codes "; ") calls.now) }
{
    let [first, others @ ..] = calls else {
        return Ok(());
    };
    put_call(out, program, first)?;
    put_more_calls(out, program, others)
}

/// Appends a word and the name of a function.
fn put_named(out: &mut Txt, word: &str, program: &Program, function: u32) -> Result<(), AllocError>
    ensures { OnOk result (out.new ≡ out.old ++ (word.now ++ spec.name_text program.now function)) }
{
    put(out, word)?;
    put_name(out, program, function)
}

/// Appends why a program, or a whole correspondence, is no answer.
fn put_tried(out: &mut Txt, program: &Program, tried: &Tried) -> Result<(), AllocError>
    ensures { OnOk result (out.new ≡ out.old ++ spec.tried_text program.now tried.now) }
{
    match tried {
        Tried::Refuted(calls) => {
            put(out, "refuted: ")?;
            put_calls(out, program, calls.calls.as_slice())
        }
        Tried::Unproved(function) => put_named(out, "unproved: ", program, *function),
        Tried::NoOption(function) => put_named(out, "no option: ", program, *function),
        Tried::Wide(function) => put_named(out, "too wide: ", program, *function),
    }
}

/// Appends the line of entry i.
fn put_entry(out: &mut Txt, program: &Program, i: u32, tried: &Tried) -> Result<(), AllocError>
    ensures { OnOk result (out.new ≡ out.old ++ spec.entry_line program.now i tried.now) }
{
    put(out, "entry ")?;
    put_number(out, i)?;
    put(out, ": ")?;
    put_tried(out, program, tried)?;
    put(out, "\n")
}

/// Appends the lines of all entries.
fn put_entries(out: &mut Txt, program: &Program, tried: &[Tried]) -> Result<(), AllocError>
    ensures { OnOk result (out.new ≡ out.old ++ spec.entry_lines program.now 1 tried.now) }
{
    for (at, entry) in tried.iter().enumerate() {
        put_entry(out, program, number(at + 1)?, entry)?;
    }
    Ok(())
}

/// The lines of all entries, and how the search ended.
fn report(
    alloc: Global,
    ending: &str,
    program: &Program,
    tried: &[Tried],
) -> Result<Txt, AllocError>
    ensures { IfOk result (λ t. t ≡ spec.report ending.now program.now tried.now) }
{
    let mut out = Seq::new(alloc);
    put_entries(&mut out, program, tried)?;
    put(&mut out, ending)?;
    put(&mut out, ": ")?;
    put_number(&mut out, number(tried.len())?)?;
    put(&mut out, " entries\n")?;
    Ok(out)
}

/// What is told of a search that found a program: a line for each entry before it, and `found: N entries`. The names are
/// those of the job's program. The only error is want of memory, as which 2^32 entries count.
pub fn found_report(alloc: Global, program: &Program, tried: &[Tried]) -> Result<Txt, AllocError>
    ensures { IfOk result (λ t. t ≡ spec.found_report program.now tried.now) }
{
    report(alloc, "found", program, tried)
}

/// What is told of a search that tried all: a line for each entry, and `exhausted: N entries`. Otherwise as `found_report`.
pub fn exhausted_report(
    alloc: Global,
    program: &Program,
    tried: &[Tried],
) -> Result<Txt, AllocError>
    ensures { IfOk result (λ t. t ≡ spec.exhausted_report program.now tried.now) }
{
    report(alloc, "exhausted", program, tried)
}

/// What is told of a search that spent its budget: a line for each entry, and `spent: N entries`. Otherwise as `found_report`.
pub fn spent_report(alloc: Global, program: &Program, tried: &[Tried]) -> Result<Txt, AllocError>
    ensures { IfOk result (λ t. t ≡ spec.spent_report program.now tried.now) }
{
    report(alloc, "spent", program, tried)
}
