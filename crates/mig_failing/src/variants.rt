// The calls that test lists are made of.
ghost use Rattle.std.specs.Prelude.{◌≡◌, ◌++◌, ◌≤◌, ◌<◌, ◌&&◌, [], cond, true, length, OnOk, IfOk};
ghost use Rattle.mig_schema.specs.declared.programs.Function.{Function as AFunction};
ghost use Rattle.mig_store.specs.Runs as runs;
ghost use Rattle.mig_meaning.specs.Lists.{Each};
ghost use Rattle.mig_failing.specs.Made as made;
ghost use Rattle.mig_failing.specs.Tests as spec;

use mig_base::{Seq, Txt};
use mig_meaning::{Args, Invocation};
use mig_schema::{Body, Function, Kind, Param, Program, Value};
use std::alloc::{AllocError, Global};

/// The int of a variant at a position.
fn int_of(variant: u32, no_int: bool, position: u32) -> i64
    ensures { spec.argument variant no_int position Kind.Int ≡ Value.Int result }
{
    match variant {
        0 => 0,
        1 => 1,
        _ => { if no_int { 0 } else { position as i64 } }
    }
}

/// The text of a variant at a position below 10.
fn text_of(alloc: Global, variant: u32, no_int: bool, position: u32) -> Result<Txt, AllocError>
    requires { position < 10 }
    ensures { IfOk result (λ t. spec.argument variant no_int position Kind.Text ≡ Value.Text t) }
{
    match variant {
        0 => Seq::from_slice(alloc, &[b'a']),
        1 => Seq::from_slice(alloc, &[b'b']),
        _ => Seq::from_slice(alloc, &[b't', b'0' + position as u8]),
    }
}

/// The argument of a variant for a parameter of this kind at a position below 10.
fn argument(
    alloc: Global,
    variant: u32,
    no_int: bool,
    position: u32,
    kind: Kind,
) -> Result<Value, AllocError>
    requires { position < 10 }
    ensures { IfOk result (λ v. v ≡ spec.argument variant no_int position kind) }
{
    match kind {
        Kind::Int => Ok(Value::Int(int_of(variant, no_int, position))),
        Kind::Text => Ok(Value::Text(text_of(alloc, variant, no_int, position)?)),
        Kind::Key => Ok(Value::Key(0)),
    }
}

/// Whether a kind is not that of ints.
fn is_no_int(kind: Kind) -> bool
    ensures { result ≡ spec.is_no_int kind }
{
    match kind {
        Kind::Int => false,
        Kind::Text => true,
        Kind::Key => true,
    }
}

/// The arguments of a variant for these parameters, at most 8.
fn arguments(alloc: Global, variant: u32, params: &[Param]) -> Result<Seq<Value>, AllocError>
    requires { length params.now ≤ 8 }
    ensures { IfOk result (λ vs. vs ≡ spec.arguments variant true 1 params.now) }
{
    let mut values = Seq::new(alloc);
    let mut no_int = true;
    let mut position = 1u32;
    for param in params {
        values.push(argument(alloc, variant, no_int, position, param.kind)?)?;
        no_int = no_int && is_no_int(param.kind);
        position += 1;
    }
    Ok(values)
}

/// Whether a body is a query.
fn is_query(body: &Body) -> bool
    ensures { result ≡ runs.is_query body.now }
{
    match body {
        Body::Update(_) => false,
        Body::Query(_) => true,
    }
}

/// Puts the three calls of a function behind the others.
fn add_calls(
    alloc: Global,
    calls: &mut Seq<Invocation>,
    number: u32,
    function: &Function,
) -> Result<(), AllocError>
    requires { length function.now.params ≤ 8 }
    ensures { OnOk result (calls.new ≡ calls.old ++ made.made_calls number function.now 3) }
{
    for variant in 0..3 {
        let values = arguments(alloc, variant, function.params.as_slice())?;
        calls.push(Invocation {
            function: number,
            args: Args { values },
        })?;
    }
    Ok(())
}

/// Puts the three calls of a function behind the others, if it is a query, or an update, as is asked.
fn add_wanted(
    alloc: Global,
    calls: &mut Seq<Invocation>,
    number: u32,
    function: &Function,
    queries: bool,
) -> Result<(), AllocError>
    requires { length function.now.params ≤ 8 }
    ensures { OnOk result (calls.new ≡ calls.old ++ cond (made.alike (runs.is_query function.now.body) queries) (made.made_calls number function.now 3) []) }
{
    if is_query(&function.body) == queries {
        add_calls(alloc, calls, number, function)?;
    }
    Ok(())
}

/// The calls of the program's queries, or of its updates, by function and then by variant.
pub(crate) fn calls_of(
    alloc: Global,
    program: &Program,
    queries: bool,
) -> Result<Seq<Invocation>, AllocError>
    requires count { length program.now.functions ≤ 32 }
    requires few { Each (λ (f : AFunction). length f.params ≤ 8) program.now.functions }
    ensures { IfOk result (λ calls. calls ≡ made.invocations program.now queries) }
{
    let mut calls = Seq::new(alloc);
    let mut number = 0u32;
    for function in program.functions.as_slice() {
        add_wanted(alloc, &mut calls, number, function, queries)?;
        number += 1;
    }
    Ok(calls)
}
