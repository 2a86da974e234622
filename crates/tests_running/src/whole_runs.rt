// A run succeeds with ample memory, and fails where its store does.
ghost use Rattle.std.specs.Prelude.{◌≡◌, ◌∷◌, [], IfOk};
ghost use Rattle.mig_schema.specs.declared.programs.Body.TheVariants as body;

use mig_base::Seq;
use mig_meaning::{Args, Calls, Invocation};
use mig_schema::{Body, Function, Program, Schema};
use mig_storage::{FaultStore, Store, VecStore};
use mig_store::run;
use std::alloc::{AllocError, Global};
use std::test::Fail;

fn no_tables(alloc: Global) -> Schema
    ensures { result ≡ record { tables = []; links = [] } }
{
    Schema {
        tables: Seq::new(alloc),
        links: Seq::new(alloc),
    }
}

// update f() {}
fn program(alloc: Global) -> Result<Program, AllocError>
    ensures { IfOk result (λ p. p ≡ record { functions = record { name = []; params = []; body = body.Update [] } ∷ [] }) }
{
    let mut functions = Seq::new(alloc);
    functions.push(Function {
        name: Seq::new(alloc),
        params: Seq::new(alloc),
        body: Body::Update(Seq::new(alloc)),
    })?;
    Ok(Program { functions })
}

fn call(alloc: Global) -> Invocation
    ensures { result ≡ record { function = 0; args = record { values = [] } } }
{
    Invocation {
        function: 0,
        args: Args {
            values: Seq::new(alloc),
        },
    }
}

// f() f()
fn two_calls(alloc: Global) -> Result<Calls, AllocError>
    ensures { IfOk result (λ c. c ≡ record { calls = record { function = 0; args = record { values = [] } } ∷ record { function = 0; args = record { values = [] } } ∷ [] }) }
{
    let mut calls = Seq::new(alloc);
    calls.push(call(alloc))?;
    calls.push(call(alloc))?;
    Ok(Calls { calls })
}

#[test]
fn a_run_of_updates_answers_nothing(rt: HostRuntime) -> Result<(), Fail> {
    let alloc = rt.alloc();
    let schema = no_tables(alloc);
    let program = program(alloc)?;
    let calls = two_calls(alloc)?;
    let mut store = VecStore::new(alloc);
    let answers = run(alloc, &mut store, &schema, &program, &calls)?;
    assert!(rt; answers.list.is_empty());
    Ok(())
}

/// The calls of the store are its `create`, and a begin and a commit for each call of the run.
#[test]
fn a_store_that_fails_at_any_call_fails_the_run(rt: HostRuntime) -> Result<(), Fail> {
    let alloc = rt.alloc();
    let schema = no_tables(alloc);
    let program = program(alloc)?;
    let calls = two_calls(alloc)?;
    for n in [1, 2, 3, 4, 5] {
        let mut store = FaultStore::new(VecStore::new(alloc), Seq::from_slice(alloc, &[n])?);
        let answers = run(alloc, &mut store, &schema, &program, &calls);
        assert!(rt; answers.is_err(), "at {n}");
    }
    let mut store = FaultStore::new(VecStore::new(alloc), Seq::from_slice(alloc, &[6])?);
    let answers = run(alloc, &mut store, &schema, &program, &calls)?;
    assert!(rt; answers.list.is_empty());
    Ok(())
}
