// A call succeeds with ample memory, and fails where its store does.
ghost use Rattle.std.specs.Prelude.{◌≡◌, [], ◌∷◌, length, IfOk};
ghost use Rattle.mig_schema.specs.declared.programs.Body.TheVariants as body;
ghost use Rattle.mig_meaning.specs.Lists.{AllDifferent};

use mig_base::Seq;
use mig_calls::call;
use mig_meaning::{Args, Keys, Reply};
use mig_schema::{Body, Function, Schema};
use mig_storage::{FaultStore, Store, VecStore};
use std::alloc::{AllocError, Global};
use std::test::Fail;

fn sixteen(alloc: Global) -> Result<Keys, AllocError>
    ensures count { IfOk result (λ k. length k.keys ≡ 16) }
    ensures different { IfOk result (λ k. AllDifferent k.keys) }
{
    let keys = Seq::from_slice(
        alloc,
        &[0, 1, 2, 3, 4, 5, 6, 7, 8, 9, 10, 11, 12, 13, 14, 15],
    )?;
    Ok(Keys { keys })
}

fn no_tables(alloc: Global) -> Schema
    ensures { result ≡ record { tables = []; links = [] } }
{
    Schema {
        tables: Seq::new(alloc),
        links: Seq::new(alloc),
    }
}

// update f() {}
fn nothing(alloc: Global) -> Function
    ensures { result ≡ record { name = []; params = []; body = body.Update [] } }
{
    Function {
        name: Seq::new(alloc),
        params: Seq::new(alloc),
        body: Body::Update(Seq::new(alloc)),
    }
}

#[test]
fn a_store_that_fails_at_its_begin_or_commit_fails_the_call(rt: HostRuntime) -> Result<(), Fail> {
    let alloc = rt.alloc();
    let schema = no_tables(alloc);
    let function = nothing(alloc);
    let args = Args {
        values: Seq::new(alloc),
    };
    let keys = sixteen(alloc)?;
    for n in [2, 3] {
        let mut store = FaultStore::new(VecStore::new(alloc), Seq::from_slice(alloc, &[n])?);
        store.create(&schema)?;
        let reply = call(alloc, &mut store, &schema, &function, &args, &keys);
        assert!(rt; reply.is_err(), "at {n}");
    }
    Ok(())
}

#[test]
fn an_update_without_statements_is_done(rt: HostRuntime) -> Result<(), Fail> {
    let alloc = rt.alloc();
    let schema = no_tables(alloc);
    let function = nothing(alloc);
    let args = Args {
        values: Seq::new(alloc),
    };
    let keys = sixteen(alloc)?;
    let mut store = VecStore::new(alloc);
    store.create(&schema)?;
    let reply = call(alloc, &mut store, &schema, &function, &args, &keys)?;
    assert!(rt; matches!(reply, Reply::Done));
    Ok(())
}
