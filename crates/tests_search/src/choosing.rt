// Choices of two holes with two options each, under a row of blocks.
ghost use Rattle.std.specs.Prelude.{◌≡◌, ◌<◌, ◌^◌, [], ◌∷◌, IfOk};
ghost use Rattle.mig_sketch.specs.Choices.{sizes_of};

use mig_base::Seq;
use mig_complete::{Block, Chooser, Pick};
use mig_schema::{Cond, Join, Query};
use mig_sketch::{Hole, Part, Plan};
use std::alloc::{AllocError, Global};
use std::test::Fail;

/// A query of nothing.
fn nothing(alloc: Global) -> Part {
    let join = Join {
        first: 0,
        more: Seq::new(alloc),
    };
    let cond = Cond {
        cases: Seq::new(alloc),
    };
    Part::Query(Query {
        columns: Seq::new(alloc),
        join,
        cond,
    })
}

/// A plan of two holes with two options each.
fn two_holes(alloc: Global) -> Result<Plan, AllocError>
    ensures { IfOk result (λ p. sizes_of p.holes ≡ 2 ∷ 2 ∷ []) }
{
    let mut first = Seq::new(alloc);
    first.push(nothing(alloc))?;
    first.push(nothing(alloc))?;
    let mut second = Seq::new(alloc);
    second.push(nothing(alloc))?;
    second.push(nothing(alloc))?;
    let mut holes = Seq::new(alloc);
    holes.push(Hole {
        function: 0,
        statement: 0,
        options: first,
    })?;
    holes.push(Hole {
        function: 1,
        statement: 0,
        options: second,
    })?;
    Ok(Plan {
        functions: Seq::new(alloc),
        holes,
    })
}

/// A block of the first option of a hole.
fn first_of(alloc: Global, hole: u32) -> Result<Block, AllocError>
    ensures { IfOk result (λ b. b.picks ≡ record { hole = hole; option = 0 } ∷ []) }
{
    let mut picks = Seq::new(alloc);
    picks.push(Pick { hole, option: 0 })?;
    Ok(Block { picks })
}

/// Whether the next choice has these picks; none for no choice.
fn gives(alloc: Global, chooser: &Chooser, want: &[u32]) -> Result<bool, AllocError> {
    match chooser.next(alloc)? {
        Some(choice) => Ok(choice.picks.as_slice() == want),
        None => Ok(want.is_empty()),
    }
}

#[test]
fn choices_go_on_behind_blocks(rt: HostRuntime) -> Result<(), Fail> {
    let alloc = rt.alloc();
    let mut chooser = Chooser::new(alloc, &two_holes(alloc)?)?;
    assert!(rt; gives(alloc, &chooser, &[0, 0])?);
    chooser.block(first_of(alloc, 0)?)?;
    assert!(rt; gives(alloc, &chooser, &[1, 0])?);
    chooser.block(first_of(alloc, 1)?)?;
    assert!(rt; gives(alloc, &chooser, &[1, 1])?);
    let picks = Seq::new(alloc);
    chooser.block(Block { picks })?;
    assert!(rt; gives(alloc, &chooser, &[])?);
    Ok(())
}
