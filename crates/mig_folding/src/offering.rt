// Which variables of a host are tried for a fold.
ghost use Rattle.std.specs.Prelude.{◌≡◌, ◌++◌, ◌∷◌, [], map, take, length, slice_get, Some, IfOk, OnOk};
ghost use Rattle.mig_schema.specs.Joins.{tables_of};
ghost use Rattle.mig_folding.specs.Folding as spec;
ghost use Rattle.mig_folding.specs.Naming as naming;
ghost use Rattle.mig_folding.specs.Writing as writing;

use crate::hosting::{Hosting, is_of_table};
use crate::images::is_there;
use mig_algebra::{Invariant, Var, View};
use mig_base::Seq;
use mig_obligations::number;
use mig_schema::{Join, Joined};
use mig_steps::{Front, chosen, numbers, one};
use std::alloc::{AllocError, Global};

/// Whether these numbers name, each once, variables of a host for the first of the tables that a join adds, in order.
fn more_started(base: u32, vars: &[Var], front: &[u32], more: &[Joined]) -> bool
    ensures { result ≡ spec.are_named base vars.now front.now (take (length front.now) (map (λ m. m.table) more.now)) }
{
    match front {
        [] => true,
        [x, rest @ ..] => match more {
            [] => false,
            [joined, others @ ..] => !is_there(rest, *x)
                && *x >= base
                && is_of_table(vars, (*x - base) as usize, joined.table)
                && more_started(base, vars, rest, others),
        },
    }
}

/// The same for the first of all tables of a join.
fn are_started(base: u32, vars: &[Var], front: &[u32], join: &Join) -> bool
    ensures { result ≡ spec.are_named base vars.now front.now (take (length front.now) (tables_of join.now)) }
{
    match front {
        [] => true,
        [x, rest @ ..] => !is_there(rest, *x)
            && *x >= base
            && is_of_table(vars, (*x - base) as usize, join.first)
            && more_started(base, vars, rest, join.more.as_slice()),
    }
}

/// Variables of a host for the tables of a join, one after the other.
#[derive(Drop)]
struct Starting<'a> {
    hosting: &'a Hosting<'a>,
    join: &'a Join,
}

impl<'a> Front for Starting<'a> {
    ghost use Rattle.mig_folding.specs.Naming.{may_name};
    ghost use Rattle.mig_folding.specs.Writing.{host_now};

    ghost may = { λ t front. may_name (host_now t.hosting.now) t.join.now front };

    fn goes_on(&self, front: &[u32]) -> bool {
        let hosting = self.hosting;
        are_started(hosting.base, hosting.vars, front, self.join)
            && hosting.may_all_join(self.join, front)
    }
}

/// The variables that are tried for a view.
fn names_by(alloc: Global, hosting: &Hosting, source: &View) -> Result<Vec<Seq<u32>>, AllocError>
    ensures { IfOk result (λ v. v.items ≡ naming.names_by (writing.host_now hosting.now) source.now) }
{
    let join = &source.join;
    let none = Seq::new(alloc);
    let more = number(join.more.len())?;
    let test = Starting { hosting, join };
    let all = chosen(alloc, &test, hosting.scope.len(), more as usize + 1, &none)?;
    Ok(all)
}

/// The variables that are tried for an invariant, which has to be a view.
fn names_of(
    alloc: Global,
    hosting: &Hosting,
    invariant: &Invariant,
) -> Result<Vec<Seq<u32>>, AllocError>
    ensures { IfOk result (λ v. v.items ≡ naming.names_for (writing.host_now hosting.now) (Some invariant.now)) }
{
    match invariant {
        Invariant::Views { source, .. } => names_by(alloc, hosting, source),
        Invariant::Unique { .. } | Invariant::Apart { .. } | Invariant::Within { .. } => {
            Ok(Vec::new(alloc))
        }
    }
}

/// The variables that are tried for the invariant of a number, if there is one.
fn names_for(
    alloc: Global,
    hosting: &Hosting,
    invariants: &[Invariant],
    k: u32,
) -> Result<Vec<Seq<u32>>, AllocError>
    ensures { IfOk result (λ v. v.items ≡ naming.names_for (writing.host_now hosting.now) (slice_get invariants.now k)) }
{
    match invariants.get(k as usize) {
        Some(invariant) => names_of(alloc, hosting, invariant),
        None => Ok(Vec::new(alloc)),
    }
}

/// A number before others.
fn longer(alloc: Global, k: u32, numbers: &[u32]) -> Result<Seq<u32>, AllocError>
    ensures { IfOk result (λ s. s ≡ k ∷ numbers.now) }
{
    let mut all = one(alloc, k)?;
    all.extend_from_slice(numbers)?;
    Ok(all)
}

/// Puts each list, with a number before it, at the end.
fn push_longer(
    alloc: Global,
    all: &mut Vec<Seq<u32>>,
    k: u32,
    lists: &[Seq<u32>],
) -> Result<(), AllocError>
    ensures { OnOk result (all.new.items ≡ all.old.items ++ map (λ xs. k ∷ xs) lists.now) }
{
    for list in lists {
        all.push(longer(alloc, k, list.as_slice())?)?;
    }
    Ok(())
}

/// Puts the invariant of a number, before the variables that are tried for it, at the end.
fn push_named(
    alloc: Global,
    all: &mut Vec<Seq<u32>>,
    hosting: &Hosting,
    invariants: &[Invariant],
    k: u32,
) -> Result<(), AllocError>
    ensures { OnOk result (all.new.items ≡ all.old.items ++ naming.args_for invariants.now (writing.host_now hosting.now) (k ∷ [])) }
{
    let named = names_for(alloc, hosting, invariants, k)?;
    push_longer(alloc, all, k, named.as_slice())?;
    Ok(())
}

/// Each invariant before the variables that are tried for it, in order.
pub(crate) fn host_args(
    alloc: Global,
    invariants: &[Invariant],
    hosting: &Hosting,
) -> Result<Seq<Seq<u32>>, AllocError>
    ensures { IfOk result (λ s. s ≡ naming.host_args invariants.now (writing.host_now hosting.now)) }
{
    let mut all = Vec::new(alloc);
    let offered = numbers(alloc, invariants.len())?;
    for k in offered.as_slice() {
        push_named(alloc, &mut all, hosting, invariants, *k)?;
    }
    Ok(Seq::from_vec(all))
}
