// A body is decided that no rows meet: it contradicts itself or what stands around it, or an invariant does.
ghost use Rattle.std.specs.Prelude.{◌≡◌, ◌++◌, length, IfOk};
ghost use Rattle.std.specs.List.{list_any};
ghost use Rattle.mig_listing.specs.Choices as listing;
ghost use Rattle.mig_replacing.specs.Given as placed;
ghost use Rattle.mig_rows.specs.Never as spec;
ghost use Rattle.mig_steps.specs.Seeing.{seen};

use crate::ranging::{are_rows, is_row};
use mig_algebra::{Atom, Inner, Invariant, Lit, Var};
use mig_base::{Exact, Seq};
use mig_classes::Groups;
use mig_replacing::spread;
use mig_schema::{ColId, Side};
use mig_steps::{LitRule, Spot, numbers, push_plain};
use std::alloc::{AllocError, Global};

/// The rule `never`: a body that no rows meet is decided, since it contradicts itself or what stands around it, or an invariant does.
#[derive(Drop)]
pub struct Refuting<'a> {
    pub invariants: &'a [Invariant],
}

/// Whether two variables range over the tables of two columns, which are in one class of a list.
fn joins(
    groups: &Groups,
    scope: &[Var],
    side: Side,
    left: ColId,
    right: ColId,
    x: u32,
    y: u32,
) -> bool
    ensures { result ≡ spec.joins side left right scope.now groups.now.lits.now x y }
{
    let first = Atom::Col {
        var: x,
        column: left.column,
    };
    let second = Atom::Col {
        var: y,
        column: right.column,
    };
    are_rows(side, left, right, x, y, scope) && groups.one_class(&first, &second)
}

/// Whether a variable and some variable of these numbers do.
fn joins_with(
    groups: &Groups,
    scope: &[Var],
    side: Side,
    left: ColId,
    right: ColId,
    x: u32,
    others: &[u32],
) -> bool
    ensures { result ≡ list_any (spec.joins side left right scope.now groups.now.lits.now x) others.now }
{
    for y in others {
        if joins(groups, scope, side, left, right, x, *y) {
            return true;
        }
    }
    false
}

/// The same. No other variable is looked at where the first one doesn't range over its table.
fn joins_from(
    groups: &Groups,
    scope: &[Var],
    side: Side,
    left: ColId,
    right: ColId,
    x: u32,
    others: &[u32],
) -> bool
    ensures { result ≡ list_any (spec.joins side left right scope.now groups.now.lits.now x) others.now }
{
    if !is_row(side, left.table, scope, x as usize) {
        return false;
    }
    joins_with(groups, scope, side, left, right, x, others)
}

/// Whether some two variables do, where all in scope have these numbers.
fn joins_some(
    groups: &Groups,
    scope: &[Var],
    all: &[u32],
    side: Side,
    left: ColId,
    right: ColId,
) -> bool
    requires { all.now ≡ listing.numbers (length scope.now) }
    ensures { result ≡ spec.joins_some side left right scope.now groups.now.lits.now }
{
    for x in all {
        if joins_from(groups, scope, side, left, right, *x, all) {
            return true;
        }
    }
    false
}

/// Whether a literal parts two variables whose column is in one class of a list.
fn parts_joined(groups: &Groups, scope: &[Var], side: Side, column: ColId, lit: &Lit) -> bool
    ensures { result ≡ spec.parts_joined side column scope.now groups.now.lits.now lit.now }
{
    match lit {
        Lit::Other { left, right } => joins(groups, scope, side, column, column, *left, *right),
        _ => false,
    }
}

/// Whether some literal of the list does.
fn some_parts_joined(groups: &Groups, scope: &[Var], side: Side, column: ColId) -> bool
    ensures { result ≡ list_any (spec.parts_joined side column scope.now groups.now.lits.now) groups.now.lits.now }
{
    for lit in groups.lits {
        if parts_joined(groups, scope, side, column, lit) {
            return true;
        }
    }
    false
}

/// Whether an invariant says that a list is true at no rows.
fn refutes(groups: &Groups, scope: &[Var], all: &[u32], invariant: &Invariant) -> bool
    requires { all.now ≡ listing.numbers (length scope.now) }
    ensures { result ≡ spec.refutes scope.now groups.now.lits.now invariant.now }
{
    match invariant {
        Invariant::Apart { side, left, right } => {
            joins_some(groups, scope, all, *side, *left, *right)
        }
        Invariant::Unique { side, column } => some_parts_joined(groups, scope, *side, *column),
        Invariant::Views { .. } | Invariant::Within { .. } => false,
    }
}

/// Whether some invariant does.
fn some_refutes(groups: &Groups, scope: &[Var], all: &[u32], invariants: &[Invariant]) -> bool
    requires { all.now ≡ listing.numbers (length scope.now) }
    ensures { result ≡ list_any (spec.refutes scope.now groups.now.lits.now) invariants.now }
{
    for invariant in invariants {
        if refutes(groups, scope, all, invariant) {
            return true;
        }
    }
    false
}

/// Whether a list is true at no rows, by itself or by an invariant.
fn is_never(
    alloc: Global,
    invariants: &[Invariant],
    scope: &[Var],
    lits: &[Lit],
) -> Result<bool, AllocError>
    ensures { IfOk result (λ b. b ≡ spec.is_never invariants.now scope.now lits.now) }
{
    let groups = Groups::of(alloc, lits)?;
    let contradicts = groups.contradict(alloc, scope)?;
    let all = numbers(alloc, scope.len())?;
    Ok(contradicts || some_refutes(&groups, scope, all.as_slice(), invariants))
}

/// Whether a body is met by no rows, with what stands around it.
fn is_refuted(
    alloc: Global,
    invariants: &[Invariant],
    spot: &Spot,
    inner: &Inner,
) -> Result<bool, AllocError>
    ensures { IfOk result (λ b. b ≡ spec.is_never invariants.now (spot.now.scope ++ inner.now.vars) (spot.now.around ++ placed.plain inner.now.lits)) }
{
    let mut scope = spot.scope.twin(alloc)?;
    scope.extend_from_slice(inner.vars.as_slice())?;
    let mut around = spot.around.twin(alloc)?;
    push_plain(alloc, &mut around, inner.lits.as_slice())?;
    let found = is_never(alloc, invariants, scope.as_slice(), around.as_slice())?;
    Ok(found)
}

/// What a body becomes.
fn never_body(
    alloc: Global,
    invariants: &[Invariant],
    spot: &Spot,
    held: bool,
    inner: &Inner,
) -> Result<Option<Seq<Seq<Lit>>>, AllocError>
    ensures { IfOk result (λ o. o ≡ spec.never_body invariants.now (seen spot.now) held inner.now.vars inner.now.lits) }
{
    if !is_refuted(alloc, invariants, spot, inner)? {
        return Ok(None);
    }
    Ok(Some(Seq::from_vec(spread(alloc, held, &[])?)))
}

/// What a literal becomes.
fn never_lit(
    alloc: Global,
    invariants: &[Invariant],
    spot: &Spot,
    lit: &Lit,
) -> Result<Option<Seq<Seq<Lit>>>, AllocError>
    ensures { IfOk result (λ o. o ≡ spec.never_lit invariants.now (seen spot.now) lit.now) }
{
    match lit {
        Lit::Any { held, inner } => never_body(alloc, invariants, spot, *held, inner),
        _ => Ok(None),
    }
}

impl<'a> LitRule for Refuting<'a> {
    ghost use Rattle.mig_rows.specs.Never.{never};

    ghost gives = { λ r args s. never r.invariants.now args s };

    fn alternatives(
        &self,
        alloc: Global,
        args: &[u32],
        spot: &Spot,
    ) -> Result<Option<Seq<Seq<Lit>>>, AllocError> {
        match args {
            [] => never_lit(alloc, self.invariants, spot, spot.lit),
            _ => Ok(None),
        }
    }
}
