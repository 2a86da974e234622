// Variables in order, and the new numbers that they get by it.
ghost use Rattle.std.specs.Prelude.{◌≡◌, ◌<◌, ◌+◌, ◌^◌, ◌++◌, length, IfOk};
ghost use Rattle.mig_meaning.specs.Lists.{place};
ghost use Rattle.mig_algebra.specs.Tidied as spec;
ghost use Rattle.mig_algebra.specs.Rename as rename;

use crate::atoms::{Atom, Var};
use crate::orders::var_order;
use mig_base::{Exact, Seq};
use std::alloc::{AllocError, Global};
use std::cmp::Ordering;

/// A variable with its number.
#[derive(Clone, Copy, Debug)]
pub(crate) struct Slot {
    pub(crate) number: u32,
    pub(crate) var: Var,
}

/// The variables of a term or of a body in order, and the old numbers of all that are in scope with them, in their new order.
#[derive(Drop)]
pub(crate) struct Scope {
    pub(crate) vars: Seq<Var>,
    pub(crate) old: Vec<u32>,
}

/// How two slots stand: by variable, and equal variables by number.
fn slot_order(left: &Slot, right: &Slot) -> Ordering
    ensures { result ≡ spec.slot_order left.now right.now }
{
    var_order(&left.var, &right.var).then(left.number.cmp(&right.number))
}

/// The variables with their numbers, from `first` on.
fn slots(alloc: Global, first: u32, vars: &[Var]) -> Result<Vec<Slot>, AllocError>
    requires { first + length vars.now < 2 ^ 31 }
    ensures { IfOk result (λ v. v.items ≡ spec.slots first vars.now) }
{
    let mut list = Vec::with_capacity(alloc, vars.len())?;
    for i in 0..vars.len() {
        list.push(Slot {
            number: first + i as u32,
            var: vars[i],
        })?;
    }
    Ok(list)
}

/// The variables with their numbers, from `first` on, in order.
fn slots_in_order(alloc: Global, first: u32, vars: &[Var]) -> Result<Vec<Slot>, AllocError>
    requires { first + length vars.now < 2 ^ 31 }
    ensures { IfOk result (λ v. v.items ≡ spec.slots_in_order first vars.now) }
{
    let mut list = slots(alloc, first, vars)?;
    list.sort_unstable_by(|a, b| slot_order(a, b));
    Ok(list)
}

/// The variables of these slots.
fn vars_of(alloc: Global, slots: &[Slot]) -> Result<Vec<Var>, AllocError>
    ensures { IfOk result (λ v. v.items ≡ spec.vars_of slots.now) }
{
    let mut vars = Vec::with_capacity(alloc, slots.len())?;
    for slot in slots {
        vars.push(slot.var)?;
    }
    Ok(vars)
}

/// The numbers in `old`, and behind them those of the slots.
fn with_numbers(alloc: Global, old: &[u32], slots: &[Slot]) -> Result<Vec<u32>, AllocError>
    ensures { IfOk result (λ v. v.items ≡ old.now ++ spec.numbers_of slots.now) }
{
    let mut numbers = Vec::from_slice(alloc, old)?;
    for slot in slots {
        numbers.push(slot.number)?;
    }
    Ok(numbers)
}

/// What is in scope inside a term or a body with these variables, where `old` has the old numbers of those around it in their new order.
pub(crate) fn inside(alloc: Global, old: &[u32], vars: &[Var]) -> Result<Scope, AllocError>
    requires { length old.now + length vars.now < 2 ^ 31 }
    ensures vars { IfOk result (λ i. i.vars ≡ spec.vars_of (spec.slots_in_order (length old.now) vars.now)) }
    ensures old { IfOk result (λ i. i.old.items ≡ old.now ++ spec.numbers_of (spec.slots_in_order (length old.now) vars.now)) }
    ensures count { IfOk result (λ i. length i.old.items ≡ length old.now + length vars.now) }
{
    let slots = slots_in_order(alloc, old.len() as u32, vars)?;
    let vars = Seq::from_vec(vars_of(alloc, slots.as_slice())?);
    let old = with_numbers(alloc, old, slots.as_slice())?;
    Ok(Scope { vars, old })
}

/// A variable's new number: its place among the old numbers in their new order.
pub(crate) fn new_number(old: &[u32], var: u32) -> u32
    requires { length old.now < 2 ^ 31 }
    ensures { result ≡ place old.now var }
{
    for (i, number) in old.iter().enumerate() {
        if *number == var {
            return i as u32;
        }
    }
    old.len() as u32
}

/// The atom with the new number of its variable.
pub(crate) fn renumbered(alloc: Global, old: &[u32], atom: &Atom) -> Result<Atom, AllocError>
    requires { length old.now < 2 ^ 31 }
    ensures { IfOk result (λ a. a ≡ rename.renumbered (place old.now) atom.now) }
{
    match atom {
        Atom::Col { var, column } => Ok(Atom::Col {
            var: new_number(old, *var),
            column: *column,
        }),
        _ => atom.twin(alloc),
    }
}
