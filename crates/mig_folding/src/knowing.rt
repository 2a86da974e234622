// Which literals of a body are known where it stands, with variables outside it in place of its own.
ghost use Rattle.std.specs.Prelude.{◌≡◌, ◌+◌, IfOk, map, take, drop};
ghost use Rattle.std.specs.List.{list_all, list_any};
ghost use Rattle.mig_algebra.specs.Rename as rename;
ghost use Rattle.mig_steps.specs.Seeing.{seen, shown};
ghost use Rattle.mig_folding.specs.Known as spec;

use mig_algebra::{Atom, Lit, Renaming, lit_order, renamed_lit};
use mig_base::{Exact, number};
use mig_classes::is_given;
use mig_steps::{Enclosing, Spot};
use std::alloc::{AllocError, Global};

/// The variables that are written for a body's own, where so many are in scope around it.
#[derive(Drop)]
struct Put<'a> {
    count: u32,
    names: &'a [u32],
}

impl<'a> Put<'a> {
    /// What is written for a variable.
    fn number(&self, var: u32) -> Result<u32, AllocError>
        ensures { IfOk result (λ v. v ≡ spec.put self.now.count self.now.names.now var) }
    {
        if var < self.count {
            return Ok(var);
        }
        let at = (var - self.count) as usize;
        if at < self.names.len() {
            Ok(self.names[at])
        } else {
            number((var as usize).saturating_sub(self.names.len()))
        }
    }
}

impl<'a> Renaming for Put<'a> {
    ghost atom_for = { λ w a. rename.renumbered (spec.put w.count w.names.now) a };

    ghost id_for = { λ w v. spec.put w.count w.names.now v };

    fn atom(&self, alloc: Global, atom: &Atom) -> Result<Atom, AllocError> {
        match atom {
            Atom::Int(i) => Ok(Atom::Int(*i)),
            Atom::Text(t) => Ok(Atom::Text(t.twin(alloc)?)),
            Atom::Param(p) => Ok(Atom::Param(*p)),
            Atom::Fresh(n) => Ok(Atom::Fresh(*n)),
            Atom::Col { var, column } => Ok(Atom::Col {
                var: self.number(*var)?,
                column: *column,
            }),
        }
    }

    fn id(&self, var: u32) -> Result<u32, AllocError> {
        self.number(var)
    }
}

/// How many variables are in scope where a literal stands, and where it is to be compared.
#[derive(Drop)]
struct Further {
    from: u32,
    to: u32,
}

impl Further {
    /// A variable's number there.
    fn number(&self, var: u32) -> Result<u32, AllocError>
        ensures { IfOk result (λ v. v ≡ spec.further self.now.from self.now.to var) }
    {
        if var < self.from {
            Ok(var)
        } else {
            number(var as usize + self.to.saturating_sub(self.from) as usize)
        }
    }
}

impl Renaming for Further {
    ghost atom_for = { λ w a. rename.renumbered (spec.further w.from w.to) a };

    ghost id_for = { λ w v. spec.further w.from w.to v };

    fn atom(&self, alloc: Global, atom: &Atom) -> Result<Atom, AllocError> {
        match atom {
            Atom::Int(i) => Ok(Atom::Int(*i)),
            Atom::Text(t) => Ok(Atom::Text(t.twin(alloc)?)),
            Atom::Param(p) => Ok(Atom::Param(*p)),
            Atom::Fresh(n) => Ok(Atom::Fresh(*n)),
            Atom::Col { var, column } => Ok(Atom::Col {
                var: self.number(*var)?,
                column: *column,
            }),
        }
    }

    fn id(&self, var: u32) -> Result<u32, AllocError> {
        self.number(var)
    }
}

/// Whether a literal is another one, as if that one stood where it does.
fn stands_as(alloc: Global, further: &Further, lit: &Lit, other: &Lit) -> Result<bool, AllocError>
    ensures { IfOk result (λ b. b ≡ spec.stands_as further.now.to lit.now further.now.from other.now) }
{
    let here = renamed_lit(alloc, further, other)?;
    Ok(lit_order(lit, &here).is_eq())
}

/// Whether it is so one of a list.
fn stands_among(
    alloc: Global,
    further: &Further,
    lit: &Lit,
    lits: &[Lit],
) -> Result<bool, AllocError>
    ensures { IfOk result (λ b. b ≡ list_any (spec.stands_as further.now.to lit.now further.now.from) lits.now) }
{
    for other in lits {
        if stands_as(alloc, further, lit, other)? {
            return Ok(true);
        }
    }
    Ok(false)
}

/// The literals before that of a number; all where there is none.
fn before(lits: &[Lit], at: usize) -> &[Lit]
    ensures { result.now ≡ take at lits.now }
{
    if at < lits.len() { &lits[..at] } else { lits }
}

/// The literals behind that of a number.
fn behind(lits: &[Lit], at: usize) -> &[Lit]
    ensures { result.now ≡ drop (at + 1) lits.now }
{
    if at < lits.len() {
        &lits[at + 1..]
    } else {
        &[]
    }
}

/// Whether a literal, so many variables being in scope there, is one of the others of a list around.
fn stands_in(alloc: Global, count: u32, lit: &Lit, list: &Enclosing) -> Result<bool, AllocError>
    ensures { IfOk result (λ b. b ≡ spec.stands_in count lit.now (shown list.now)) }
{
    let further = Further {
        from: number(list.count)?,
        to: count,
    };
    if stands_among(alloc, &further, lit, before(list.lits, list.at))? {
        return Ok(true);
    }
    let stands = stands_among(alloc, &further, lit, behind(list.lits, list.at))?;
    Ok(stands)
}

/// The same of the lists around.
fn stands_around(
    alloc: Global,
    count: u32,
    lit: &Lit,
    lists: &[Enclosing],
) -> Result<bool, AllocError>
    ensures { IfOk result (λ b. b ≡ spec.stands_around count lit.now (map shown lists.now)) }
{
    for list in lists {
        if stands_in(alloc, count, lit, list)? {
            return Ok(true);
        }
    }
    Ok(false)
}

/// Whether a literal of a body is known where the body stands, with these variables in place of its own.
pub(crate) fn is_known(
    alloc: Global,
    spot: &Spot,
    names: &[u32],
    lit: &Lit,
) -> Result<bool, AllocError>
    ensures { IfOk result (λ b. b ≡ spec.is_known (seen spot.now) names.now lit.now) }
{
    let count = number(spot.scope.len())?;
    let here = renamed_lit(alloc, &Put { count, names }, lit)?;
    match lit {
        Lit::Cmp { .. } => {
            let given = is_given(alloc, spot.scope.as_slice(), spot.around.as_slice(), &here)?;
            Ok(given)
        }
        _ => {
            let stands = stands_around(alloc, count, &here, spot.lists.as_slice())?;
            Ok(stands)
        }
    }
}

/// Whether all are.
pub(crate) fn are_known(
    alloc: Global,
    spot: &Spot,
    names: &[u32],
    lits: &[Lit],
) -> Result<bool, AllocError>
    ensures { IfOk result (λ b. b ≡ list_all (spec.is_known (seen spot.now) names.now) lits.now) }
{
    for lit in lits {
        if !is_known(alloc, spot, names, lit)? {
            return Ok(false);
        }
    }
    Ok(true)
}
