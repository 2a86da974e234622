// What the `Other`s of a variable say once it stands for the row that was just inserted.
ghost use Rattle.std.specs.Prelude.{◌≡◌, ◌+◌, ◌==◌, ◌&&◌, ◌++◌, IfOk, cond, length, slice_get, true};
ghost use Rattle.std.specs.List.{list_any};
ghost use Rattle.mig_algebra.specs.Proper.{same_side as one_side};
ghost use Rattle.mig_unfolding.specs.Hosts.{var_before as earlier};
ghost use Rattle.mig_unfolding.specs.Narrowed as spec;

use crate::hosts::var_before;
use mig_algebra::{Inner, Lit, Term, Var};
use mig_base::{Exact, Seq, number};
use mig_schema::Side;
use std::alloc::{AllocError, Global};

/// A variable that stands for the row that was just inserted, and its number.
#[derive(Drop)]
pub(crate) struct Newest<'a> {
    pub var: &'a Var,
    pub number: u32,
}

/// The variables in scope at a literal, and the same with those of the innermost host or body narrowed.
#[derive(Drop)]
struct Scopes {
    all: Seq<Var>,
    seen: Seq<Var>,
}

/// Two lists in one.
fn joined(alloc: Global, front: &[Var], back: &[Var]) -> Result<Seq<Var>, AllocError>
    ensures { IfOk result (λ s. s ≡ front.now ++ back.now) }
{
    let mut all = Seq::from_slice(alloc, front)?;
    all.extend_from_slice(back)?;
    Ok(all)
}

/// The number behind one.
fn behind(n: u32) -> Result<u32, AllocError>
    ensures { IfOk result (λ m. m ≡ n + 1) }
{
    match n.checked_add(1) {
        Some(m) => Ok(m),
        None => Err(AllocError),
    }
}

/// How many variables are in scope with these.
pub(crate) fn in_all(n: u32, vars: &[Var]) -> Result<u32, AllocError>
    ensures { IfOk result (λ m. m ≡ n + length vars.now) }
{
    let Some(count) = vars.len().checked_add(n as usize) else {
        return Err(AllocError);
    };
    let count = number(count)?;
    Ok(count)
}

/// Whether two sides are one.
fn same_side(left: Side, right: Side) -> bool
    ensures { result ≡ one_side left right }
{
    match (left, right) {
        (Side::Old, Side::Old) | (Side::New, Side::New) => true,
        _ => false,
    }
}

/// Whether a literal is an `Other` of variable v.
fn parts(v: u32, lit: &Lit) -> bool
    ensures { result ≡ spec.parts v lit.now }
{
    match lit {
        Lit::Other { left, right } => *left == v || *right == v,
        _ => false,
    }
}

/// Whether it keeps v and w apart.
fn parts_two(v: u32, w: u32, lit: &Lit) -> bool
    ensures { result ≡ spec.parts_two v w lit.now }
{
    match lit {
        Lit::Other { left, right } => (*left == v && *right == w) || (*left == w && *right == v),
        _ => false,
    }
}

/// Whether a literal directly in a list keeps v and w apart.
fn any_parts(v: u32, w: u32, lits: &[Lit]) -> bool
    ensures { result ≡ list_any (spec.parts_two v w) lits.now }
{
    for lit in lits {
        if parts_two(v, w, lit) {
            return true;
        }
    }
    false
}

/// The same where w is another variable.
fn names(v: u32, w: u32, lits: &[Lit]) -> bool
    ensures { result ≡ spec.names v w lits.now }
{
    v != w && any_parts(v, w, lits)
}

impl<'a> Newest<'a> {
    /// Whether a variable ranges over the same rows.
    fn is_same(&self, x: &Var) -> bool
        ensures { result ≡ spec.is_same self.now.var.now x.now }
    {
        let u = self.var;
        same_side(x.side, u.side) && x.table == u.table && x.stage == u.stage
    }

    /// Whether a variable of a number is there, and ranges over the rows of the table at an earlier stage.
    fn is_older(&self, vars: &[Var], at: u32) -> bool
        ensures { result ≡ spec.is_older self.now.var.now (slice_get vars.now at) }
    {
        let u = self.var;
        match vars.get(at as usize) {
            Some(x) => same_side(x.side, u.side) && x.table == u.table && x.stage < u.stage,
            None => false,
        }
    }

    /// A variable of number k, narrowed.
    fn narrowed_var(&self, k: u32, lits: &[Lit], x: &Var) -> Var
        ensures { result ≡ cond (spec.names self.now.number k lits.now && spec.is_same self.now.var.now x.now) (earlier x.now) x.now }
    {
        if names(self.number, k, lits) && self.is_same(x) {
            var_before(x)
        } else {
            *x
        }
    }

    /// The variables that a list of literals stands under, from number k on, narrowed.
    fn narrowed(
        &self,
        alloc: Global,
        k: u32,
        lits: &[Lit],
        vars: &[Var],
    ) -> Result<Seq<Var>, AllocError>
        ensures { IfOk result (λ s. s ≡ spec.narrowed self.now.var.now self.now.number k lits.now vars.now) }
    {
        let mut at = k;
        let mut all = Seq::new(alloc);
        for x in vars {
            all.push(self.narrowed_var(at, lits, x))?;
            at = behind(at)?;
        }
        Ok(all)
    }

    /// A host under so many variables, narrowed.
    pub(crate) fn host(&self, alloc: Global, around: u32, host: &Term) -> Result<Term, AllocError>
        ensures { IfOk result (λ t. t ≡ spec.narrowed_host self.now.var.now self.now.number around host.now) }
    {
        let count = in_all(around, host.vars.as_slice())?;
        let vars = self.narrowed(alloc, around, host.lits.as_slice(), host.vars.as_slice())?;
        let lits = narrow_list(alloc, self, count, host.lits.as_slice())?;
        let head = host.head.twin(alloc)?;
        Ok(Term { vars, lits, head })
    }

    /// Whether each `Other` of the variable may go from a host under these variables.
    pub(crate) fn may_go(
        &self,
        alloc: Global,
        scope: &[Var],
        host: &Term,
    ) -> Result<bool, AllocError>
        ensures { IfOk result (λ b. b ≡ spec.host_narrows self.now.var.now self.now.number scope.now host.now) }
    {
        let lits = host.lits.as_slice();
        let inner = self.scopes(alloc, scope, lits, host.vars.as_slice())?;
        let may = list_narrows(alloc, self, &inner, lits)?;
        Ok(may)
    }

    /// The variables in scope in a host or body under these.
    fn scopes(
        &self,
        alloc: Global,
        all: &[Var],
        lits: &[Lit],
        vars: &[Var],
    ) -> Result<Scopes, AllocError>
        ensures all { IfOk result (λ s. s.all ≡ all.now ++ vars.now) }
        ensures seen { IfOk result (λ s. s.seen ≡ all.now ++ spec.narrowed self.now.var.now self.now.number (length all.now) lits.now vars.now) }
    {
        let narrowed = self.narrowed(alloc, number(all.len())?, lits, vars)?;
        let seen = joined(alloc, all, narrowed.as_slice())?;
        let all = joined(alloc, all, vars)?;
        Ok(Scopes { all, seen })
    }

    /// Whether an `Other` is none of the variable, or the other variable is of an earlier stage.
    fn other_narrows(&self, a: u32, b: u32, seen: &[Var]) -> bool
        ensures { result ≡ cond (a == self.now.number) (spec.is_older self.now.var.now (slice_get seen.now b)) (cond (b == self.now.number) (spec.is_older self.now.var.now (slice_get seen.now a)) true) }
    {
        if a == self.number {
            self.is_older(seen, b)
        } else if b == self.number {
            self.is_older(seen, a)
        } else {
            true
        }
    }
}

/// Whether the `Other`s of the variable in a literal may go.
#[cycle(narrows)]
fn lit_narrows(
    alloc: Global,
    newest: &Newest,
    scopes: &Scopes,
    lit: &Lit,
) -> Result<bool, AllocError>
    ensures { IfOk result (λ b. b ≡ spec.lit_narrows newest.now.var.now newest.now.number scopes.now.all scopes.now.seen lit.now) }
{
    match lit {
        Lit::Cmp { .. } => Ok(true),
        Lit::Other { left, right } => {
            Ok(newest.other_narrows(*left, *right, scopes.seen.as_slice()))
        }
        Lit::Any { inner, .. } => {
            let lits = inner.lits.as_slice();
            let deeper = newest.scopes(alloc, scopes.all.as_slice(), lits, inner.vars.as_slice())?;
            let may = list_narrows(alloc, newest, &deeper, lits)?;
            Ok(may)
        }
    }
}

/// The same of each literal of a list.
#[cycle(narrows)]
fn list_narrows(
    alloc: Global,
    newest: &Newest,
    scopes: &Scopes,
    lits: &[Lit],
) -> Result<bool, AllocError>
    ensures { IfOk result (λ b. b ≡ spec.list_narrows newest.now.var.now newest.now.number scopes.now.all scopes.now.seen lits.now) }
{
    for lit in lits {
        if !lit_narrows(alloc, newest, scopes, lit)? {
            return Ok(false);
        }
    }
    Ok(true)
}

/// A literal where so many variables are in scope, narrowed.
#[cycle(narrow)]
fn narrow_lit(alloc: Global, newest: &Newest, count: u32, lit: &Lit) -> Result<Lit, AllocError>
    ensures { IfOk result (λ l. l ≡ spec.narrow_lit newest.now.var.now newest.now.number count lit.now) }
{
    match lit {
        Lit::Cmp { .. } | Lit::Other { .. } => Ok(lit.twin(alloc)?),
        Lit::Any { held, inner } => {
            let lits = inner.lits.as_slice();
            let deeper = in_all(count, inner.vars.as_slice())?;
            let vars = newest.narrowed(alloc, count, lits, inner.vars.as_slice())?;
            let lits = narrow_list(alloc, newest, deeper, lits)?;
            Ok(Lit::Any {
                held: *held,
                inner: Inner { vars, lits },
            })
        }
    }
}

/// The literals of a list, narrowed, without the `Other`s of the variable.
#[cycle(narrow)]
fn narrow_list(
    alloc: Global,
    newest: &Newest,
    count: u32,
    lits: &[Lit],
) -> Result<Seq<Lit>, AllocError>
    ensures { IfOk result (λ s. s ≡ spec.narrow_list newest.now.var.now newest.now.number count lits.now) }
{
    let mut left = Seq::new(alloc);
    for lit in lits {
        if !parts(newest.number, lit) {
            left.push(narrow_lit(alloc, newest, count, lit)?)?;
        }
    }
    Ok(left)
}
