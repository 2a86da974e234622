// Whether variables are named for an old view's tables, and joined as these are.
ghost use Rattle.std.specs.Prelude.{◌≡◌, map, slice_get, slice_index_or, IfOk};
ghost use Rattle.std.specs.List.{list_all};
ghost use Rattle.mig_schema.specs.declared.programs.Op.TheVariants.{Eq as EqOp};
ghost use Rattle.mig_schema.specs.Joins.{tables_of};
ghost use Rattle.mig_classes.specs.Given.{given};
ghost use Rattle.mig_folding.specs.Folding as spec;
ghost use Rattle.mig_folding.specs.Naming as naming;
ghost use Rattle.mig_folding.specs.Writing as writing;

use crate::images::is_there;
use mig_algebra::{Atom, Lit, Var};
use mig_classes::Groups;
use mig_obligations::place_in;
use mig_schema::{ColId, Join, Joined, Op, Side};
use std::alloc::{AllocError, Global};

/// Where variables are named: the number of the host's first variable, its variables, those in scope in it, and the classes of the plain literals of it and around it.
#[derive(Drop)]
pub(crate) struct Hosting<'a> {
    pub base: u32,
    pub vars: &'a [Var],
    pub scope: &'a [Var],
    pub groups: &'a Groups<'a>,
}

/// Whether variable i is there and ranges over an old table before the call.
pub(crate) fn is_of_table(vars: &[Var], i: usize, table: u32) -> bool
    ensures { result ≡ spec.is_of_table table (slice_get vars.now i) }
{
    match vars.get(i) {
        Some(v) => v.side == Side::Old && v.table == table && v.stage == 0,
        None => false,
    }
}

/// Whether these numbers name, each once, variables of the host for the tables that a join adds, in order.
fn more_named(base: u32, vars: &[Var], named: &[u32], more: &[Joined]) -> bool
    ensures { result ≡ spec.are_named base vars.now named.now (map (λ m. m.table) more.now) }
{
    match named {
        [] => more.is_empty(),
        [x, rest @ ..] => match more {
            [] => false,
            [joined, others @ ..] => !is_there(rest, *x)
                && *x >= base
                && is_of_table(vars, (*x - base) as usize, joined.table)
                && more_named(base, vars, rest, others),
        },
    }
}

/// The same for all tables of a join.
pub(crate) fn are_named(base: u32, vars: &[Var], named: &[u32], join: &Join) -> bool
    ensures { result ≡ spec.are_named base vars.now named.now (tables_of join.now) }
{
    match named {
        [] => false,
        [x, rest @ ..] => !is_there(rest, *x)
            && *x >= base
            && is_of_table(vars, (*x - base) as usize, join.first)
            && more_named(base, vars, rest, join.more.as_slice()),
    }
}

/// The item of a number, or 0 where there is none.
fn item_at(numbers: &[u32], i: usize) -> u32
    ensures { result ≡ slice_index_or numbers.now i 0 }
{
    match numbers.get(i) {
        Some(n) => *n,
        None => 0,
    }
}

/// A column of a join by the variables of these numbers.
fn column_of(join: &Join, named: &[u32], column: ColId) -> Atom
    ensures { result ≡ spec.column_of join.now named.now column }
{
    Atom::Col {
        var: item_at(named, place_in(join, column.table)),
        column: column.column,
    }
}

/// Whether the table of a column is among the first n of a join.
fn is_reached(join: &Join, n: usize, column: ColId) -> bool
    ensures { result ≡ naming.is_reached join.now n column }
{
    place_in(join, column.table) < n
}

impl<'a> Hosting<'a> {
    /// Whether an equality of a join is given, by the variables of these numbers.
    fn is_joined(&self, join: &Join, named: &[u32], joined: &Joined) -> bool
        ensures { result ≡ given self.now.scope.now self.now.groups.now.lits.now EqOp (spec.column_of join.now named.now joined.now.left) (spec.column_of join.now named.now joined.now.right) }
    {
        let lit = Lit::Cmp {
            op: Op::Eq,
            left: column_of(join, named, joined.left),
            right: column_of(join, named, joined.right),
        };
        self.groups.gives(self.scope, &lit)
    }

    /// Whether all of them are.
    pub(crate) fn join_given(&self, join: &Join, named: &[u32]) -> bool
        ensures { result ≡ spec.joins_by join.now named.now self.now.scope.now self.now.groups.now.lits.now }
    {
        for joined in join.more.as_slice() {
            if !self.is_joined(join, named, joined) {
                return false;
            }
        }
        true
    }

    /// Whether an equality is given, where both its tables have a variable already.
    fn may_join(&self, join: &Join, front: &[u32], joined: &Joined) -> bool
        ensures { result ≡ naming.may_join (writing.host_now self.now) join.now front.now joined.now }
    {
        let n = front.len();
        let reached = is_reached(join, n, joined.left) && is_reached(join, n, joined.right);
        !reached || self.is_joined(join, front, joined)
    }

    /// Whether all of them may be.
    pub(crate) fn may_all_join(&self, join: &Join, front: &[u32]) -> bool
        ensures { result ≡ list_all (naming.may_join (writing.host_now self.now) join.now front.now) join.now.more }
    {
        for joined in join.more.as_slice() {
            if !self.may_join(join, front, joined) {
                return false;
            }
        }
        true
    }
}

/// Whether a list of literals gives all of them, these variables being in scope.
pub(crate) fn join_given(
    alloc: Global,
    scope: &[Var],
    known: &[Lit],
    join: &Join,
    named: &[u32],
) -> Result<bool, AllocError>
    ensures { IfOk result (λ b. b ≡ spec.joins_by join.now named.now scope.now known.now) }
{
    let groups = Groups::of(alloc, known)?;
    let hosting = Hosting {
        base: 0,
        vars: scope,
        scope,
        groups: &groups,
    };
    Ok(hosting.join_given(join, named))
}
