// A host's own variable unfolded by the statement that leads to its stage.
ghost use Rattle.std.specs.Prelude.{◌≡◌, ◌+◌, ◌-◌, ◌<◌, ◌∷◌, [], IfOk, cond, length, Some, None};
ghost use Rattle.mig_schema.specs.Joins.{is_among};
ghost use Rattle.mig_algebra.specs.Obligations as obligations;
ghost use Rattle.mig_unfolding.specs.Hosts as hosts;
ghost use Rattle.mig_unfolding.specs.Narrowed as narrowing;
ghost use Rattle.mig_unfolding.specs.Unfolding as spec;

use crate::cases::Seeing;
use crate::hosts::before_statement;
use crate::inserting::{Adding, inserted};
use crate::narrowing::{Newest, in_all};
use crate::setting::{Writing, is_unused, set_hosts};
use mig_algebra::{Term, Var};
use mig_base::{Seq, number};
use mig_obligations::{list_of, scalar_atom};
use mig_schema::{Assign, Cmp, ColId, Join, Scalar, Stmt, is_in_join};
use std::alloc::{AllocError, Global};

/// A host's own variable.
#[derive(Clone, Copy)]
pub(crate) struct Own<'a> {
    /// The variables around the host.
    pub scope: &'a [Var],
    /// The variable's number among the host's own.
    pub at: u32,
    pub var: &'a Var,
}

impl<'a> Own<'a> {
    /// How many variables stand around the host.
    fn around(&self) -> Result<u32, AllocError>
        ensures { IfOk result (λ n. n ≡ length self.now.scope.now) }
    {
        let count = number(self.scope.len())?;
        Ok(count)
    }

    /// The variable's number among all in scope.
    fn number(&self) -> Result<u32, AllocError>
        ensures { IfOk result (λ v. v ≡ length self.now.scope.now + self.now.at) }
    {
        let Some(count) = self.scope.len().checked_add(self.at as usize) else {
            return Err(AllocError);
        };
        let count = number(count)?;
        Ok(count)
    }

    /// What the variable sees of the condition of the statement before its stage.
    fn seeing<'b>(&self, join: &'b Join, host: &Term) -> Result<Seeing<'b>, AllocError>
        ensures of { IfOk result (λ s. (s.side ≡ self.now.var.now.side) × (s.table ≡ self.now.var.now.table) × (s.join.now ≡ join.now)) }
        ensures stage { IfOk result (λ s. s.stage ≡ self.now.var.now.stage - 1) }
        ensures numbers { IfOk result (λ s. (s.var ≡ length self.now.scope.now + self.now.at) × (s.scope ≡ length self.now.scope.now + length host.now.vars)) }
    {
        Ok(Seeing {
            side: self.var.side,
            stage: self.var.stage.saturating_sub(1),
            join,
            table: self.var.table,
            var: self.number()?,
            scope: in_all(self.around()?, host.vars.as_slice())?,
        })
    }
}

/// Whether a table is among these.
fn is_listed(tables: &[u32], table: u32) -> bool
    ensures { result ≡ is_among table tables.now }
{
    tables.iter().any(|t| *t == table)
}

/// The host alone, for the rows that were there.
fn left_alone(alloc: Global, own: &Own, host: &Term) -> Result<Seq<Term>, AllocError>
    ensures { IfOk result (λ s. s ≡ hosts.before_statement own.now.at host.now ∷ []) }
{
    let before = before_statement(alloc, host, own.at as usize)?;
    Ok(list_of(alloc, [before])?)
}

/// The hosts where an insert adds a row to the table; nothing where an `Other` of the variable may not go.
#[tactic(auto, using(crate::proofs::NarrowLists::narrowed_length))]
fn by_insert(
    alloc: Global,
    own: &Own,
    join: &Join,
    values: &[Assign],
    host: &Term,
) -> Result<Option<Seq<Term>>, AllocError>
    requires { own.now.at < length host.now.vars }
    ensures { IfOk result (λ o. o ≡ cond (narrowing.host_narrows own.now.var.now (length own.now.scope.now + own.now.at) own.now.scope.now host.now) (Some (spec.insert_hosts (length own.now.scope.now) own.now.at own.now.var.now join.now values.now host.now)) None) }
{
    let var = own.number()?;
    let newest = Newest {
        var: own.var,
        number: var,
    };
    if !newest.may_go(alloc, own.scope, host)? {
        return Ok(None);
    }
    let at = own.at;
    let table = own.var.table;
    let adding = Adding {
        var,
        at,
        table,
        join,
        values,
    };
    let narrowed = newest.host(alloc, own.around()?, host)?;
    let hosts = inserted(alloc, &adding, host, &narrowed)?;
    Ok(Some(hosts))
}

/// The host where a delete takes rows from the table.
fn by_delete(
    alloc: Global,
    own: &Own,
    join: &Join,
    cases: &[Seq<Cmp>],
    host: &Term,
) -> Result<Seq<Term>, AllocError>
    ensures { IfOk result (λ s. s ≡ spec.deleted (length own.now.scope.now) own.now.at own.now.var.now join.now cases.now host.now ∷ []) }
{
    let seeing = own.seeing(join, host)?;
    let mut left = before_statement(alloc, host, own.at as usize)?;
    seeing.push_unmet(alloc, cases, &mut left.lits)?;
    Ok(list_of(alloc, [left])?)
}

/// The hosts where a set writes a column of the table.
fn by_set(
    alloc: Global,
    own: &Own,
    column: u32,
    value: &Scalar,
    join: &Join,
    cases: &[Seq<Cmp>],
    host: &Term,
) -> Result<Seq<Term>, AllocError>
    ensures { IfOk result (λ s. s ≡ spec.set_hosts (length own.now.scope.now) own.now.at own.now.var.now column (obligations.scalar_atom value.now) join.now cases.now host.now) }
{
    let seeing = own.seeing(join, host)?;
    let value = scalar_atom(alloc, value)?;
    let writing = Writing {
        var: seeing.var,
        column,
        value: &value,
    };
    let before = before_statement(alloc, host, own.at as usize)?;
    let hosts = set_hosts(alloc, &seeing, &writing, before, cases)?;
    Ok(hosts)
}

/// Whether a set of a column can be seen from the variable.
fn is_seen(own: &Own, column: ColId, host: &Term) -> Result<bool, AllocError>
    ensures { IfOk result (λ b. b ≡ spec.is_seen column ((length own.now.scope.now) + own.now.at) own.now.var.now.table host.now) }
{
    let var = own.number()?;
    Ok(column.table == own.var.table && !is_unused(var, column.column, host))
}

/// The hosts that a host becomes where its variable is unfolded by a statement; nothing where the statement inserts and an `Other` of the variable may not go.
pub(crate) fn unfolded(
    alloc: Global,
    stmt: &Stmt,
    own: &Own,
    host: &Term,
) -> Result<Option<Seq<Term>>, AllocError>
    requires { own.now.at < length host.now.vars }
    ensures { IfOk result (λ o. o ≡ spec.unfolded stmt.now own.now.scope.now own.now.at own.now.var.now host.now) }
{
    match stmt {
        Stmt::Insert { join, values } if is_in_join(join, own.var.table) => {
            let hosts = by_insert(alloc, own, join, values.as_slice(), host)?;
            Ok(hosts)
        }
        Stmt::Delete { tables, join, cond } if is_listed(tables.as_slice(), own.var.table) => {
            let hosts = by_delete(alloc, own, join, cond.cases.as_slice(), host)?;
            Ok(Some(hosts))
        }
        Stmt::Set {
            column,
            value,
            join,
            cond,
        } if is_seen(own, *column, host)? => {
            let hosts = by_set(
                alloc,
                own,
                column.column,
                value,
                join,
                cond.cases.as_slice(),
                host,
            )?;
            Ok(Some(hosts))
        }
        _ => {
            let hosts = left_alone(alloc, own, host)?;
            Ok(Some(hosts))
        }
    }
}
