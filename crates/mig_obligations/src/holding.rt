// What is to be shown where an invariant is to hold after a pair of functions.
ghost use Rattle.std.specs.Prelude.{◌≡◌, IfOk, length};
ghost use Rattle.mig_algebra.specs.Obligations as spec;
ghost use Rattle.mig_obligations.specs.Forming.{equal_columns};
ghost use Rattle.mig_obligations.specs.Obligations.{holds_obligation};
ghost use Rattle.mig_obligations.specs.Settings.{statements as spec_statements};

use crate::forming::{col_atoms, join_lits, join_vars, list_of, number};
use crate::proving::{Obligation, Pair};
use mig_algebra::{Atom, Expr, Inner, Invariant, Lit, Term, Var, View, oriented};
use mig_base::Seq;
use mig_schema::{Body, ColId, Function, Op, Side};
use std::alloc::{AllocError, Global};

/// How many statements a function has; a query has none.
pub(crate) fn statement_count(function: &Function) -> usize
    ensures { result ≡ length (spec_statements function.now.body) }
{
    match &function.body {
        Body::Update(stmts) => stmts.len(),
        Body::Query(_) => 0,
    }
}

/// A view's rows at a stage of a side.
fn view_term(alloc: Global, side: Side, stage: u32, view: &View) -> Result<Term, AllocError>
    ensures { IfOk result (λ t. t ≡ spec.view_term side stage view.now) }
{
    let vars = Seq::from_vec(join_vars(alloc, side, stage, &view.join)?);
    let lits = Seq::from_vec(join_lits(alloc, &view.join)?);
    let head = Seq::from_vec(col_atoms(alloc, &view.join, view.outs.as_slice())?);
    Ok(Term { vars, lits, head })
}

/// A variable of a column's table.
fn var_for(side: Side, stage: u32, column: ColId) -> Var
    ensures { result ≡ spec.var_of side stage column.table }
{
    Var {
        side,
        table: column.table,
        stage,
    }
}

/// The literal that a column of the first variable and one of the second have one value.
fn equal(left: ColId, right: ColId) -> Lit
    ensures { result ≡ equal_columns left right }
{
    let left = Atom::Col {
        var: 0,
        column: left.column,
    };
    let right = Atom::Col {
        var: 1,
        column: right.column,
    };
    oriented(Op::Eq, left, right)
}

/// Two rows with different ids and equal values in the column.
fn unique_term(alloc: Global, side: Side, stage: u32, column: ColId) -> Result<Term, AllocError>
    ensures { IfOk result (λ t. t ≡ spec.unique_term side stage column) }
{
    let var = var_for(side, stage, column);
    let vars = list_of(alloc, [var, var])?;
    let lits = list_of(
        alloc,
        [Lit::Other { left: 0, right: 1 }, equal(column, column)],
    )?;
    let head = Seq::new(alloc);
    Ok(Term { vars, lits, head })
}

/// A row of each table, with equal values there.
fn apart_term(
    alloc: Global,
    side: Side,
    stage: u32,
    left: ColId,
    right: ColId,
) -> Result<Term, AllocError>
    ensures { IfOk result (λ t. t ≡ spec.apart_term side stage left right) }
{
    let vars = list_of(
        alloc,
        [var_for(side, stage, left), var_for(side, stage, right)],
    )?;
    let lits = list_of(alloc, [equal(left, right)])?;
    let head = Seq::new(alloc);
    Ok(Term { vars, lits, head })
}

/// A row whose value stands in no row of the other table.
fn within_term(
    alloc: Global,
    side: Side,
    stage: u32,
    left: ColId,
    right: ColId,
) -> Result<Term, AllocError>
    ensures { IfOk result (λ t. t ≡ spec.within_term side stage left right) }
{
    let inner = Inner {
        vars: list_of(alloc, [var_for(side, stage, right)])?,
        lits: list_of(alloc, [equal(left, right)])?,
    };
    let vars = list_of(alloc, [var_for(side, stage, left)])?;
    let lits = list_of(alloc, [Lit::Any { held: false, inner }])?;
    let head = Seq::new(alloc);
    Ok(Term { vars, lits, head })
}

/// A term on its side, and nothing on the other.
fn on_side(alloc: Global, its: Side, at: Side, term: Term) -> Result<Seq<Term>, AllocError>
    ensures { IfOk result (λ ts. ts ≡ spec.on_side its at term) }
{
    if its == at {
        list_of(alloc, [term])
    } else {
        Ok(Seq::new(alloc))
    }
}

/// What stands on a side, at its last stage, for an invariant that is to hold there.
fn holds_terms(
    alloc: Global,
    at: Side,
    stage: u32,
    invariant: &Invariant,
) -> Result<Seq<Term>, AllocError>
    ensures { IfOk result (λ ts. ts ≡ spec.holds_terms at stage invariant.now) }
{
    match (invariant, at) {
        (Invariant::Views { source, .. }, Side::Old) => {
            list_of(alloc, [view_term(alloc, at, stage, source)?])
        }
        (Invariant::Views { target, .. }, Side::New) => {
            list_of(alloc, [view_term(alloc, at, stage, target)?])
        }
        (Invariant::Unique { side, column }, _) => {
            let term = unique_term(alloc, *side, stage, *column)?;
            on_side(alloc, *side, at, term)
        }
        (Invariant::Apart { side, left, right }, _) => {
            let term = apart_term(alloc, *side, stage, *left, *right)?;
            on_side(alloc, *side, at, term)
        }
        (Invariant::Within { side, left, right }, _) => {
            let term = within_term(alloc, *side, stage, *left, *right)?;
            on_side(alloc, *side, at, term)
        }
    }
}

/// What is to be shown where an invariant is to hold after two updates: for a view the rows of both sides, for any
/// other invariant the rows that must not be there, beside nothing. A query counts as an update without statements.
/// A number that is no u32 is answered as want of memory.
pub fn holds(alloc: Global, pair: &Pair, invariant: &Invariant) -> Result<Obligation, AllocError>
    ensures { IfOk result (λ o. o ≡ holds_obligation (length (spec_statements pair.now.source_fn.now.body)) (length (spec_statements pair.now.target_fn.now.body)) invariant.now) }
{
    let stage = number(statement_count(pair.source_fn))?;
    let terms = holds_terms(alloc, Side::Old, stage, invariant)?;
    let source = Expr { terms };
    let stage = number(statement_count(pair.target_fn))?;
    let terms = holds_terms(alloc, Side::New, stage, invariant)?;
    let target = Expr { terms };
    Ok(Obligation { source, target })
}
