// Joins and conditions as variables, atoms and literals.
ghost use Rattle.std.specs.Prelude.{◌≡◌, map, IfOk};
ghost use Rattle.mig_schema.specs.Joins.{tables_of};
ghost use Rattle.mig_meaning.specs.Lists.{place};
ghost use Rattle.mig_algebra.specs.Obligations as spec;
ghost use Rattle.mig_obligations.specs.Forming as forming;

use mig_algebra::{Atom, Inner, Lit, Var, oriented};
use mig_base::{Exact, Seq};
use mig_schema::{Cmp, ColId, Item, Join, Joined, Op, Scalar, Side};
use std::alloc::{AllocError, Global};

/// A number as the language holds it. One that is no u32 counts as want of memory.
pub fn number(k: usize) -> Result<u32, AllocError>
    ensures { IfOk result (λ n. n ≡ k) }
{
    match u32::try_from(k) {
        Ok(n) => Ok(n),
        Err(_) => Err(AllocError),
    }
}

/// A list of these items.
pub fn list_of<T: Drop, const N: usize>(alloc: Global, items: [T; N]) -> Result<Seq<T>, AllocError>
    ensures { IfOk result (λ l. l ≡ items) }
{
    Ok(Seq::from_vec(Vec::from_array(alloc, items)?))
}

/// The place of a table in a join; the number of its tables where it is not there.
pub fn place_in(join: &Join, table: u32) -> usize
    ensures { result ≡ place (tables_of join.now) table }
{
    if join.first == table {
        return 0;
    }
    for (i, joined) in join.more.as_slice().iter().enumerate() {
        if joined.table == table {
            return i + 1;
        }
    }
    join.more.len() + 1
}

/// The variables of a join's tables, in order.
pub fn join_vars(alloc: Global, side: Side, stage: u32, join: &Join) -> Result<Vec<Var>, AllocError>
    ensures { IfOk result (λ v. v.items ≡ map (spec.var_of side stage) (tables_of join.now)) }
{
    let mut vars = Vec::new(alloc);
    let table = join.first;
    vars.push(Var { side, table, stage })?;
    for joined in join.more.as_slice() {
        let table = joined.table;
        vars.push(Var { side, table, stage })?;
    }
    Ok(vars)
}

/// A column of a join.
pub(crate) fn col_atom(join: &Join, column: ColId) -> Result<Atom, AllocError>
    ensures { IfOk result (λ a. a ≡ spec.col_atom (tables_of join.now) column) }
{
    Ok(Atom::Col {
        var: number(place_in(join, column.table))?,
        column: column.column,
    })
}

/// Columns of a join, in order.
pub(crate) fn col_atoms(
    alloc: Global,
    join: &Join,
    columns: &[ColId],
) -> Result<Vec<Atom>, AllocError>
    ensures { IfOk result (λ v. v.items ≡ map (spec.col_atom (tables_of join.now)) columns.now) }
{
    let mut atoms = Vec::with_capacity(alloc, columns.len())?;
    for column in columns {
        atoms.push(col_atom(join, *column)?)?;
    }
    Ok(atoms)
}

/// A scalar.
pub fn scalar_atom(alloc: Global, scalar: &Scalar) -> Result<Atom, AllocError>
    ensures { IfOk result (λ a. a ≡ spec.scalar_atom scalar.now) }
{
    match scalar {
        Scalar::Param(p) => Ok(Atom::Param(*p)),
        Scalar::Int(i) => Ok(Atom::Int(*i)),
        Scalar::Text(t) => Ok(Atom::Text(t.twin(alloc)?)),
        Scalar::Fresh(n) => Ok(Atom::Fresh(*n)),
    }
}

/// A side of a comparison.
fn item_atom(alloc: Global, join: &Join, item: &Item) -> Result<Atom, AllocError>
    ensures { IfOk result (λ a. a ≡ spec.item_atom (tables_of join.now) item.now) }
{
    match item {
        Item::Col(column) => col_atom(join, *column),
        Item::Scalar(scalar) => scalar_atom(alloc, scalar),
    }
}

/// An equality of a join.
fn join_lit(join: &Join, joined: &Joined) -> Result<Lit, AllocError>
    ensures { IfOk result (λ l. l ≡ forming.join_lit (tables_of join.now) joined.now) }
{
    let left = col_atom(join, joined.left)?;
    let right = col_atom(join, joined.right)?;
    Ok(oriented(Op::Eq, left, right))
}

/// The equalities of a join, in order.
pub fn join_lits(alloc: Global, join: &Join) -> Result<Vec<Lit>, AllocError>
    ensures { IfOk result (λ v. v.items ≡ spec.join_lits (tables_of join.now) join.now.more) }
{
    let mut lits = Vec::with_capacity(alloc, join.more.len())?;
    for joined in join.more.as_slice() {
        lits.push(join_lit(join, joined)?)?;
    }
    Ok(lits)
}

/// A comparison of a case.
fn cmp_lit(alloc: Global, join: &Join, cmp: &Cmp) -> Result<Lit, AllocError>
    ensures { IfOk result (λ l. l ≡ forming.cmp_lit (tables_of join.now) cmp.now) }
{
    let left = item_atom(alloc, join, &cmp.left)?;
    let right = item_atom(alloc, join, &cmp.right)?;
    Ok(oriented(cmp.op, left, right))
}

/// The comparisons of a case, in order.
pub(crate) fn case_lits(alloc: Global, join: &Join, case: &[Cmp]) -> Result<Vec<Lit>, AllocError>
    ensures { IfOk result (λ v. v.items ≡ spec.case_lits (tables_of join.now) case.now) }
{
    let mut lits = Vec::with_capacity(alloc, case.len())?;
    for cmp in case {
        lits.push(cmp_lit(alloc, join, cmp)?)?;
    }
    Ok(lits)
}

/// That a case is not true.
pub(crate) fn not_case(alloc: Global, join: &Join, case: &[Cmp]) -> Result<Lit, AllocError>
    ensures { IfOk result (λ l. l ≡ spec.not_case (tables_of join.now) case.now) }
{
    let lits = Seq::from_vec(case_lits(alloc, join, case)?);
    Ok(Lit::Any {
        held: false,
        inner: Inner {
            vars: Seq::new(alloc),
            lits,
        },
    })
}
