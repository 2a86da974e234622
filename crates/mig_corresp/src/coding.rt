// Correspondences as clauses over the pairs of columns.
ghost use Rattle.std.specs.Prelude.{◌≡◌, ◌++◌, ◌∷◌, [], IfOk, OnOk, cond, map, filter};
ghost use Rattle.std.specs.List.{flat_map};
ghost use Rattle.mig_corresp.specs.Coding as spec;
ghost use Rattle.mig_corresp.specs.Correspondences.{goes_from, comes_to};
ghost use Rattle.mig_corresp.specs.Used as used;

use crate::using::{must_come, must_go};
use mig_base::{Seq, number};
use mig_invariant::{ColPair, all_columns};
use mig_sat::SatLit;
use mig_schema::{ColId, Job, same_col};
use std::alloc::{AllocError, Global};

/// The variable, true.
fn positive(var: u32) -> SatLit
    ensures { result ≡ spec.positive var }
{
    SatLit {
        var,
        positive: true,
    }
}

/// The variable, false.
fn negative(var: u32) -> SatLit
    ensures { result ≡ spec.negative var }
{
    SatLit {
        var,
        positive: false,
    }
}

/// Adds the number, if it is wanted.
fn add_place(list: &mut Vec<u32>, n: usize, wanted: bool) -> Result<(), AllocError>
    ensures { OnOk result (list.new.items ≡ list.old.items ++ cond wanted (n ∷ []) []) }
{
    if wanted {
        list.push(number(n)?)?;
    }
    Ok(())
}

/// The numbers of the pairs with the column left.
fn places_from(alloc: Global, pairs: &[ColPair], column: ColId) -> Result<Vec<u32>, AllocError>
    ensures { IfOk result (λ v. v.items ≡ spec.places (goes_from column) 0 pairs.now) }
{
    let mut list = Vec::new(alloc);
    for n in 0..pairs.len() {
        add_place(&mut list, n, same_col(pairs[n].source, column))?;
    }
    Ok(list)
}

/// The numbers of the pairs with the column right.
fn places_to(alloc: Global, pairs: &[ColPair], column: ColId) -> Result<Vec<u32>, AllocError>
    ensures { IfOk result (λ v. v.items ≡ spec.places (comes_to column) 0 pairs.now) }
{
    let mut list = Vec::new(alloc);
    for n in 0..pairs.len() {
        add_place(&mut list, n, same_col(pairs[n].target, column))?;
    }
    Ok(list)
}

/// One of these is true.
fn one_of(alloc: Global, places: &[u32]) -> Result<Seq<SatLit>, AllocError>
    ensures { IfOk result (λ c. c ≡ spec.one_of places.now) }
{
    let mut clause = Vec::with_capacity(alloc, places.len())?;
    for place in places {
        clause.push(positive(*place))?;
    }
    Ok(Seq::from_vec(clause))
}

/// One of three is false.
fn not_all(alloc: Global, a: u32, b: u32, c: u32) -> Result<Seq<SatLit>, AllocError>
    ensures { IfOk result (λ s. s ≡ spec.negative a ∷ spec.negative b ∷ spec.negative c ∷ []) }
{
    let mut clause = Vec::with_capacity(alloc, 3)?;
    clause.push(negative(a))?;
    clause.push(negative(b))?;
    clause.push(negative(c))?;
    Ok(Seq::from_vec(clause))
}

/// Adds: of two variables and each of the others one is false.
fn add_thirds(
    alloc: Global,
    a: u32,
    b: u32,
    others: &[u32],
    clauses: &mut Seq<Seq<SatLit>>,
) -> Result<(), AllocError>
    ensures { OnOk result (clauses.new ≡ clauses.old ++ spec.thirds a b others.now) }
{
    for c in others {
        clauses.push(not_all(alloc, a, b, *c)?)?;
    }
    Ok(())
}

/// Adds: of one variable and each two of the others one is false.
fn add_couples(
    alloc: Global,
    a: u32,
    others: &[u32],
    clauses: &mut Seq<Seq<SatLit>>,
) -> Result<(), AllocError>
    ensures { OnOk result (clauses.new ≡ clauses.old ++ spec.couples a others.now) }
{
    match others {
        [] => Ok(()),
        [b, rest @ ..] => {
            add_thirds(alloc, a, *b, rest, clauses)?;
            add_couples(alloc, a, rest, clauses)
        }
    }
}

/// Adds: of each three one is false.
fn add_triples(
    alloc: Global,
    places: &[u32],
    clauses: &mut Seq<Seq<SatLit>>,
) -> Result<(), AllocError>
    ensures { OnOk result (clauses.new ≡ clauses.old ++ spec.triples places.now) }
{
    match places {
        [] => Ok(()),
        [a, rest @ ..] => {
            add_couples(alloc, *a, rest, clauses)?;
            add_triples(alloc, rest, clauses)
        }
    }
}

/// Adds: each of these old columns has at most two images.
fn add_few(
    alloc: Global,
    pairs: &[ColPair],
    columns: &[ColId],
    clauses: &mut Seq<Seq<SatLit>>,
) -> Result<(), AllocError>
    ensures { OnOk result (clauses.new ≡ clauses.old ++ flat_map (spec.few_images pairs.now) columns.now) }
{
    for column in columns {
        let places = places_from(alloc, pairs, *column)?;
        add_triples(alloc, places.as_slice(), clauses)?;
    }
    Ok(())
}

/// Adds: each of these old columns that must go has an image.
fn add_images(
    alloc: Global,
    job: &Job,
    pairs: &[ColPair],
    columns: &[ColId],
    clauses: &mut Seq<Seq<SatLit>>,
) -> Result<(), AllocError>
    ensures { OnOk result (clauses.new ≡ clauses.old ++ map (spec.some_image pairs.now) (filter (used.must_go job.now) columns.now)) }
{
    for column in columns {
        if must_go(job, *column) {
            let places = places_from(alloc, pairs, *column)?;
            clauses.push(one_of(alloc, places.as_slice())?)?;
        }
    }
    Ok(())
}

/// Adds: each of these new columns that must come is an image.
fn add_origins(
    alloc: Global,
    job: &Job,
    pairs: &[ColPair],
    columns: &[ColId],
    clauses: &mut Seq<Seq<SatLit>>,
) -> Result<(), AllocError>
    ensures { OnOk result (clauses.new ≡ clauses.old ++ map (spec.some_origin pairs.now) (filter (used.must_come job.now) columns.now)) }
{
    for column in columns {
        if must_come(job, *column) {
            let places = places_to(alloc, pairs, *column)?;
            clauses.push(one_of(alloc, places.as_slice())?)?;
        }
    }
    Ok(())
}

/// What a correspondence of these pairs must meet.
pub fn clauses(alloc: Global, job: &Job, pairs: &[ColPair]) -> Result<Seq<Seq<SatLit>>, AllocError>
    ensures { IfOk result (λ list. list ≡ spec.clauses_over job.now pairs.now) }
{
    let sources = all_columns(alloc, &job.source)?;
    let targets = all_columns(alloc, &job.target)?;
    let mut list = Seq::new(alloc);
    add_few(alloc, pairs, sources.as_slice(), &mut list)?;
    add_images(alloc, job, pairs, sources.as_slice(), &mut list)?;
    add_origins(alloc, job, pairs, targets.as_slice(), &mut list)?;
    Ok(list)
}

/// Some variable has another value.
pub fn differing(alloc: Global, values: &[bool]) -> Result<Seq<SatLit>, AllocError>
    ensures { IfOk result (λ c. c ≡ spec.differing values.now) }
{
    let mut clause = Vec::with_capacity(alloc, values.len())?;
    for n in 0..values.len() {
        let var = number(n)?;
        clause.push(SatLit {
            var,
            positive: !values[n],
        })?;
    }
    Ok(Seq::from_vec(clause))
}
