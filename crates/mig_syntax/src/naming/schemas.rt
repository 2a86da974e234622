// Schemas and hints, from names to numbers.
ghost use Rattle.std.specs.Prelude.{◌≡◌, IfOk, map};
ghost use Rattle.mig_syntax.specs.Naming as spec;

use crate::naming::places::col_of;
use mig_base::{Exact, Seq};
use mig_grammar::{HintTree, LinkTree, SchemaTree};
use mig_schema::{Hint, Link, Schema, Table};
use mig_tokens::weight_of;
use std::alloc::{AllocError, Global};

/// A hint with numbers.
fn hint_of(source: &[Table], target: &[Table], hint: &HintTree) -> Hint
    ensures { result ≡ spec.hint_of source.now target.now hint.now }
{
    Hint {
        source: col_of(source, &hint.source),
        target: col_of(target, &hint.target),
        weight: weight_of(hint.weight.as_slice()),
    }
}

/// Hints with numbers.
fn hints_of(
    alloc: Global,
    source: &[Table],
    target: &[Table],
    hints: &[HintTree],
) -> Result<Vec<Hint>, AllocError>
    ensures { IfOk result (λ v. v.items ≡ map (spec.hint_of source.now target.now) hints.now) }
{
    hints
        .iter()
        .map(|h| hint_of(source, target, h))
        .collect(alloc)
}

/// The hints of a job; none where the word `hints` is left out.
pub(crate) fn all_hints_of(
    alloc: Global,
    source: &[Table],
    target: &[Table],
    hints: &Option<Seq<HintTree>>,
) -> Result<Vec<Hint>, AllocError>
    ensures { IfOk result (λ v. v.items ≡ spec.hints_of source.now target.now hints.now) }
{
    match hints {
        Some(hints) => hints_of(alloc, source, target, hints.as_slice()),
        None => Ok(Vec::new(alloc)),
    }
}

/// A link with numbers.
fn link_of(tables: &[Table], link: &LinkTree) -> Link
    ensures { result ≡ spec.link_of tables.now link.now }
{
    Link {
        left: col_of(tables, &link.left),
        right: col_of(tables, &link.right),
    }
}

/// Links with numbers.
fn links_of(alloc: Global, tables: &[Table], links: &[LinkTree]) -> Result<Vec<Link>, AllocError>
    ensures { IfOk result (λ v. v.items ≡ map (spec.link_of tables.now) links.now) }
{
    links.iter().map(|l| link_of(tables, l)).collect(alloc)
}

/// A schema with numbers.
pub(crate) fn schema_of(alloc: Global, schema: &SchemaTree) -> Result<Schema, AllocError>
    ensures { IfOk result (λ s. s ≡ spec.schema_of schema.now) }
{
    let links = links_of(alloc, schema.tables.as_slice(), schema.links.as_slice())?;
    let tables = schema.tables.twin(alloc)?;
    Ok(Schema {
        tables,
        links: Seq::from_vec(links),
    })
}
