// Jobs and values that tests write as texts.
ghost use Rattle.std.specs.Prelude.{◌≡◌, IfOk};
ghost use Rattle.mig_schema.specs.Typed.{IsTypedProgram};
ghost use Rattle.mig_schema.specs.Within.{IsProgramWithin};

use mig_base::Seq;
use mig_schema::{Job, Kind, Value};
use mig_store::read_value;
use mig_syntax::{TextFault, read_job};
use std::alloc::{AllocError, Global};

/// The job that a text spells.
pub(crate) fn job(alloc: Global, text: &str) -> Result<Job, TextFault>
    ensures typed { IfOk result (λ j. IsTypedProgram j.source j.program) }
    ensures within { IfOk result (λ j. IsProgramWithin j.program) }
{
    let bytes = text.as_bytes();
    if bytes.len() < 1 << 31 {
        read_job(alloc, bytes)
    } else {
        Err(TextFault::Memory)
    }
}

/// The key that a field spells, or else the int, or else the text.
pub(crate) fn value(alloc: Global, field: &str) -> Result<Value, AllocError> {
    for kind in [Kind::Key, Kind::Int, Kind::Text] {
        if let Some(value) = read_value(alloc, kind, field.as_bytes())? {
            return Ok(value);
        }
    }
    Err(AllocError)
}

/// The values that fields between single spaces spell.
pub(crate) fn values(alloc: Global, text: &str) -> Result<Seq<Value>, AllocError> {
    let mut values = Seq::new(alloc);
    for field in text.split(' ') {
        values.push(value(alloc, field)?)?;
    }
    Ok(values)
}
