// What a call is given, and the values that its function names.
ghost use Rattle.std.specs.Prelude.{◌≡◌, map, slice_index_or, IfOk};
ghost use Rattle.mig_schema.specs.declared.values.Value.TheVariants as value;
ghost use Rattle.mig_meaning.specs.Conditions as spec;
ghost use Rattle.mig_meaning.specs.Values.{no_value};
ghost use Rattle.mig_meaning.specs.Told.{given_told};

use crate::calling::{Args, Keys};
use mig_base::Exact;
use mig_schema::{Scalar, Value};
use std::alloc::{AllocError, Global};

/// The arguments and the keys of one call.
#[derive(Debug, Drop)]
pub struct Given<'a> {
    pub args: &'a Args,
    pub keys: &'a Keys,
}

/// A copy of the argument of this number; the int 0 where there is none.
#[tactic(auto, using(std::proofs::lemmas::Grind::common_steps, std::proofs::lemmas::Option::gets))]
fn argument(alloc: Global, given: &Given<'_>, p: u32) -> Result<Value, AllocError>
    ensures { IfOk result (λ v. v ≡ slice_index_or given.now.args.now.values p no_value) }
{
    match given.args.values.get(p as usize) {
        Some(value) => value.twin(alloc),
        None => Ok(Value::Int(0)),
    }
}

/// The key of this label; the int 0 where there is none.
fn fresh_key(given: &Given<'_>, n: u32) -> Value
    ensures { result ≡ slice_index_or (map value.Key given.now.keys.now.keys) n no_value }
{
    match given.keys.keys.get(n as usize) {
        Some(key) => Value::Key(*key),
        None => Value::Int(0),
    }
}

/// A copy of the value of a scalar: of the argument or the key that it names, or of what it says itself. It is the int 0 where
/// there is no such argument or key.
pub fn scalar_value(alloc: Global, given: &Given<'_>, scalar: &Scalar) -> Result<Value, AllocError>
    ensures { IfOk result (λ v. v ≡ spec.scalar_value (given_told given.now) scalar.now) }
{
    match scalar {
        Scalar::Param(p) => argument(alloc, given, *p),
        Scalar::Int(i) => Ok(Value::Int(*i)),
        Scalar::Text(t) => Ok(Value::Text(t.twin(alloc)?)),
        Scalar::Fresh(n) => Ok(fresh_key(given, *n)),
    }
}
