// The values that columns and arguments hold.
use mig_base::{Exact, Txt};
use std::alloc::{AllocError, Global};

/// A value of a column or of an argument. A key is a number that is only compared.
#[derive(Debug, Drop)]
pub enum Value {
    Int(i64),
    Text(Txt),
    Key(u64),
}

impl Exact for Value {
    fn same(&self, other: &Value) -> bool {
        match (self, other) {
            (Value::Int(a), Value::Int(b)) => *a == *b,
            (Value::Text(a), Value::Text(b)) => a.same(b),
            (Value::Key(a), Value::Key(b)) => *a == *b,
            _ => false,
        }
    }

    fn twin(&self, alloc: Global) -> Result<Value, AllocError> {
        match self {
            Value::Int(a) => Ok(Value::Int(*a)),
            Value::Text(a) => Ok(Value::Text(a.twin(alloc)?)),
            Value::Key(a) => Ok(Value::Key(*a)),
        }
    }
}
