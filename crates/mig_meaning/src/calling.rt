// Calls of a program's functions, and what they answer.
use crate::states::Row;
use mig_base::{Exact, Seq};
use mig_schema::Value;
use std::alloc::{AllocError, Global};

/// What a query answers: a row for each join row that meets its condition. Only how often each row stands in it counts.
#[derive(Debug, Drop)]
pub struct Answer {
    pub rows: Seq<Row>,
}

/// The arguments of a call, one for each parameter of its function, in order.
#[derive(Debug, Drop)]
pub struct Args {
    pub values: Seq<Value>,
}

/// A call of the function of this number, from 0.
#[derive(Debug, Drop)]
pub struct Invocation {
    pub function: u32,
    pub args: Args,
}

/// Calls that are made one after the other.
#[derive(Debug, Drop)]
pub struct Calls {
    pub calls: Seq<Invocation>,
}

/// The keys of one call, by their labels: the fresh key n of its statements is the n-th, from 0.
#[derive(Debug, Drop)]
pub struct Keys {
    pub keys: Seq<u64>,
}

/// What a call gives: an update is done, a query has its answer.
#[derive(Debug, Drop)]
pub enum Reply {
    /// The update was made.
    Done,
    /// The answer of the query.
    Rows(Answer),
}

impl Exact for Answer {
    fn same(&self, other: &Answer) -> bool {
        self.rows.same(&other.rows)
    }

    fn twin(&self, alloc: Global) -> Result<Answer, AllocError> {
        let rows = self.rows.twin(alloc)?;
        Ok(Answer { rows })
    }
}

impl Exact for Args {
    fn same(&self, other: &Args) -> bool {
        self.values.same(&other.values)
    }

    fn twin(&self, alloc: Global) -> Result<Args, AllocError> {
        let values = self.values.twin(alloc)?;
        Ok(Args { values })
    }
}

impl Exact for Invocation {
    fn same(&self, other: &Invocation) -> bool {
        self.function == other.function && self.args.same(&other.args)
    }

    fn twin(&self, alloc: Global) -> Result<Invocation, AllocError> {
        let args = self.args.twin(alloc)?;
        Ok(Invocation {
            function: self.function,
            args,
        })
    }
}

impl Exact for Calls {
    fn same(&self, other: &Calls) -> bool {
        self.calls.same(&other.calls)
    }

    fn twin(&self, alloc: Global) -> Result<Calls, AllocError> {
        let calls = self.calls.twin(alloc)?;
        Ok(Calls { calls })
    }
}

impl Exact for Keys {
    fn same(&self, other: &Keys) -> bool {
        self.keys.same(&other.keys)
    }

    fn twin(&self, alloc: Global) -> Result<Keys, AllocError> {
        let keys = self.keys.twin(alloc)?;
        Ok(Keys { keys })
    }
}

impl Exact for Reply {
    fn same(&self, other: &Reply) -> bool {
        match (self, other) {
            (Reply::Done, Reply::Done) => true,
            (Reply::Rows(a), Reply::Rows(b)) => a.same(b),
            _ => false,
        }
    }

    fn twin(&self, alloc: Global) -> Result<Reply, AllocError> {
        match self {
            Reply::Done => Ok(Reply::Done),
            Reply::Rows(a) => Ok(Reply::Rows(a.twin(alloc)?)),
        }
    }
}
