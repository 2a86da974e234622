// What is gone through: a job, a program over its new schema, and the calls that test lists are made of.
use mig_meaning::Invocation;
use mig_schema::{Job, Program};

/// A job, a program over its new schema, and the calls of updates and of queries that test lists are made of, in order.
#[derive(Drop)]
pub(crate) struct Tests<'a> {
    pub(crate) job: &'a Job,
    pub(crate) program: &'a Program,
    pub(crate) updates: &'a [Invocation],
    pub(crate) queries: &'a [Invocation],
}
