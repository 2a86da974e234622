//! The grammar of jobs and programs: from texts to trees of names.
#![tactic(auto)]

mod assigns;
mod columns;
mod conditions;
mod functions;
mod hints;
mod jobs;
mod joins;
mod kinds;
mod marks;
mod programs;
mod scalars;
mod schemas;
mod selects;
mod statements;
mod tree;

pub use jobs::read_tree;
pub use programs::read_functions;
pub use tree::{
    AssignTree, BodyTree, CmpTree, ColName, FunctionTree, HintTree, ItemTree, JobTree, JoinTree,
    JoinedTree, LinkTree, RowsTree, ScalarTree, SchemaTree, SelectTree, StmtTree, ValueTree,
};
