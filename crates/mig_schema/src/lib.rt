//! Schemas, programs and jobs as values.
#![tactic(auto)]

mod columns;
mod faults;
mod jobs;
mod joins;
mod limits;
mod lists;
mod programs;
mod same_parts;
mod same_programs;
mod tables;
mod values;

pub use columns::{columns_of, has_column, has_table, kind_of, same_col, same_kind};
pub use faults::{HintRule, ProgramRule, SchemaRule, Side, TypeFault};
pub use jobs::{Hint, Job};
pub use joins::{all_join_on, is_earlier, is_in_join, is_joined, joins_twice, leader, tables_of};
pub use limits::Limit;
pub use lists::{ColSets, TreeList};
pub use programs::{
    Assign, Body, Cmp, Cond, Function, Item, Join, Joined, Op, Param, Program, Query, Scalar, Stmt,
};
pub use tables::{ColId, Column, Kind, Link, Schema, Table};
pub use values::Value;
