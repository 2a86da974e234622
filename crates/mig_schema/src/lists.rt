// Sets of columns, and joins in an order.
use crate::programs::Join;
use crate::tables::ColId;
use mig_base::Seq;

/// Sets of columns, of each of which one is needed.
#[derive(Debug, Drop)]
pub struct ColSets {
    pub sets: Seq<Seq<ColId>>,
}

/// Link trees as joins.
#[derive(Debug, Drop)]
pub struct TreeList {
    pub joins: Seq<Join>,
}
