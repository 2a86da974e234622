// What may hold between a state of the old database and one of the new.
use mig_base::{Exact, Seq};
use mig_schema::{ColId, Join, Side};
use std::alloc::{AllocError, Global};

/// The columns `outs`, in this order, of each row of a join.
#[derive(Debug, Drop)]
pub struct View {
    pub join: Join,
    pub outs: Seq<ColId>,
}

/// A fact of an old and a new state.
#[derive(Debug, Drop)]
pub enum Invariant {
    /// A view of the old state and one of the new have the same rows, each as often in one as in the other.
    Views {
        source: View,
        target: View,
    },
    /// No two rows of the column's table have the same value there.
    Unique {
        side: Side,
        column: ColId,
    },
    /// No row of the left column's table has there what a row of the right column's table has in the right column.
    Apart {
        side: Side,
        left: ColId,
        right: ColId,
    },
    /// What a row of the left column's table has there is what some row of the right column's table has in the right column.
    Within {
        side: Side,
        left: ColId,
        right: ColId,
    },
}

/// Facts that all hold, in order: others name them by their numbers, from 0.
#[derive(Debug, Drop)]
pub struct Invariants {
    pub list: Seq<Invariant>,
}

impl Exact for View {
    fn same(&self, other: &View) -> bool {
        self.join.same(&other.join) && self.outs.same(&other.outs)
    }

    fn twin(&self, alloc: Global) -> Result<View, AllocError> {
        let join = self.join.twin(alloc)?;
        let outs = self.outs.twin(alloc)?;
        Ok(View { join, outs })
    }
}

impl Exact for Invariant {
    fn same(&self, other: &Invariant) -> bool {
        match (self, other) {
            (
                Invariant::Views { source, target },
                Invariant::Views {
                    source: source2,
                    target: target2,
                },
            ) => source.same(source2) && target.same(target2),
            (
                Invariant::Unique { side, column },
                Invariant::Unique {
                    side: side2,
                    column: column2,
                },
            ) => *side == *side2 && *column == *column2,
            (
                Invariant::Apart { side, left, right },
                Invariant::Apart {
                    side: side2,
                    left: left2,
                    right: right2,
                },
            ) => *side == *side2 && *left == *left2 && *right == *right2,
            (
                Invariant::Within { side, left, right },
                Invariant::Within {
                    side: side2,
                    left: left2,
                    right: right2,
                },
            ) => *side == *side2 && *left == *left2 && *right == *right2,
            _ => false,
        }
    }

    fn twin(&self, alloc: Global) -> Result<Invariant, AllocError> {
        match self {
            Invariant::Views { source, target } => {
                let source = source.twin(alloc)?;
                let target = target.twin(alloc)?;
                Ok(Invariant::Views { source, target })
            }
            Invariant::Unique { side, column } => Ok(Invariant::Unique {
                side: *side,
                column: *column,
            }),
            Invariant::Apart { side, left, right } => Ok(Invariant::Apart {
                side: *side,
                left: *left,
                right: *right,
            }),
            Invariant::Within { side, left, right } => Ok(Invariant::Within {
                side: *side,
                left: *left,
                right: *right,
            }),
        }
    }
}

impl Exact for Invariants {
    fn same(&self, other: &Invariants) -> bool {
        self.list.same(&other.list)
    }

    fn twin(&self, alloc: Global) -> Result<Invariants, AllocError> {
        let list = self.list.twin(alloc)?;
        Ok(Invariants { list })
    }
}
