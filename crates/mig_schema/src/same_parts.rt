// Equality and copies of the parts of statements and queries.
use crate::programs::{Assign, Cmp, Cond, Item, Join, Joined, Op, Scalar};
use mig_base::Exact;
use std::alloc::{AllocError, Global};

impl Exact for Joined {
    fn same(&self, other: &Joined) -> bool {
        *self == *other
    }

    fn twin(&self, _alloc: Global) -> Result<Joined, AllocError> {
        Ok(*self)
    }
}

impl Exact for Join {
    fn same(&self, other: &Join) -> bool {
        self.first == other.first && self.more.same(&other.more)
    }

    fn twin(&self, alloc: Global) -> Result<Join, AllocError> {
        let more = self.more.twin(alloc)?;
        Ok(Join {
            first: self.first,
            more,
        })
    }
}

impl Exact for Scalar {
    fn same(&self, other: &Scalar) -> bool {
        match (self, other) {
            (Scalar::Param(a), Scalar::Param(b)) => *a == *b,
            (Scalar::Int(a), Scalar::Int(b)) => *a == *b,
            (Scalar::Text(a), Scalar::Text(b)) => a.same(b),
            (Scalar::Fresh(a), Scalar::Fresh(b)) => *a == *b,
            _ => false,
        }
    }

    fn twin(&self, alloc: Global) -> Result<Scalar, AllocError> {
        match self {
            Scalar::Param(a) => Ok(Scalar::Param(*a)),
            Scalar::Int(a) => Ok(Scalar::Int(*a)),
            Scalar::Text(a) => Ok(Scalar::Text(a.twin(alloc)?)),
            Scalar::Fresh(a) => Ok(Scalar::Fresh(*a)),
        }
    }
}

impl Exact for Item {
    fn same(&self, other: &Item) -> bool {
        match (self, other) {
            (Item::Col(a), Item::Col(b)) => *a == *b,
            (Item::Scalar(a), Item::Scalar(b)) => a.same(b),
            _ => false,
        }
    }

    fn twin(&self, alloc: Global) -> Result<Item, AllocError> {
        match self {
            Item::Col(a) => Ok(Item::Col(*a)),
            Item::Scalar(a) => Ok(Item::Scalar(a.twin(alloc)?)),
        }
    }
}

impl Exact for Op {
    fn same(&self, other: &Op) -> bool {
        *self == *other
    }

    fn twin(&self, _alloc: Global) -> Result<Op, AllocError> {
        Ok(*self)
    }
}

impl Exact for Cmp {
    fn same(&self, other: &Cmp) -> bool {
        self.op == other.op && self.left.same(&other.left) && self.right.same(&other.right)
    }

    fn twin(&self, alloc: Global) -> Result<Cmp, AllocError> {
        let left = self.left.twin(alloc)?;
        let right = self.right.twin(alloc)?;
        Ok(Cmp {
            op: self.op,
            left,
            right,
        })
    }
}

impl Exact for Cond {
    fn same(&self, other: &Cond) -> bool {
        self.cases.same(&other.cases)
    }

    fn twin(&self, alloc: Global) -> Result<Cond, AllocError> {
        let cases = self.cases.twin(alloc)?;
        Ok(Cond { cases })
    }
}

impl Exact for Assign {
    fn same(&self, other: &Assign) -> bool {
        self.column == other.column && self.value.same(&other.value)
    }

    fn twin(&self, alloc: Global) -> Result<Assign, AllocError> {
        let value = self.value.twin(alloc)?;
        Ok(Assign {
            column: self.column,
            value,
        })
    }
}
