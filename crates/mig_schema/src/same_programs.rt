// Equality and copies of statements, queries, functions and programs.
use crate::programs::{Body, Function, Param, Program, Query, Stmt};
use mig_base::Exact;
use std::alloc::{AllocError, Global};

impl Exact for Stmt {
    fn same(&self, other: &Stmt) -> bool {
        match (self, other) {
            (
                Stmt::Insert { join, values },
                Stmt::Insert {
                    join: join2,
                    values: values2,
                },
            ) => { join.same(join2) && values.same(values2) }
            (
                Stmt::Delete { tables, join, cond },
                Stmt::Delete {
                    tables: tables2,
                    join: join2,
                    cond: cond2,
                },
            ) => { tables.same(tables2) && join.same(join2) && cond.same(cond2) }
            (
                Stmt::Set {
                    column,
                    value,
                    join,
                    cond,
                },
                Stmt::Set {
                    column: column2,
                    value: value2,
                    join: join2,
                    cond: cond2,
                },
            ) => {
                *column == *column2 && value.same(value2) && join.same(join2) && cond.same(cond2)
            }
            _ => false,
        }
    }

    fn twin(&self, alloc: Global) -> Result<Stmt, AllocError> {
        match self {
            Stmt::Insert { join, values } => {
                let join = join.twin(alloc)?;
                let values = values.twin(alloc)?;
                Ok(Stmt::Insert { join, values })
            }
            Stmt::Delete { tables, join, cond } => {
                let tables = tables.twin(alloc)?;
                let join = join.twin(alloc)?;
                let cond = cond.twin(alloc)?;
                Ok(Stmt::Delete { tables, join, cond })
            }
            Stmt::Set {
                column,
                value,
                join,
                cond,
            } => {
                let value = value.twin(alloc)?;
                let join = join.twin(alloc)?;
                let cond = cond.twin(alloc)?;
                Ok(Stmt::Set {
                    column: *column,
                    value,
                    join,
                    cond,
                })
            }
        }
    }
}

impl Exact for Query {
    fn same(&self, other: &Query) -> bool {
        self.columns.same(&other.columns)
            && self.join.same(&other.join)
            && self.cond.same(&other.cond)
    }

    fn twin(&self, alloc: Global) -> Result<Query, AllocError> {
        let columns = self.columns.twin(alloc)?;
        let join = self.join.twin(alloc)?;
        let cond = self.cond.twin(alloc)?;
        Ok(Query {
            columns,
            join,
            cond,
        })
    }
}

impl Exact for Body {
    fn same(&self, other: &Body) -> bool {
        match (self, other) {
            (Body::Update(a), Body::Update(b)) => a.same(b),
            (Body::Query(a), Body::Query(b)) => a.same(b),
            _ => false,
        }
    }

    fn twin(&self, alloc: Global) -> Result<Body, AllocError> {
        match self {
            Body::Update(a) => Ok(Body::Update(a.twin(alloc)?)),
            Body::Query(a) => Ok(Body::Query(a.twin(alloc)?)),
        }
    }
}

impl Exact for Param {
    fn same(&self, other: &Param) -> bool {
        self.name.same(&other.name) && self.kind == other.kind
    }

    fn twin(&self, alloc: Global) -> Result<Param, AllocError> {
        let name = self.name.twin(alloc)?;
        Ok(Param {
            name,
            kind: self.kind,
        })
    }
}

impl Exact for Function {
    fn same(&self, other: &Function) -> bool {
        self.name.same(&other.name)
            && self.params.same(&other.params)
            && self.body.same(&other.body)
    }

    fn twin(&self, alloc: Global) -> Result<Function, AllocError> {
        let name = self.name.twin(alloc)?;
        let params = self.params.twin(alloc)?;
        let body = self.body.twin(alloc)?;
        Ok(Function { name, params, body })
    }
}

impl Exact for Program {
    fn same(&self, other: &Program) -> bool {
        self.functions.same(&other.functions)
    }

    fn twin(&self, alloc: Global) -> Result<Program, AllocError> {
        let functions = self.functions.twin(alloc)?;
        Ok(Program { functions })
    }
}
