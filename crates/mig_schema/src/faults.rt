// The typing rules, and the first broken one.

/// The side of a job.
#[derive(Clone, Copy, Debug, PartialEq, Eq, PartialOrd, Ord)]
pub enum Side {
    Old,
    New,
}

/// A rule for schemas, in the order in which they are tested.
#[derive(Clone, Copy, Debug, PartialEq, Eq, PartialOrd, Ord)]
pub enum SchemaRule {
    /// A table has an earlier one's name.
    TableTwice,
    /// A table has a column name twice.
    ColumnTwice,
    /// An end of a link names no column of the schema.
    LinkEnd,
    /// Both ends of a link are in one table.
    LinkTables,
    /// The ends of a link have different kinds.
    LinkKinds,
}

/// A rule for programs, in the order in which they are tested.
#[derive(Clone, Copy, Debug, PartialEq, Eq, PartialOrd, Ord)]
pub enum ProgramRule {
    /// A function has an earlier one's name.
    FunctionTwice,
    /// Two parameters of a function have one name.
    ParameterTwice,
    /// A named table is not in the schema.
    UnknownTable,
    /// A named column is not in its table.
    UnknownColumn,
    /// A table stands twice in a join or in the list of a delete.
    JoinedTwice,
    /// An equality of a join does not join an earlier table to the joined one by columns of one kind.
    OnShape,
    /// A scalar names no parameter.
    UnknownParameter,
    /// The table of a used column, or a deleted table, is not in the join.
    NotJoined,
    /// The sides of a comparison, a value or a set have different kinds.
    KindDiffers,
    /// An order compares texts or keys.
    OrderKind,
    /// A class of a join's columns has no value, or more than one.
    InsertCover,
}

/// A rule for hints, in the order in which they are tested.
#[derive(Clone, Copy, Debug, PartialEq, Eq, PartialOrd, Ord)]
pub enum HintRule {
    /// An end names no column.
    HintEnd,
    /// The ends have different kinds.
    HintKinds,
    /// An earlier hint has the same pair.
    HintTwice,
}

/// The first broken typing rule and where it is broken, by numbers from 0; or want of memory.
#[derive(Clone, Copy, Debug, PartialEq, Eq)]
pub enum TypeFault {
    Memory,
    Schema {
        side: Side,
        rule: SchemaRule,
        a: u32,
        b: u32,
    },
    Program {
        rule: ProgramRule,
        function: u32,
        statement: u32,
    },
    Hint {
        rule: HintRule,
        at: u32,
    },
}
