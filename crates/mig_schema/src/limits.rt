// The limits of the language.

/// What has a greatest number or size.
#[derive(Clone, Copy, Debug, PartialEq, Eq)]
pub enum Limit {
    /// Tables of a schema: 16.
    Tables,
    /// Columns of a table: 12.
    Columns,
    /// Key columns of a schema: 24.
    Keys,
    /// Links of a schema: 32.
    Links,
    /// Functions of a program: 32.
    Functions,
    /// Parameters of a function: 8.
    Parameters,
    /// Statements of an update: 4.
    Statements,
    /// Tables of a join: 4.
    Joined,
    /// Columns that a query selects: 16.
    Selected,
    /// Invariants of an answer: 4,096.
    Invariants,
    /// Steps of a block: 4,000.
    Steps,
    /// Comparisons of a condition: 16.
    Comparisons,
    /// Cases of a condition: 16.
    Cases,
    /// Bytes of a name: 32.
    Name,
    /// Bytes of a text's value: 1,024.
    Text,
    /// An int outside the range of i64.
    Int,
    /// The label of a fresh key: 0 to 15.
    Label,
    /// The weight of a hint: 1 to 100.
    Hint,
    /// Hints of a job: 256.
    Hints,
    /// Pairs of an old and a new column of one kind: 256.
    Pairs,
    /// Outputs of a view: 256.
    Outs,
    /// Numbers of a path: 16.
    Path,
    /// Arguments of a step: 16.
    Args,
    /// Calls of a list: 100,000.
    Calls,
}
