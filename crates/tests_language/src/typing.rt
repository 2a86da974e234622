// The typing rules: one case for each, and cases in which the order of rules and places decides.
//
// A case may name a column or a parameter that is not there, or a table. Such names are numbered over wider tables and
// longer parameters, whose first ones are those of the case. So the numbers are the first that nothing has.
mod functions;
mod hints;
mod schemas;
mod statements;

/// The tables and links of most cases.
pub(crate) const TABLES: &str =
    "table a { id: int, x: text } table b { id: int, y: int } link a.id = b.id; link a.id = b.id;";

/// The same tables, with a column more each, and one table more.
pub(crate) const WIDE: &str =
    "table a { id: int, x: text, past: int } table b { id: int, y: int, past: int } table c { id: int } ";
