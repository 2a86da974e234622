// Lists of link trees that were worked out by hand.
use mig_base::{Exact, Seq};
use mig_schema::{ColId, ColSets, Join, Joined, Link, Schema, Table};
use mig_trees::trees;
use std::alloc::{AllocError, Global};
use std::test::Fail;

/// A schema by its tables and links, a need, and the joins that are wanted.
///
/// Two digits are a column, by its table and its own number. A table is a dot; a link has two columns. A need has a word
/// for each set of columns, or a dot for the empty set. Each join ends with a semicolon, and has the number of its first
/// table and then two columns for each further one.
struct Case {
    name: &'static str,
    tables: &'static str,
    links: &'static str,
    need: &'static str,
    joins: &'static str,
}

const CASES: [Case; 9] = [
    Case {
        name: "two equal links, and one within a table",
        tables: "..",
        links: "0010 0001 0010",
        need: "",
        joins: "0; 1; 0 0010; 0 0010;",
    },
    Case {
        name: "pupils, classes and rooms, as docs/SEARCH.md has them",
        tables: "...",
        links: "0110 1120 2100",
        need: "",
        joins: "0; 1; 2; 0 0110; 0 0021; 1 1120; 0 0110 1120; 0 0110 0021; 0 0021 2011;",
    },
    Case {
        name: "the same, where a pupil and a room's number are needed",
        tables: "...",
        links: "0110 1120 2100",
        need: "00 1120",
        joins: "0 0110; 0 0021; 0 0110 1120; 0 0110 0021; 0 0021 2011;",
    },
    Case {
        name: "a chain, whose ends are needed",
        tables: "....",
        links: "3021 2011 1000",
        need: "00 30",
        joins: "0 0010 1120 2130;",
    },
    Case {
        name: "a star, whose points are needed",
        tables: "....",
        links: "3000 3110 3220",
        need: "00 10 20",
        joins: "0 0030 3110 3220;",
    },
    Case {
        name: "a ring, of which all is needed",
        tables: "....",
        links: "0010 1120 2130 3101",
        need: "00 10 20 30",
        joins: "0 0010 1120 2130; 0 0010 1120 0131; 0 0010 0131 3021; 0 0131 3021 2011;",
    },
    Case {
        name: "a column of the first table or one of the last",
        tables: "...",
        links: "0010 1120",
        need: "0020",
        joins: "0; 2; 0 0010; 1 1120; 0 0010 1120;",
    },
    Case {
        name: "a chain of five, whose ends are needed",
        tables: ".....",
        links: "0010 1120 2130 3140",
        need: "00 40",
        joins: "",
    },
    Case {
        name: "a set of no columns",
        tables: ".",
        links: "",
        need: ".",
        joins: "",
    },
];

/// A column by its two digits.
fn column(table: u8, column: u8) -> ColId {
    ColId {
        table: u32::from(table.saturating_sub(b'0')),
        column: u32::from(column.saturating_sub(b'0')),
    }
}

/// The pairs of columns of a text's words that have four digits.
fn links_of(alloc: Global, text: &str) -> Result<Seq<Link>, AllocError> {
    let mut links = Seq::new(alloc);
    for word in text.split(' ') {
        if let [a, b, c, d] = word.as_bytes() {
            links.push(Link {
                left: column(*a, *b),
                right: column(*c, *d),
            })?;
        }
    }
    Ok(links)
}

fn schema_of(alloc: Global, case: &Case) -> Result<Schema, AllocError> {
    let mut tables = Seq::new(alloc);
    for _ in case.tables.bytes() {
        tables.push(Table {
            name: Seq::new(alloc),
            columns: Seq::new(alloc),
        })?;
    }
    let links = links_of(alloc, case.links)?;
    Ok(Schema { tables, links })
}

/// The columns of a word, two digits each.
fn set_of(alloc: Global, word: &str) -> Result<Seq<ColId>, AllocError> {
    let mut set = Seq::new(alloc);
    for digits in word.as_bytes().chunks(2) {
        if let [a, b] = digits {
            set.push(column(*a, *b))?;
        }
    }
    Ok(set)
}

fn need_of(alloc: Global, text: &str) -> Result<ColSets, AllocError> {
    let mut sets = Seq::new(alloc);
    for word in text.split(' ') {
        if !word.is_empty() {
            sets.push(set_of(alloc, word)?)?;
        }
    }
    Ok(ColSets { sets })
}

/// The join of a text: its first table by a digit, and then the further ones.
fn join_of(alloc: Global, text: &str) -> Result<Join, AllocError> {
    let mut more = Seq::new(alloc);
    for link in links_of(alloc, text)?.as_slice() {
        more.push(Joined {
            table: link.right.table,
            left: link.left,
            right: link.right,
        })?;
    }
    let first = text.trim_start().bytes().next().unwrap_or(b'9');
    Ok(Join {
        first: column(first, first).table,
        more,
    })
}

fn joins_of(alloc: Global, text: &str) -> Result<Seq<Join>, AllocError> {
    let mut joins = Seq::new(alloc);
    for join in text.split(';') {
        if !join.is_empty() {
            joins.push(join_of(alloc, join)?)?;
        }
    }
    Ok(joins)
}

/// Whether the list of a case's trees is the one that is wanted.
fn is_as_by_hand(alloc: Global, case: &Case) -> Result<bool, AllocError> {
    let schema = schema_of(alloc, case)?;
    let need = need_of(alloc, case.need)?;
    let list = trees(alloc, &schema, &need)?;
    let want = joins_of(alloc, case.joins)?;
    Ok(list.joins.same(&want))
}

#[test]
fn trees_are_as_by_hand(rt: HostRuntime) -> Result<(), Fail> {
    for case in &CASES {
        assert!(rt; is_as_by_hand(rt.alloc(), case)?, "{}", case.name);
    }
    Ok(())
}
