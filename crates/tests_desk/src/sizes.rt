// A renamed table, in many sizes: the desk answers each job.
use crate::calling::{called, roomy};
use mig_base::{Bytes, Seq};
use std::alloc::{AllocError, Global};
use std::test::Fail;

/// The kinds of a table's columns.
#[derive(Copy, Clone)]
enum Kinds {
    Ints,
    Texts,
    ByTurns,
}

impl Kinds {
    fn name(self, column: u8) -> &'static str {
        match self {
            Kinds::Ints => "int",
            Kinds::Texts => "text",
            Kinds::ByTurns => if column % 2 == 0 { "int" } else { "text" },
        }
    }
}

/// A job that renames a table: how many columns, of which kinds, and how many functions; the new columns stand in the opposite order.
#[derive(Copy, Clone)]
struct Size {
    columns: u8,
    kinds: Kinds,
    functions: u8,
}

/// Appends a name: two words or less, and a number below 100.
fn push_name(text: &mut Bytes, front: &str, number: u8) -> Result<(), AllocError> {
    text.extend_from_slice(front.as_bytes())?;
    text.push(b'0' + number / 10)?;
    text.push(b'0' + number % 10)
}

/// Appends a comma and a space, but not before the first of a list.
fn push_comma(text: &mut Bytes, place: usize) -> Result<(), AllocError> {
    if place == 0 {
        Ok(())
    } else {
        text.extend_from_slice(b", ")
    }
}

impl Size {
    /// The first columns or parameters, each with its kind; backwards from the last of them.
    fn push_typed(
        self,
        text: &mut Bytes,
        front: &str,
        count: u8,
        backwards: bool,
    ) -> Result<(), AllocError> {
        for place in 0..count {
            let number = if backwards { count - 1 - place } else { place };
            push_comma(text, usize::from(place))?;
            push_name(text, front, number)?;
            text.extend_from_slice(b": ")?;
            text.extend_from_slice(self.kinds.name(number).as_bytes())?;
        }
        Ok(())
    }

    /// An update that writes a parameter into each column; the ninth column takes the first parameter again.
    fn push_update(self, text: &mut Bytes, number: u8) -> Result<(), AllocError> {
        push_name(text, "update f", number)?;
        text.push(b'(')?;
        self.push_typed(text, "p", self.columns.min(8), false)?;
        text.extend_from_slice(b") {\n  insert into a { ")?;
        for column in 0..self.columns {
            push_comma(text, usize::from(column))?;
            push_name(text, "a.c", column)?;
            push_name(text, " = p", column % 8)?;
        }
        text.extend_from_slice(b" };\n}\n")
    }

    /// A query without parameters that selects each column.
    fn push_query(self, text: &mut Bytes, number: u8) -> Result<(), AllocError> {
        push_name(text, "query f", number)?;
        text.extend_from_slice(b"() {\n  select ")?;
        for column in 0..self.columns {
            push_comma(text, usize::from(column))?;
            push_name(text, "a.c", column)?;
        }
        text.extend_from_slice(b" from a;\n}\n")
    }

    /// Updates and queries by turns.
    fn push_functions(self, text: &mut Bytes) -> Result<(), AllocError> {
        for number in 0..self.functions {
            if number % 2 == 0 {
                self.push_update(text, number)?;
            } else {
                self.push_query(text, number)?;
            }
        }
        Ok(())
    }

    /// A hint for each column.
    fn push_hints(self, text: &mut Bytes) -> Result<(), AllocError> {
        for column in 0..self.columns {
            push_name(text, "hint a.c", column)?;
            push_name(text, " -> b.d", column)?;
            text.extend_from_slice(b" 100;\n")?;
        }
        Ok(())
    }

    fn text(self, alloc: Global) -> Result<Bytes, AllocError> {
        let mut text = Seq::from_slice(alloc, b"old\ntable a { ")?;
        self.push_typed(&mut text, "c", self.columns, false)?;
        text.extend_from_slice(b" }\nnew\ntable b { ")?;
        self.push_typed(&mut text, "d", self.columns, true)?;
        text.extend_from_slice(b" }\nprogram\n")?;
        self.push_functions(&mut text)?;
        text.extend_from_slice(b"hints\n")?;
        self.push_hints(&mut text)?;
        Ok(text)
    }
}

/// The status of the desk on a job.
fn status_of(alloc: Global, text: Bytes) -> Result<u8, AllocError> {
    let out = roomy(alloc)?;
    let err = roomy(alloc)?;
    Ok(called(alloc, "|migrate|job", text, out, err)?.status)
}

/// Sizes of such jobs.
const SIZES: [(u8, Kinds, u8); 8] = [
    (1, Kinds::Ints, 1),
    (1, Kinds::Texts, 1),
    (1, Kinds::Texts, 32),
    (2, Kinds::ByTurns, 0),
    (3, Kinds::ByTurns, 2),
    (12, Kinds::Ints, 1),
    (12, Kinds::Texts, 2),
    (12, Kinds::ByTurns, 32),
];

/// Whether a job of this size is answered.
fn is_right(alloc: Global, size: Size) -> Result<bool, AllocError> {
    let text = size.text(alloc)?;
    Ok(status_of(alloc, text)? == 0)
}

#[test]
fn renamed_tables_of_all_sizes_are_answered(rt: HostRuntime) -> Result<(), Fail> {
    for (columns, kinds, functions) in SIZES {
        let size = Size {
            columns,
            kinds,
            functions,
        };
        let right = is_right(rt.alloc(), size)?;
        assert!(rt; right, "{columns} columns, {functions} functions");
    }
    Ok(())
}
