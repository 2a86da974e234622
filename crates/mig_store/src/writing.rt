// Values and answers as text.
ghost use Rattle.std.specs.Prelude.{◌≡◌, ◌++◌, ℕ, ◌<◌, List, IfOk, OnOk, codes, decimal, length, map};
ghost use Rattle.std.specs.List.{flat_map};
ghost use Rattle.csv.specs.Records.{fields_of};
ghost use Rattle.mig_meaning.specs.declared.states.Row.{Row as ARow};
ghost use Rattle.mig_meaning.specs.Lists.{Each};
ghost use Rattle.mig_meaning.specs.Told.{rows_told};
ghost use Rattle.mig_algebra.specs.Sorted.{sorted};
ghost use Rattle.mig_store.specs.declared.answers.Answered.{Answered as AnAnswer};
ghost use Rattle.mig_store.specs.Told.{answered_told};
ghost use Rattle.mig_store.specs.Fields as fields;
ghost use Rattle.mig_store.specs.Order as order;
ghost use Rattle.mig_store.specs.Writing as spec;
ghost use Rattle.mig_store.specs.Written.{HasWritten};

use crate::answers::{Answered, Answers};
use crate::order::row_order;
use csv::{ByteRecord, Writer, WriterBuilder};
use itoa::Buffer;
use mig_base::{Seq, Txt};
use mig_meaning::Row;
use mig_schema::{Program, Value};
use std::alloc::{AllocError, Global};
use std::io::Write;

/// The text of a key: `#` and its number.
fn key_text(alloc: Global, key: u64) -> Result<Txt, AllocError>
    ensures { IfOk result (λ t. t ≡ codes "#" ++ decimal key) }
{
    let mut text = Seq::from_slice(alloc, b"#")?;
    text.extend_from_slice(Buffer::new().format(key).as_bytes())?;
    Ok(text)
}

/// The text of a value, as the content of its field: an int as a decimal number without leading zeros, behind a minus
/// sign where it is below 0; a text as it is; a key as `#` and its decimal number. The error is want of memory.
pub fn value_text(alloc: Global, value: &Value) -> Result<Txt, AllocError>
    ensures { IfOk result (λ t. t ≡ fields.value_text value.now) }
{
    match value {
        Value::Int(int) => Seq::from_slice(alloc, Buffer::new().format(*int).as_bytes()),
        Value::Text(text) => Seq::from_slice(alloc, text.as_slice()),
        Value::Key(key) => key_text(alloc, *key),
    }
}

/// The record of a row: the texts of its values.
fn row_record(alloc: Global, row: &[Value]) -> Result<ByteRecord, AllocError>
    ensures { IfOk result (λ r. fields_of r ≡ spec.row_record row.now) }
{
    let mut record = ByteRecord::new(alloc);
    for value in row {
        let text = value_text(alloc, value)?;
        record.push_field(text.as_slice())?;
    }
    Ok(record)
}

/// The record before the rows of an answer: the call's number, the function's name and the number of rows.
fn heading(alloc: Global, program: &Program, answered: &Answered) -> Result<ByteRecord, AllocError>
    requires { answered.now.function < length program.now.functions }
    ensures { IfOk result (λ r. fields_of r ≡ spec.heading program.now (answered_told answered.now)) }
{
    let function = &program.functions.as_slice()[answered.function as usize];
    let mut record = ByteRecord::new(alloc);
    record.push_field(Buffer::new().format(answered.call).as_bytes())?;
    record.push_field(function.name.as_slice())?;
    record.push_field(Buffer::new().format(answered.answer.rows.len()).as_bytes())?;
    Ok(record)
}

/// The rows in order. They are not copied.
fn in_order(alloc: Global, rows: &[Row]) -> Result<Vec<&Row>, AllocError>
    ensures { IfOk result (λ v. map (λ r. r.now.values) v.items ≡ sorted order.row_order (rows_told rows.now)) }
{
    let mut list = Vec::with_capacity(alloc, rows.len())?;
    for row in rows {
        list.push(row)?;
    }
    list.sort_unstable_by(|a, b| row_order(a.values.as_slice(), b.values.as_slice()));
    Ok(list)
}

/// A text in memory is written but for want of memory.
fn no_memory(_error: csv::Error) -> AllocError {
    AllocError
}

/// Writes a record. On want of memory nothing is said of what was written.
fn put_record<W: Write + Drop>(
    writer: &mut Writer<W>,
    record: &ByteRecord,
) -> Result<(), AllocError>
    ensures { (text : List ℕ) → HasWritten W.contents writer.old text → OnOk result (HasWritten W.contents writer.new (text ++ spec.record_text (fields_of record.now))) }
{
    match writer.write_byte_record(record) {
        Ok(()) => Ok(()),
        Err(error) => Err(no_memory(error)),
    }
}

/// Writes rows, a record for each.
fn put_rows<W: Write + Drop>(
    alloc: Global,
    writer: &mut Writer<W>,
    rows: &[&Row],
) -> Result<(), AllocError>
    ensures { (text : List ℕ) → HasWritten W.contents writer.old text
        → OnOk result (HasWritten W.contents writer.new (text ++ flat_map spec.record_text (map (λ r. spec.row_record r.now.values) rows.now))) }
{
    for row in rows {
        let record = row_record(alloc, row.values.as_slice())?;
        put_record(writer, &record)?;
    }
    Ok(())
}

/// Writes an answer: its heading, and its rows in order.
fn put_answer<W: Write + Drop>(
    alloc: Global,
    writer: &mut Writer<W>,
    program: &Program,
    answered: &Answered,
) -> Result<(), AllocError>
    requires { answered.now.function < length program.now.functions }
    ensures { (text : List ℕ) → HasWritten W.contents writer.old text
        → OnOk result (HasWritten W.contents writer.new (text ++ spec.answer_text program.now (answered_told answered.now))) }
{
    let heading = heading(alloc, program, answered)?;
    let rows = in_order(alloc, answered.answer.rows.as_slice())?;
    put_record(writer, &heading)?;
    put_rows(alloc, writer, rows.as_slice())
}

/// Writes answers, one after the other.
fn put_answers<W: Write + Drop>(
    alloc: Global,
    writer: &mut Writer<W>,
    program: &Program,
    answers: &[Answered],
) -> Result<(), AllocError>
    requires { Each (λ (a : AnAnswer). a.function < length program.now.functions) answers.now }
    ensures { (text : List ℕ) → HasWritten W.contents writer.old text
        → OnOk result (HasWritten W.contents writer.new (text ++ flat_map (λ a. spec.answer_text program.now (answered_told a)) answers.now)) }
{
    for answered in answers {
        put_answer(alloc, writer, program, answered)?;
    }
    Ok(())
}

/// The text of answers: for each a record of its call's number, its function's name and its number of rows, and then a
/// record for each row, rows in order.
///
/// Rows stand by their first values that differ: ints by value, texts by bytes, keys by number. Each value is written as
/// `value_text` gives it. The records are those of the crate `csv`: fields between commas, quoted where they must be, and
/// a line feed behind each record. Answers that are equal as bags have equal texts. The function numbers must be
/// the program's. The error is want of memory. The time is linear in the text, and in n log n for n rows of an answer.
pub fn answers_text(alloc: Global, program: &Program, answers: &Answers) -> Result<Txt, AllocError>
    requires { Each (λ (a : AnAnswer). a.function < length program.now.functions) answers.now.list }
    ensures { IfOk result (λ t. t ≡ spec.answers_text program.now (map answered_told answers.now.list)) }
{
    let mut writer = WriterBuilder::new()
        .flexible(true)
        .from_writer(Vec::new(alloc));
    put_answers(alloc, &mut writer, program, answers.list.as_slice())?;
    match writer.into_inner() {
        Ok(text) => Ok(Seq::from_vec(text)),
        Err(error) => Err(no_memory(error.into_error())),
    }
}
