//! Rows as lines of text.

ghost use Rattle.std.specs.Prelude.{◌≡◌, ◌≤◌, ◌<◌, ◌++◌, ◌∷◌, [], ℕ, List, Option, length, map, IfOk, OnOk};
ghost use Rattle.std.specs.List.{AllByRecursion};
ghost use Rattle.std.specs.Io.KnownBytes.{Appends};
ghost use Rattle.csv.specs.Writing.{default_writer, fields_written, row_text, text_written};
ghost use Rattle.pact_bag.specs.Rows.{cut};
ghost use Rattle.pact_record.specs.declared.records.TheConstants.{MAX_FIELDS};
ghost use Rattle.csv_sink.specs.CsvText.{csv_text, value_text};
ghost use Rattle.csv_sink.specs.RowsWritten.{HasTexts, IsBetweenRows};

use csv::{Writer, WriterBuilder};
use itoa::Buffer;
use pact_bag::Rows;
use pact_record::{Bytes, OutOfMemory, Record, Value};
use std::alloc::Global;
use std::io::Write;

/// The CSV text of rows, one after the other, in their order. A field is empty if its value is Null or a text without
/// bytes. Out of memory is the only error.
pub fn write_rows(alloc: Global, rows: &Rows) -> Result<Bytes, OutOfMemory>
    ensures { IfOk result (λ text. text ≡ csv_text rows.now) }
{
    let mut writer = WriterBuilder::new().from_writer(Vec::new(alloc));
    for row in rows.rows() {
        write_row(&mut writer, row)?;
    }
    let text = writer.into_inner().map_err(|_| OutOfMemory)?;
    Ok(Bytes::from_vec(text))
}

/// The CSV text of the listed fields of rows, written as `write_rows` writes all fields. No row is copied.
pub fn write_fields(alloc: Global, rows: &[Record], fields: &[u32]) -> Result<Bytes, OutOfMemory>
    requires few { length fields.now ≤ MAX_FIELDS }
    requires within { AllByRecursion (λ row. AllByRecursion (λ field. field < length row) fields.now) rows.now }
    ensures { IfOk result (λ text. text ≡ csv_text (map (cut fields.now) rows.now)) }
{
    let mut writer = WriterBuilder::new().from_writer(Vec::new(alloc));
    for row in rows {
        write_row_fields(&mut writer, row, fields)?;
    }
    let text = writer.into_inner().map_err(|_| OutOfMemory)?;
    Ok(Bytes::from_vec(text))
}

// All rows have one width, so out of memory is the only reason for which a writer to memory fails.
fn write_row<W: Write + Drop>(writer: &mut Writer<W>, row: &Record) -> Result<(), OutOfMemory>
    requires { IsBetweenRows writer.old }
    ensures text { OnOk result (Appends (text_written W.contents writer.old) (text_written W.contents writer.new) (row_text default_writer (map value_text row.now))) }
    ensures between { OnOk result (IsBetweenRows writer.new) }
{
    // `len` makes it known that a record has at most `MAX_FIELDS` values
    let _few = row.len();
    for value in row.values() {
        write_value(writer, value)?;
    }
    let Ok(()) = writer.end_record() else {
        return Err(OutOfMemory);
    };
    Ok(())
}

// Writes only the listed fields.
fn write_row_fields<W: Write + Drop>(
    writer: &mut Writer<W>,
    row: &Record,
    fields: &[u32],
) -> Result<(), OutOfMemory>
    requires between { IsBetweenRows writer.old }
    requires few { length fields.now ≤ MAX_FIELDS }
    requires within { AllByRecursion (λ field. field < length row.now) fields.now }
    ensures text { OnOk result (Appends (text_written W.contents writer.old) (text_written W.contents writer.new) (row_text default_writer (map value_text (cut fields.now row.now)))) }
    ensures between { OnOk result (IsBetweenRows writer.new) }
{
    for field in fields {
        write_value(writer, row.get(*field))?;
    }
    let Ok(()) = writer.end_record() else {
        return Err(OutOfMemory);
    };
    Ok(())
}

// Writes one more field of the current row.
fn write_value<W: Write + Drop>(writer: &mut Writer<W>, value: &Value) -> Result<(), OutOfMemory>
    requires { fields_written writer.old < MAX_FIELDS }
    ensures { OnOk result ((before : Option (List ℕ)) (texts : List (List ℕ)) → HasTexts W.contents before texts writer.old → HasTexts W.contents before (texts ++ value_text value.now ∷ []) writer.new) }
{
    let mut digits = Buffer::new();
    let Ok(()) = writer.write_field(text_of(value, &mut digits)) else {
        return Err(OutOfMemory);
    };
    Ok(())
}

// The text of a value; that of a number is written into the buffer.
fn text_of<'a>(value: &'a Value, digits: &'a mut Buffer) -> &'a [u8]
    ensures { result.now ≡ value_text value.now }
{
    match value {
        Value::Null => b"",
        Value::Text(text) => text.bytes(),
        Value::Int(number) => digits.format(*number).as_bytes(),
    }
}
