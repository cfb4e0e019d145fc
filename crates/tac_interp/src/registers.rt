//! The registers of a call. They take memory up to the highest register that was set. A record register holds a record of its own only after
//! one of its fields was set, or after a record other than the input's was copied into it.

ghost use Rattle.std.specs.Prelude.{◌≡◌, ◌≤◌, ◌<◌, ◌+◌, ℕ, List, Option, [], length, replicate, get_or, slice_set, vec_len, IfOk, OnOk};
ghost use Rattle.pact_record.specs.declared.records.TheConstants.{MAX_FIELDS};
ghost use Rattle.pact_record.specs.declared.values.Value.{Value as FieldValue};
ghost use Rattle.pact_record.specs.declared.values.Value.TheVariants.{Null};
ghost use Rattle.pact_record.specs.Record.{at_field};
ghost use Rattle.tac_syntax.specs.Limits.{value_registers, record_registers};
ghost use Rattle.tac_interp.specs.declared.registers.Held.TheVariants.{Blank};
ghost use Rattle.tac_interp.specs.Registers.{AreAsWide, IsAsWide, IsLent, IsTaken, filled, lent_of, lent_row, new_records, row_of, with_record};

use pact_record::{OutOfMemory, Record, Value};
use std::alloc::Global;
use std::marker::Model;
use std::mem;

/// The value registers of a call: Null at first.
#[derive(Drop)]
pub(crate) struct ValueRegisters {
    // up to the greatest one that was set
    held: Vec<Value>,
    // the value of every other register
    null: Value,
}

impl Model for ValueRegisters {
    ghost use Rattle.std.specs.Prelude.{◌≡◌, ◌≤◌, List, length};
    ghost use Rattle.pact_record.specs.declared.values.Value.{Value as FieldValue};
    ghost use Rattle.pact_record.specs.declared.values.Value.TheVariants.{Null};
    ghost use Rattle.tac_syntax.specs.Limits.{value_registers};
    ghost use Rattle.tac_interp.specs.Registers.{filled};

    ghost Value = { List FieldValue };

    ghost view = { λ r. filled value_registers Null r.held.items };

    ghost invariant = { λ r. (length r.held.items ≤ value_registers) × (r.null ≡ Null) };
}

// Appends Nulls, so that there is a value at the place.
fn reach_value(held: &mut Vec<Value>, at: u32) -> Result<(), OutOfMemory>
    requires { at < value_registers }
    ensures reached { OnOk result (held.new.items ≡ filled (at + 1) Null held.old.items) }
    ensures there { OnOk result (at < vec_len held.new) }
    ensures few { length held.old.items ≤ value_registers → length held.new.items ≤ value_registers }
{
    for _ in held.len()..at as usize + 1 {
        held.push(Value::Null)?;
    }
    Ok(())
}

impl ValueRegisters {
    /// The registers of a new call, in the memory of an earlier call's.
    pub(crate) fn reset(values: Vec<Value>) -> ValueRegisters
        ensures { result ≡ replicate value_registers Null }
    {
        let mut values = values;
        values.clear();
        ValueRegisters {
            held: values,
            null: Value::Null,
        }
    }

    pub(crate) fn into_held(self) -> Vec<Value> {
        self.held
    }

    pub(crate) fn get(&self, at: u32) -> &Value
        requires { at < value_registers }
        ensures { result.now ≡ get_or self.now at Null }
    {
        if at as usize >= self.held.len() {
            return &self.null;
        }
        &self.held[at as usize]
    }

    // A number is written as such. A value that is moved as a whole is moved in pieces, and reading a number back from
    // these takes longer than the rest of a statement.
    #[inline(always)]
    pub(crate) fn set(&mut self, at: u32, value: Value) -> Result<(), OutOfMemory>
        requires { at < value_registers }
        ensures { OnOk result (self.new ≡ slice_set self.old at value) }
    {
        match value {
            Value::Int(number) => self.set_number(at, number),
            Value::Null => self.set_other(at, Value::Null),
            Value::Text(text) => self.set_other(at, Value::Text(text)),
        }
    }

    /// Sets a register to a number.
    pub(crate) fn set_number(&mut self, at: u32, number: i64) -> Result<(), OutOfMemory>
        requires { at < value_registers }
        ensures { OnOk result (self.new ≡ slice_set self.old at (Value.Int number)) }
    {
        reach_value(&mut self.held, at)?;
        self.held[at as usize] = Value::Int(number);
        Ok(())
    }

    fn set_other(&mut self, at: u32, value: Value) -> Result<(), OutOfMemory>
        requires { at < value_registers }
        ensures { OnOk result (self.new ≡ slice_set self.old at value) }
    {
        reach_value(&mut self.held, at)?;
        self.held[at as usize] = value;
        Ok(())
    }
}

/// What is in a record register.
#[derive(Drop)]
pub(crate) enum Held {
    /// Null in each field.
    Blank,
    /// A record of its own.
    Own(Record),
    /// The record of the call's input. It is copied only before a field of the register is set.
    Lent,
}

/// What a register's own record is made from.
#[derive(Drop)]
pub(crate) struct Source<'a> {
    // the program's number of fields
    fields: u32,
    // a Map's input; other inputs lend no record
    lent: Option<&'a Record>,
}

impl<'a> Source<'a> {
    fn lent_record(&self) -> &'a Record
        requires { IsLent self.now.fields (lent_of self.now.lent) }
        ensures { result.now ≡ lent_row (lent_of self.now.lent) }
    {
        match self.lent {
            Some(row) => row,
            None => unreachable!(),
        }
    }

    // A copy of a register's record.
    fn copy_of(&self, alloc: Global, held: &Held) -> Result<Record, OutOfMemory>
        requires fields { self.now.fields ≤ MAX_FIELDS }
        requires width { IsAsWide self.now.fields (lent_of self.now.lent) held.now }
        ensures record { IfOk result (λ row. row ≡ row_of self.now.fields (lent_of self.now.lent) held.now) }
        ensures width { IfOk result (λ row. length row ≡ self.now.fields) }
    {
        match held {
            Held::Blank => Record::empty(alloc, self.fields),
            Held::Own(row) => row.copy(alloc),
            Held::Lent => self.lent_record().copy(alloc),
        }
    }

    // The record that was in a register, or None if it is the lent one.
    fn row_from(&self, alloc: Global, held: Held) -> Result<Option<Record>, OutOfMemory>
        requires fields { self.now.fields ≤ MAX_FIELDS }
        requires width { IsAsWide self.now.fields (lent_of self.now.lent) held }
        ensures { IfOk result (IsTaken self.now.fields (lent_of self.now.lent) (row_of self.now.fields (lent_of self.now.lent) held)) }
    {
        match held {
            Held::Blank => Ok(Some(Record::empty(alloc, self.fields)?)),
            Held::Own(row) => Ok(Some(row)),
            Held::Lent => Ok(None),
        }
    }
}

/// The record registers of a call: Null in each field at first.
#[derive(Drop)]
pub(crate) struct RecordRegisters<'a> {
    source: Source<'a>,
    // up to the greatest one that was set
    held: Vec<Held>,
    // the value of each field of a blank register
    null: Value,
}

impl<'a> Model for RecordRegisters<'a> {
    ghost use Rattle.tac_interp.specs.Registers.{RecordsData};

    ghost Value = { RecordsData };

    ghost use Rattle.tac_interp.specs.Registers.{records_of, AreKept};

    ghost view = { records_of };

    ghost invariant = { AreKept };
}

// Makes a place, with Null in each field.
fn reach_record(held: &mut Vec<Held>, at: u32) -> Result<(), OutOfMemory>
    requires { at < record_registers }
    ensures reached { OnOk result (held.new.items ≡ filled (at + 1) Blank held.old.items) }
    ensures there { OnOk result (at < vec_len held.new) }
    ensures few { length held.old.items ≤ record_registers → length held.new.items ≤ record_registers }
    ensures widths { (fields : ℕ) → (lent : Option (List FieldValue)) → AreAsWide fields lent held.old.items → AreAsWide fields lent held.new.items }
{
    for _ in held.len()..at as usize + 1 {
        held.push(Held::Blank)?;
    }
    Ok(())
}

// Sets a field of a register's record. A register that has no record of its own gets one.
fn set_in(
    alloc: Global,
    held: &mut Held,
    source: &Source<'_>,
    field: u32,
    value: Value,
) -> Result<(), OutOfMemory>
    requires fields { source.now.fields ≤ MAX_FIELDS }
    requires field { field < source.now.fields }
    requires width { IsAsWide source.now.fields (lent_of source.now.lent) held.old }
    ensures set { OnOk result (row_of source.now.fields (lent_of source.now.lent) held.new ≡ slice_set (row_of source.now.fields (lent_of source.now.lent) held.old) field value) }
    ensures width { IsAsWide source.now.fields (lent_of source.now.lent) held.new }
{
    if let Held::Own(row) = held {
        row.set(field, value);
        return Ok(());
    }
    let mut row = source.copy_of(alloc, held)?;
    row.set(field, value);
    *held = Held::Own(row);
    Ok(())
}

impl<'a> RecordRegisters<'a> {
    /// The registers of a new call, in the memory of an earlier call's.
    pub(crate) fn reset(
        records: Vec<Held>,
        fields: u32,
        lent: Option<&'a Record>,
    ) -> RecordRegisters<'a>
        requires { fields ≤ MAX_FIELDS }
        ensures { result ≡ new_records fields (lent_of lent.entry) }
    {
        let mut records = records;
        records.clear();
        RecordRegisters {
            source: Source { fields, lent },
            held: records,
            null: Value::Null,
        }
    }

    pub(crate) fn into_held(self) -> Vec<Held> {
        self.held
    }

    pub(crate) fn fields(&self) -> u32
        ensures fields { result ≡ self.now.fields }
        ensures few { result ≤ MAX_FIELDS }
    {
        self.source.fields
    }

    /// A field of one of the records.
    pub(crate) fn field(&self, at: u32, field: u32) -> &Value
        requires place { at < record_registers }
        requires field { field < self.now.fields }
        ensures { result.now ≡ at_field (get_or self.now.records at []) field }
    {
        if at as usize >= self.held.len() {
            return &self.null;
        }
        match &self.held[at as usize] {
            Held::Blank => &self.null,
            Held::Own(row) => row.get(field),
            Held::Lent => self.source.lent_record().get(field),
        }
    }

    pub(crate) fn copy(&self, alloc: Global, at: u32) -> Result<Record, OutOfMemory>
        requires { at < record_registers }
        ensures record { IfOk result (λ row. row ≡ get_or self.now.records at []) }
        ensures width { IfOk result (λ row. length row ≡ self.now.fields) }
    {
        if at as usize >= self.held.len() {
            return Record::empty(alloc, self.source.fields);
        }
        self.source.copy_of(alloc, &self.held[at as usize])
    }

    /// The record of a register, which is moved out of it, or None if it is the lent one.
    pub(crate) fn take(&mut self, alloc: Global, at: u32) -> Result<Option<Record>, OutOfMemory>
        requires { at < record_registers }
        ensures record { IfOk result (IsTaken self.old.fields self.old.lent (get_or self.old.records at [])) }
        ensures fields { self.new.fields ≡ self.old.fields }
        ensures lent { self.new.lent ≡ self.old.lent }
    {
        if at as usize >= self.held.len() {
            return Ok(Some(Record::empty(alloc, self.source.fields)?));
        }
        let held = mem::replace(&mut self.held[at as usize], Held::Blank);
        self.source.row_from(alloc, held)
    }

    pub(crate) fn set(&mut self, at: u32, held: Held) -> Result<(), OutOfMemory>
        requires place { at < record_registers }
        requires width { IsAsWide self.old.fields self.old.lent held }
        ensures set { OnOk result (self.new ≡ with_record self.old at (row_of self.old.fields self.old.lent held)) }
        ensures fields { self.new.fields ≡ self.old.fields }
        ensures lent { self.new.lent ≡ self.old.lent }
    {
        reach_record(&mut self.held, at)?;
        self.held[at as usize] = held;
        Ok(())
    }

    pub(crate) fn set_field(
        &mut self,
        alloc: Global,
        at: u32,
        field: u32,
        value: Value,
    ) -> Result<(), OutOfMemory>
        requires place { at < record_registers }
        requires field { field < self.old.fields }
        ensures set { OnOk result (self.new ≡ with_record self.old at (slice_set (get_or self.old.records at []) field value)) }
        ensures fields { self.new.fields ≡ self.old.fields }
        ensures lent { self.new.lent ≡ self.old.lent }
    {
        reach_record(&mut self.held, at)?;
        set_in(
            alloc,
            &mut self.held[at as usize],
            &self.source,
            field,
            value,
        )
    }
}
