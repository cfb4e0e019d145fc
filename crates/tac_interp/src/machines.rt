//! The registers of a call, and what each statement of one line does to them.

ghost use Rattle.std.specs.Prelude.{◌≡◌, ◌≤◌, ◌<◌, [], length, OnOk, IfOk, IfSome};
ghost use Rattle.pact_record.specs.declared.records.TheConstants.{MAX_FIELDS};
ghost use Rattle.pact_record.specs.declared.values.Value.TheVariants.{Int};
ghost use Rattle.pact_record.specs.Operations.{applied2};
ghost use Rattle.pact_record.specs.Record.{at_field};
ghost use Rattle.pact_record.specs.Value as values;
ghost use Rattle.tac_syntax.specs.Limits.{value_registers};
ghost use Rattle.tac_syntax.specs.Code as code;
ghost use Rattle.tac_syntax.specs.Call.{Store, numbered, value_in, named_record, rows_of, after, start_store};
ghost use Rattle.tac_syntax.specs.Call as call;
ghost use Rattle.pact_record.specs.Widths.{AreWide};
ghost use Rattle.tac_syntax.specs.CallInputs.{HasWidth};
ghost use Rattle.tac_syntax.specs.Ready.{HasRecord, CanAct};
ghost use Rattle.tac_interp.specs.Machine.{AreEmitted, HasKeyFields, IsGiven, input_of};

use crate::inputs::Input;
use crate::number_operations::on_numbers;
use crate::registers::{Held, RecordRegisters, ValueRegisters};
use crate::scratches::Parts;
use pact_bag::Rows;
use pact_record::{Op1, Op2, OutOfMemory, Record, Text, Value, apply1, apply2};
use std::alloc::Global;
use std::marker::Model;
use tac_syntax::{LoopList, Rec};

/// The registers of a call, the record bound to each loop's name, and what was emitted so far.
#[derive(Drop)]
pub(crate) struct Machine<'a> {
    input: Input<'a>,
    values: ValueRegisters,
    records: RecordRegisters<'a>,
    // the records of the loops around a statement, the outermost first
    loops: Vec<&'a Record>,
    emitted: Rows,
}

impl<'a> Model for Machine<'a> {
    ghost use Rattle.tac_syntax.specs.Call.{Store};

    ghost Value = { Store };

    ghost use Rattle.std.specs.Prelude.{◌≡◌};
    ghost use Rattle.tac_interp.specs.Machine.{HasKeyFields, IsWide, record_of, store_of};

    ghost view = { store_of };

    ghost invariant = { λ m. IsWide (store_of m) × HasKeyFields m.input × (m.records.lent ≡ record_of m.input) };
}

// The result of the operation, or None if one of the values or the result may not be a number.
#[inline(always)]
fn number_of_both(op: Op2, first: &Value, second: &Value) -> Option<i64>
    ensures { IfSome result (λ n. applied2 op first.now second.now ≡ Int n) }
{
    match (first, second) {
        (Value::Int(x), Value::Int(y)) => on_numbers(op, *x, *y),
        _ => None,
    }
}

impl<'a> Machine<'a> {
    pub(crate) fn start(alloc: Global, fields: u32, input: Input<'a>, parts: Parts) -> Machine<'a>
        requires fields { fields ≤ MAX_FIELDS }
        requires width { HasWidth fields (input_of input) }
        requires keys { HasKeyFields input }
        requires empty { parts.emitted ≡ [] }
        ensures { result ≡ start_store fields (input_of input.entry) }
    {
        let lent = input.lent();
        Machine {
            input,
            values: ValueRegisters::reset(parts.values),
            records: RecordRegisters::reset(parts.records, fields, lent),
            loops: Vec::new(alloc),
            emitted: parts.emitted,
        }
    }

    // The record of the input or of a loop that a statement reads.
    fn given(&self, from: Rec) -> &Record
        requires given { IsGiven from }
        requires there { HasRecord self.now from }
        ensures record { result.now ≡ named_record self.now from }
        ensures width { length result.now ≡ self.now.fields }
    {
        match from {
            Rec::Loop(name) => self.loops[name as usize - 1],
            Rec::Input => self.input.record(),
            Rec::Left => self.input.left(),
            Rec::Right => self.input.right(),
            Rec::First => self.input.first(),
            Rec::Reg(_) | Rec::Join => unreachable!(),
        }
    }

    // A field of the record that a statement reads.
    fn field_of(&self, from: Rec, field: u32) -> &Value
        requires there { HasRecord self.now from }
        requires field { field < self.now.fields }
        ensures { result.now ≡ at_field (named_record self.now from) field }
    {
        match from {
            Rec::Reg(k) => self.records.field(k, field),
            Rec::Join => {
                let left = self.input.left().get(field);
                left.or(self.input.right().get(field))
            }
            Rec::Loop(_) | Rec::Input | Rec::Left | Rec::Right | Rec::First => {
                self.given(from).get(field)
            }
        }
    }

    // A copy of the record that a statement reads.
    fn copy_of(&self, alloc: Global, from: Rec) -> Result<Record, OutOfMemory>
        requires { HasRecord self.now from }
        ensures record { IfOk result (λ row. row ≡ named_record self.now from) }
        ensures width { IfOk result (λ row. length row ≡ self.now.fields) }
    {
        match from {
            Rec::Reg(k) => self.records.copy(alloc, k),
            Rec::Join => Record::join(alloc, self.input.left(), self.input.right()),
            Rec::Loop(_) | Rec::Input | Rec::Left | Rec::Right | Rec::First => {
                self.given(from).copy(alloc)
            }
        }
    }

    /// The records that a loop goes through.
    pub(crate) fn rows(&self, list: LoopList) -> &'a [Record]
        ensures rows { result.now ≡ rows_of self.now.input list }
        ensures widths { AreWide self.now.fields result.now }
    {
        self.input.rows(list)
    }

    /// Binds a loop's name to a record.
    pub(crate) fn bind(&mut self, name: u32, row: &'a Record) -> Result<(), OutOfMemory>
        requires name { 1 ≤ name }
        requires width { length row.now ≡ self.old.fields }
        ensures { OnOk result (self.new ≡ call.bind self.old name row.now) }
    {
        self.loops.truncate(name as usize - 1);
        self.loops.push(row)?;
        Ok(())
    }

    pub(crate) fn is_true(&self, on: u32) -> bool
        requires { on < value_registers }
        ensures { result ≡ values.is_true (value_in self.now on) }
    {
        self.values.get(on).is_true()
    }

    pub(crate) fn load_int(&mut self, to: u32, value: i64) -> Result<(), OutOfMemory>
        requires { CanAct (code.load_int to value) self.old }
        ensures { OnOk result (self.new ≡ after (code.load_int to value) self.old) }
    {
        self.values.set(to, Value::Int(value))
    }

    pub(crate) fn load_text(
        &mut self,
        alloc: Global,
        to: u32,
        text: &Text,
    ) -> Result<(), OutOfMemory>
        requires { CanAct (code.load_text to text.now) self.old }
        ensures { OnOk result (self.new ≡ after (code.load_text to text.now) self.old) }
    {
        let text = text.copy(alloc)?;
        self.values.set(to, Value::Text(text))
    }

    pub(crate) fn load_null(&mut self, to: u32) -> Result<(), OutOfMemory>
        requires { CanAct (code.load_null to) self.old }
        ensures { OnOk result (self.new ≡ after (code.load_null to) self.old) }
    {
        self.values.set(to, Value::Null)
    }

    pub(crate) fn move_value(
        &mut self,
        alloc: Global,
        to: u32,
        from: u32,
    ) -> Result<(), OutOfMemory>
        requires { CanAct (code.move_value to from) self.old }
        ensures { OnOk result (self.new ≡ after (code.move_value to from) self.old) }
    {
        let value = self.values.get(from).copy(alloc)?;
        self.values.set(to, value)
    }

    pub(crate) fn get_field(
        &mut self,
        alloc: Global,
        to: u32,
        from: Rec,
        field: u32,
    ) -> Result<(), OutOfMemory>
        requires { CanAct (code.get_field to from field) self.old }
        ensures { OnOk result (self.new ≡ after (code.get_field to from field) self.old) }
    {
        let value = self.field_of(from, field).copy(alloc)?;
        self.values.set(to, value)
    }

    // The field whose number is in a register.
    fn number_in(&self, at: u32) -> Option<u32>
        requires { at < value_registers }
        ensures { result ≡ numbered self.now.fields (value_in self.now at) }
    {
        let Value::Int(number) = self.values.get(at) else {
            return None;
        };
        let number = *number;
        if number < 0 || number >= i64::from(self.records.fields()) {
            return None;
        }
        Some(number as u32)
    }

    pub(crate) fn get_at(
        &mut self,
        alloc: Global,
        to: u32,
        from: Rec,
        at: u32,
    ) -> Result<(), OutOfMemory>
        requires { CanAct (code.get_at to from at) self.old }
        ensures { OnOk result (self.new ≡ after (code.get_at to from at) self.old) }
    {
        match self.number_in(at) {
            Some(field) => {
                let value = self.field_of(from, field).copy(alloc)?;
                self.values.set(to, value)
            }
            None => self.values.set(to, Value::Null),
        }
    }

    pub(crate) fn get_key(&mut self, alloc: Global, to: u32, at: u32) -> Result<(), OutOfMemory>
        requires { CanAct (code.get_key to at) self.old }
        ensures { OnOk result (self.new ≡ after (code.get_key to at) self.old) }
    {
        let value = self.input.key_value(at).copy(alloc)?;
        self.values.set(to, value)
    }

    pub(crate) fn apply_one(&mut self, to: u32, op: Op1, a: u32) -> Result<(), OutOfMemory>
        requires { CanAct (code.apply_one to op a) self.old }
        ensures { OnOk result (self.new ≡ after (code.apply_one to op a) self.old) }
    {
        let value = apply1(op, self.values.get(a));
        self.values.set(to, value)
    }

    pub(crate) fn apply_two(
        &mut self,
        alloc: Global,
        to: u32,
        op: Op2,
        a: u32,
        b: u32,
    ) -> Result<(), OutOfMemory>
        requires { CanAct (code.apply_two to op a b) self.old }
        ensures { OnOk result (self.new ≡ after (code.apply_two to op a b) self.old) }
    {
        let (first, second) = (self.values.get(a), self.values.get(b));
        if let Some(number) = number_of_both(op, first, second) {
            return self.values.set_number(to, number);
        }
        let value = apply2(alloc, op, first, second)?;
        self.values.set(to, value)
    }

    pub(crate) fn new_record(&mut self, to: u32) -> Result<(), OutOfMemory>
        requires { CanAct (code.new_record to) self.old }
        ensures { OnOk result (self.new ≡ after (code.new_record to) self.old) }
    {
        self.records.set(to, Held::Blank)
    }

    pub(crate) fn copy_record(
        &mut self,
        alloc: Global,
        to: u32,
        from: Rec,
    ) -> Result<(), OutOfMemory>
        requires { CanAct (code.copy_record to from) self.old }
        ensures { OnOk result (self.new ≡ after (code.copy_record to from) self.old) }
    {
        match from {
            Rec::Input => self.records.set(to, Held::Lent),
            _ => {
                let row = self.copy_of(alloc, from)?;
                self.records.set(to, Held::Own(row))
            }
        }
    }

    pub(crate) fn set_field(
        &mut self,
        alloc: Global,
        to: u32,
        field: u32,
        value: u32,
    ) -> Result<(), OutOfMemory>
        requires { CanAct (code.set_field to field value) self.old }
        ensures { OnOk result (self.new ≡ after (code.set_field to field value) self.old) }
    {
        let value = self.values.get(value).copy(alloc)?;
        self.records.set_field(alloc, to, field, value)
    }

    pub(crate) fn set_at(
        &mut self,
        alloc: Global,
        to: u32,
        at: u32,
        value: u32,
    ) -> Result<(), OutOfMemory>
        requires { CanAct (code.set_at to at value) self.old }
        ensures { OnOk result (self.new ≡ after (code.set_at to at value) self.old) }
    {
        match self.number_in(at) {
            Some(field) => {
                let value = self.values.get(value).copy(alloc)?;
                self.records.set_field(alloc, to, field, value)
            }
            None => Ok(()),
        }
    }

    pub(crate) fn emit_record(&mut self, alloc: Global, from: u32) -> Result<(), OutOfMemory>
        requires { CanAct (code.emit_record from) self.old }
        ensures { OnOk result (self.new ≡ after (code.emit_record from) self.old) }
    {
        let row = self.records.copy(alloc, from)?;
        self.emitted.push(row)?;
        Ok(())
    }

    /// Emits a record that no later statement reads, so it is moved out of its register. If it is the input's record, nothing is
    /// emitted here: the call returns true, and the caller emits it.
    pub(crate) fn emit_last(&mut self, alloc: Global, from: u32) -> Result<bool, OutOfMemory>
        requires { CanAct (code.emit_record from) self.old }
        ensures { IfOk result (λ passes. AreEmitted passes self.old.input self.new.emitted (after (code.emit_record from) self.old).emitted) }
    {
        let Some(row) = self.records.take(alloc, from)? else {
            return Ok(true);
        };
        self.emitted.push(row)?;
        Ok(false)
    }

    /// The records emitted, and memory for the next call.
    pub(crate) fn into_parts(self) -> Parts
        ensures { result.emitted ≡ self.entry.emitted }
    {
        Parts {
            values: self.values.into_held(),
            records: self.records.into_held(),
            emitted: self.emitted,
        }
    }
}
