//! Tables of places that are empty or hold something.

ghost use Rattle.std.specs.Prelude.{◌≡◌, ℕ, None, Some, IfOk, IfSome, IfNone};
ghost use Rattle.flow_run.specs.Tables.{HasPlace, HasPlaceIn, IsBlank, AreBlankCells, IsBlankTable, IsChanged, IsChangedIn, IsShaped, IsTakenOut, cell, cell_in};

use pact_record::OutOfMemory;
use std::alloc::Global;
use std::marker::Model;

/// Places that are empty or hold something.
#[derive(Drop)]
pub struct Cells<T> {
    pub(crate) held: Vec<Option<T>>,
}

impl<T> Model for Cells<T> {
    ghost use Rattle.std.specs.Prelude.{List, Option};

    ghost Value = { List (Option T) };

    ghost view = { λ r. r.held.items };
}

/// Rows of places.
#[derive(Drop)]
pub struct Table<T> {
    pub(crate) rows: Vec<Cells<T>>,
}

impl<T> Model for Table<T> {
    ghost use Rattle.std.specs.Prelude.{List, Option};

    ghost Value = { List (List (Option T)) };

    ghost view = { λ t. t.rows.items };
}

/// Tables of places.
#[derive(Drop)]
pub struct Tables<T> {
    pub(crate) all: Vec<Table<T>>,
}

impl<T> Model for Tables<T> {
    ghost use Rattle.std.specs.Prelude.{List, Option};

    ghost Value = { List (List (List (Option T))) };

    ghost view = { λ t. t.all.items };
}

impl<T> Table<T> {
    /// What is at a place. A place that the table doesn't have is empty.
    pub fn at(&self, a: u32, b: u32) -> Option<&T>
        ensures some { IfSome result (λ x. cell self.now a b ≡ Some x.now) }
        ensures none { IfNone result (cell self.now a b ≡ None) }
    {
        let row = self.rows.get(a as usize)?;
        let held = row.held.get(b as usize)?;
        held.as_ref()
    }

    /// Removes and returns what is at a place, which is empty afterwards.
    pub fn take(&mut self, a: u32, b: u32) -> Option<T>
        ensures found { result ≡ cell self.old a b }
        ensures changed { IsChanged self.old a b None self.new }
        ensures places { (c d : ℕ) → HasPlace self.old c d → HasPlace self.new c d }
    {
        let row = self.rows.get_mut(a as usize)?;
        let held = row.held.get_mut(b as usize)?;
        held.take()
    }

    /// Puts something at a place, which the table has. What was there is dropped.
    pub fn set(&mut self, a: u32, b: u32, item: T)
    where
        T: Drop,
        requires { HasPlace self.old a b }
        ensures changed { IsChanged self.old a b (Some item) self.new }
        ensures places { (c d : ℕ) → HasPlace self.old c d → HasPlace self.new c d }
    {
        self.rows[a as usize].held[b as usize] = Some(item);
    }
}

impl<T> Tables<T> {
    /// What is at a place. A place that no table has is empty.
    pub fn at(&self, a: u32, b: u32, c: u32) -> Option<&T>
        ensures some { IfSome result (λ x. cell_in self.now a b c ≡ Some x.now) }
        ensures none { IfNone result (cell_in self.now a b c ≡ None) }
    {
        self.all.get(a as usize)?.at(b, c)
    }

    /// Puts something at a place, which one of the tables has. What was there is dropped.
    pub fn set(&mut self, a: u32, b: u32, c: u32, item: T)
    where
        T: Drop,
        requires { HasPlaceIn self.old a b c }
        ensures changed { IsChangedIn self.old a b c (Some item) self.new }
        ensures places { (m n o : ℕ) → IsShaped m n o self.old → IsShaped m n o self.new }
    {
        self.all[a as usize].set(b, c, item);
    }

    /// Removes and returns what is at a place, which is empty afterwards.
    pub(crate) fn take(&mut self, a: u32, b: u32, c: u32) -> Option<T>
        ensures found { result ≡ cell_in self.old a b c }
        ensures changed { IsTakenOut self.old a b c self.new }
    {
        let table = self.all.get_mut(a as usize)?;
        table.take(b, c)
    }
}

// A row with nothing in it.
fn blank_cells<T: Drop>(alloc: Global, columns: u32) -> Result<Cells<T>, OutOfMemory>
    ensures { IfOk result (AreBlankCells columns) }
{
    let mut held = Vec::with_capacity(alloc, columns as usize)?;
    for _ in 0..columns {
        held.push_reserved(None);
    }
    Ok(Cells { held })
}

/// A table with nothing in it.
pub(crate) fn blank_table<T: Drop>(
    alloc: Global,
    rows: u32,
    columns: u32,
) -> Result<Table<T>, OutOfMemory>
    ensures { IfOk result (IsBlankTable rows columns) }
{
    let mut all = Vec::with_capacity(alloc, rows as usize)?;
    for _ in 0..rows {
        all.push_reserved(blank_cells(alloc, columns)?);
    }
    Ok(Table { rows: all })
}

/// Tables with nothing in them.
pub(crate) fn blank_tables<T: Drop>(
    alloc: Global,
    tables: u32,
    rows: u32,
    columns: u32,
) -> Result<Tables<T>, OutOfMemory>
    ensures shape { IfOk result (IsShaped tables rows columns) }
    ensures blank { IfOk result IsBlank }
{
    let mut all = Vec::with_capacity(alloc, tables as usize)?;
    for _ in 0..tables {
        all.push_reserved(blank_table(alloc, rows, columns)?);
    }
    Ok(Tables { all })
}
