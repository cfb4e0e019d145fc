//! Findings about operators in earlier plans.

ghost use Rattle.std.specs.Prelude.{◌≡◌, ◌+◌, ◌%◌, ◌^◌, slice_get, slice_set};
ghost use Rattle.pact_operators.specs.Programs.{ProgramData, is_operator_kind};
ghost use Rattle.ship_strategy.specs.EarlierFindings.{AreTrueFindings, first_found, is_row_with, row_with};

use crate::tables::{OpFacts, Table};
use pact_operators::OpKind;
use pact_record::Fields;

// Going through a list of plans in order, most operators have a context that they also had in one of the few plans
// before.
const REMEMBERED: usize = 4;

/// The findings about the operators of the last plans asked for. In the plans that exchanges lead to, an operator has
/// far fewer contexts than places, and the analysis of a function may take long.
#[derive(Clone, Copy, Debug)]
pub struct EarlierFindings {
    tables: [Table; REMEMBERED],
    // how many tables were stored; modulo `REMEMBERED` this is the oldest one's place
    turn: usize,
}

fn is_operator(kind: OpKind) -> bool
    ensures { result ≡ is_operator_kind kind }
{
    match kind {
        OpKind::Source => false,
        _ => true,
    }
}

fn is_row_with(x: &OpFacts, left: Fields, right: Fields) -> bool
    ensures { result ≡ is_row_with left right x.now }
{
    is_operator(x.kind) && x.left == left && x.right == right
}

fn row_with(table: &Table, at: u32, left: Fields, right: Fields) -> Option<OpFacts>
    ensures { result ≡ row_with left right (slice_get table.now.nodes at) }
{
    match table.nodes.get(at as usize) {
        Some(x) => {
            if is_row_with(x, left, right) {
                return Some(*x);
            }
            None
        }
        None => None,
    }
}

// The row for that number in the first table in which it is about an operator whose inputs had these attributes.
fn first_found(tables: &[Table], at: u32, left: Fields, right: Fields) -> Option<OpFacts>
    ensures { result ≡ first_found tables.now at left right }
{
    for table in tables {
        if let Some(x) = row_with(table, at, left, right) {
            return Some(x);
        }
    }
    None
}

impl EarlierFindings {
    /// The state before any plan was asked for.
    pub fn nothing() -> EarlierFindings
        ensures { (p : ProgramData) → AreTrueFindings p result.tables }
    {
        EarlierFindings {
            tables: [Table::blank(); REMEMBERED],
            turn: 0,
        }
    }

    // The findings about the operator with this number, if its inputs had these attributes.
    pub(crate) fn row(&self, at: u32, left: Fields, right: Fields) -> Option<OpFacts>
        ensures { result ≡ first_found self.now.tables at left right }
    {
        first_found(&self.tables, at, left, right)
    }

    // Replaces the oldest table by a plan's table.
    pub(crate) fn keep(&mut self, table: &Table)
        ensures tables { self.new.tables ≡ slice_set self.old.tables (self.old.turn % 4) table.now }
        ensures turn { self.new.turn ≡ (self.old.turn + 1) % 2 ^ 64 }
    {
        self.tables[self.turn % REMEMBERED] = *table;
        self.turn = self.turn.wrapping_add(1);
    }
}
