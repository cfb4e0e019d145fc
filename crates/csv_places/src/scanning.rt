//! Where fields and rows of CSV text end.

ghost use Rattle.std.specs.Prelude.{◌≤◌, ◌<◌, ◌≡◌, ◌+◌, ℕ, false, get_or, length};
ghost use Rattle.csv.specs.Machine.{is_end};
ghost use Rattle.csv.specs.Reading.{is_bom};
ghost use Rattle.csv_places.specs.Scanning.{BeginsRow, EndsRow, IsAfterRows, action_at, ended_fields, ends_field, is_line_end, machine_state, state_after};

/// Where a reader is inside a row.
#[derive(Clone, Copy, Debug, PartialEq, Eq)]
pub(crate) enum State {
    /// At the first byte of a field.
    Start,
    /// In a field, outside quotes. A quote is a byte like any other here.
    Plain,
    /// Between quotes.
    Quoted,
    /// After a quote that closes the field, or is the first of two.
    Closing,
}

impl State {
    /// The state after a byte that doesn't end the row.
    pub(crate) fn after(self, byte: u8) -> State
        requires { is_end (action_at self byte) ≡ false }
        ensures { machine_state result ≡ state_after self byte }
    {
        match (self, byte) {
            (State::Quoted, b'"') => State::Closing,
            (State::Quoted, _) | (State::Start | State::Closing, b'"') => State::Quoted,
            (_, b',') => State::Start,
            _ => State::Plain,
        }
    }

    fn ends_row(self, byte: u8) -> bool
        ensures { result ≡ is_end (action_at self byte) }
    {
        match (self, byte) {
            (State::Quoted, _) | (_, b'"' | b',') => false,
            (State::Start | State::Plain | State::Closing, b'\n' | b'\r') => true,
            _ => false,
        }
    }

    // How many fields the byte ends, if it doesn't end the row: one or none.
    fn ended_fields(self, byte: u8) -> usize
        ensures { result ≡ ended_fields (action_at self byte) }
    {
        match (self, byte) {
            (State::Quoted, _) | (_, b'"') => 0,
            (State::Start | State::Plain | State::Closing, b',') => 1,
            _ => 0,
        }
    }

    fn ends_field(self, byte: u8) -> bool
        ensures { result ≡ ends_field (action_at self byte) }
    {
        match (self, byte) {
            (State::Quoted, _) | (_, b'"') => false,
            (State::Start | State::Plain | State::Closing, b',' | b'\n' | b'\r') => true,
            _ => false,
        }
    }
}

fn is_line_end(byte: u8) -> bool
    ensures { result ≡ is_line_end byte }
{
    byte == b'\r' || byte == b'\n'
}

fn is_mark(first: u8, second: u8, third: u8) -> bool
    ensures { result ≡ is_bom first second third }
{
    first == 0xEF && second == 0xBB && third == 0xBF
}

/// Where the text begins after a byte-order mark.
pub(crate) fn text_start(text: &[u8]) -> usize
    ensures inside { result ≤ length text.now }
    ensures start { IsAfterRows text.now result 0 }
{
    if text.len() < 3 {
        return 0;
    }
    if is_mark(text[0], text[1], text[2]) {
        return 3;
    }
    0
}

/// The first place at or after `from` that begins a row, or the end of the text. Empty lines don't count as rows.
pub(crate) fn next_row(text: &[u8], from: usize) -> usize
    requires { from ≤ length text.now }
    ensures low { from ≤ result }
    ensures high { result ≤ length text.now }
    ensures skips { (index : ℕ) → IsAfterRows text.now from index → IsAfterRows text.now result index }
    ensures begins { result < length text.now → is_line_end (get_or text.now result 0) ≡ false }
{
    for at in from..text.len() {
        if !is_line_end(text[at]) {
            return at;
        }
    }
    text.len()
}

/// Where a row ends, at its line end or at the end of the text, and how many fields it has.
#[derive(Clone, Copy)]
pub(crate) struct RowEnd {
    pub at: usize,
    pub fields: usize,
}

/// The end of the row that begins at `from`.
pub(crate) fn row_end(text: &[u8], from: usize) -> RowEnd
    requires { from ≤ length text.now }
    ensures low { from ≤ result.at }
    ensures high { result.at ≤ length text.now }
    ensures row { EndsRow text.now from result.at result.fields }
{
    let mut state = State::Start;
    let mut fields = 1;
    for at in from..text.len() {
        let byte = text[at];
        if state.ends_row(byte) {
            return RowEnd { at, fields };
        }
        fields += state.ended_fields(byte);
        state = state.after(byte);
    }
    RowEnd {
        at: text.len(),
        fields,
    }
}

/// The place after the row that begins at `from`, with its line end.
pub(crate) fn row_behind(text: &[u8], from: usize) -> usize
    requires { from ≤ length text.now }
    ensures high { result ≤ length text.now }
    ensures passed { (index : ℕ) → BeginsRow text.now from index → IsAfterRows text.now result (index + 1) }
{
    let end = row_end(text, from);
    if end.at < text.len() {
        end.at + 1
    } else {
        end.at
    }
}

/// Where the field that begins at `from` ends: at its comma, at its line end, or at the end of the text.
pub(crate) fn field_end(text: &[u8], from: usize) -> usize
    requires { from ≤ length text.now }
    ensures low { from ≤ result }
    ensures high { result ≤ length text.now }
{
    let mut state = State::Start;
    for at in from..text.len() {
        if state.ends_field(text[at]) {
            return at;
        }
        state = state.after(text[at]);
    }
    text.len()
}

/// Whether the field that begins at `from` ends with the text, inside its quotes.
pub(crate) fn is_open(text: &[u8], from: usize) -> bool
    requires { from ≤ length text.now }
{
    let mut state = State::Start;
    for at in from..text.len() {
        if state.ends_field(text[at]) {
            return false;
        }
        state = state.after(text[at]);
    }
    state == State::Quoted
}

/// The number of the line, from 1, on which a place is. A carriage return before a line feed ends no line of its own.
pub(crate) fn line_at(text: &[u8], place: usize) -> u64
    requires { place ≤ length text.now }
    ensures { 1 ≤ result }
{
    line_ends(text, 0, place).saturating_add(1)
}

/// How many lines end between two places.
pub(crate) fn line_ends(text: &[u8], from: usize, to: usize) -> u64
    requires order { from ≤ to }
    requires inside { to ≤ length text.now }
{
    let mut count = 0u64;
    let mut last = 0;
    for at in from..to {
        let byte = text[at];
        if byte == b'\r' || (byte == b'\n' && last != b'\r') {
            count = count.saturating_add(1);
        }
        last = byte;
    }
    count
}
