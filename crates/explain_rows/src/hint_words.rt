//! The sentence and the cure for each hint about a program.

use explain_words::Page;
use explain_words::pages::Piece::{Number, Quote, Say};
use pact_record::OutOfMemory;
use program_hints::{Hint, Register};

fn put_field(page: &mut Page, field: u32, words: &'static str) -> Result<(), OutOfMemory> {
    page.line(&[Say("field "), Number(u64::from(field)), Say(words)])
}

fn put_register(
    page: &mut Page,
    register: Register,
    words: &'static str,
) -> Result<(), OutOfMemory> {
    let (letter, number) = match register {
        Register::Value(number) => ("v", number),
        Register::Record(number) => ("r", number),
    };
    page.line(&[Say(letter), Number(u64::from(number)), Say(words)])
}

fn put_some_field(
    page: &mut Page,
    field: Option<u32>,
    words: &'static str,
) -> Result<(), OutOfMemory> {
    match field {
        Some(field) => page.line(&[Say(words), Say(": field "), Number(u64::from(field))]),
        None => page.line(&[Say(words)]),
    }
}

// What is seldom meant.
fn put_sentence(page: &mut Page, hint: &Hint, operator: &[u8]) -> Result<(), OutOfMemory> {
    match hint {
        Hint::NeverSet { field, .. } => put_field(
            page,
            *field,
            " is always Null: no source or operator below sets it",
        ),
        Hint::OtherSide { field, .. } => put_field(
            page,
            *field,
            " is always Null in the records of this input; the other input has it",
        ),
        Hint::SinkNeverSet { field } => {
            put_field(page, *field, " is Null in every row: nothing sets it")
        }
        Hint::SinkDropped { field } => put_field(
            page,
            *field,
            " is Null in every row: a function below the sink leaves it out of the records that it emits",
        ),
        Hint::ColumnUnread { field, .. } => {
            put_field(page, *field, " is read from the file, but never used")
        }
        Hint::ReadBeforeSet { register, .. } => put_register(page, *register, unset(*register)),
        Hint::NeverRead { register, .. } => {
            put_register(page, *register, " is assigned, but never read")
        }
        Hint::TextArithmetic { field, .. } => {
            put_some_field(page, *field, "an operand of this arithmetic is a text")
        }
        Hint::TextWithNumber { field, .. } => put_some_field(
            page,
            *field,
            "a text is compared with a number, and each number comes before each text",
        ),
        Hint::CatOfNumber { field, .. } => put_some_field(
            page,
            *field,
            "this operation takes texts only, and an operand is a number",
        ),
        Hint::OrderDependent { .. } => page.line(&[
            Say("the answer may differ from run to run: operator "),
            Quote(operator),
            Say(" fails the order test. Some functions fail it that don't depend on the order."),
        ]),
        other => page.line(&[Say(plain_sentence(other))]),
    }
}

fn unset(register: Register) -> &'static str {
    match register {
        Register::Value(_) => " is always Null here: no earlier statement gives it another value",
        Register::Record(_) => " is read here, but no earlier statement assigns it",
    }
}

fn plain_sentence(hint: &Hint) -> &'static str {
    match hint {
        Hint::UnusedFunction { .. } => "no operator calls the function",
        Hint::NothingEmitted { .. } => {
            "nothing is emitted after this statement, so it has no effect"
        }
        Hint::LargerLeft { .. } => {
            "the left input is the larger one, and the match keeps the left input in memory"
        }
        Hint::LargeCross { .. } =>
            "the cross pairs each record on the left with each one on the right: very many pairs here",
        Hint::SquareLoop { .. } => {
            "this loop over a group is inside a loop over the same group: the time grows with the square of the group's size"
        }
        _ => "",
    }
}

fn cure_of(hint: &Hint) -> &'static str {
    match hint {
        Hint::NeverSet { .. } => "read a field that a column or a function below sets",
        Hint::OtherSide { .. } => {
            "read it from the other input: left instead of right, or right instead of left"
        }
        Hint::SinkNeverSet { .. } => "give the sink a field that a column or a function sets",
        Hint::SinkDropped { .. } =>
            "copy the record that has the field, or set the field in the record that the function emits",
        Hint::ColumnUnread { .. } => {
            "use the field, or remove the column from the file and the source"
        }
        Hint::ReadBeforeSet { .. } => "give it a value first, or read another register",
        Hint::NeverRead { .. } => "delete the statement, or read the register",
        Hint::UnusedFunction { .. } => "delete the function, or call it in an operator",
        Hint::NothingEmitted { .. } => "delete the statement, or emit a record after it",
        Hint::TextArithmetic { .. } => {
            "read the column as int:N, if its values are whole numbers"
        }
        Hint::TextWithNumber { .. } =>
            "compare with a text, as in vD = text \"1\", or read the column as int:N",
        Hint::CatOfNumber { .. } => "read the column as text:N, or write the constant as a text",
        Hint::OrderDependent { .. } =>
            "write a function that doesn't depend on the order of a group: docs/order.md says which ones pass the test",
        Hint::LargerLeft { .. } => "swap the two inputs, and left and right in the function",
        Hint::LargeCross { .. } => "if some fields have to be equal, use a match",
        Hint::SquareLoop { .. } =>
            "compute what the inner loop finds in a loop of its own, before the outer one",
    }
}

/// Appends what a hint says, and its cure. `operator` is the name of the operator that it is about, or no bytes.
pub fn put_hint_words(page: &mut Page, hint: &Hint, operator: &[u8]) -> Result<(), OutOfMemory> {
    put_sentence(page, hint, operator)?;
    page.line(&[Say("cure: "), Say(cure_of(hint))])
}
