//! What a hint about a program points at.

use program_hints::Hint;

/// The operator that a hint is about, and the statement of its function.
pub fn operator_of(hint: &Hint) -> Option<(u32, Option<u32>)> {
    match hint {
        Hint::NeverSet { op, statement, .. } => Some((*op, *statement)),
        Hint::OtherSide { op, statement, .. } => Some((*op, *statement)),
        Hint::ColumnUnread { op, .. } => Some((*op, None)),
        Hint::TextArithmetic { op, statement, .. } => Some((*op, Some(*statement))),
        Hint::TextWithNumber { op, statement, .. } => Some((*op, Some(*statement))),
        Hint::CatOfNumber { op, statement, .. } => Some((*op, Some(*statement))),
        Hint::OrderDependent { op, statement } => Some((*op, *statement)),
        Hint::LargerLeft { op } => Some((*op, None)),
        Hint::LargeCross { op } => Some((*op, None)),
        _ => None,
    }
}

/// The function that a hint is about, and its statement.
pub fn function_of(hint: &Hint) -> Option<(u32, Option<u32>)> {
    match hint {
        Hint::ReadBeforeSet {
            function,
            statement,
            ..
        } => Some((*function, Some(*statement))),
        Hint::NeverRead {
            function,
            statement,
            ..
        } => Some((*function, Some(*statement))),
        Hint::UnusedFunction { function } => Some((*function, None)),
        Hint::NothingEmitted {
            function,
            statement,
        } => Some((*function, Some(*statement))),
        Hint::SquareLoop {
            function,
            statement,
        } => Some((*function, Some(*statement))),
        _ => None,
    }
}
