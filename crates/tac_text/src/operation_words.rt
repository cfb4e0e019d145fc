//! The words of operations, for reading and for writing.

ghost use Rattle.std.specs.Prelude.{◌≡◌, IfNone, IfSome, false};
ghost use Rattle.tac_text.specs.StatementSpelling.{op1_word, op2_word};
ghost use Rattle.tac_text.specs.StatementFaults.{is_op1, is_op2};

use pact_record::{Op1, Op2};
use text_lines::is_word;

const OPS1: [Op1; 3] = [Op1::Not, Op1::IsNull, Op1::Len];

const OPS2: [Op2; 14] = [
    Op2::Add,
    Op2::Sub,
    Op2::Mul,
    Op2::Div,
    Op2::Rem,
    Op2::AddW,
    Op2::Min,
    Op2::Max,
    Op2::Lt,
    Op2::Le,
    Op2::Eq,
    Op2::And,
    Op2::Or,
    Op2::Cat,
];

pub fn op1_name(op: Op1) -> &'static [u8]
    ensures { result.now ≡ op1_word op }
{
    match op {
        Op1::Not => b"not",
        Op1::IsNull => b"isnull",
        Op1::Len => b"len",
    }
}

pub fn op2_name(op: Op2) -> &'static [u8]
    ensures { result.now ≡ op2_word op }
{
    match op {
        Op2::Add => b"add",
        Op2::Sub => b"sub",
        Op2::Mul => b"mul",
        Op2::Div => b"div",
        Op2::Rem => b"rem",
        Op2::AddW => b"addw",
        Op2::Min => b"min",
        Op2::Max => b"max",
        Op2::Lt => b"lt",
        Op2::Le => b"le",
        Op2::Eq => b"eq",
        Op2::And => b"and",
        Op2::Or => b"or",
        Op2::Cat => b"cat",
    }
}

/// The operation of one operand that has this word.
pub fn op1_named(word: &[u8]) -> Option<Op1>
    ensures some { IfSome result (λ op. word.now ≡ op1_word op) }
    ensures none { IfNone result (is_op1 word.now ≡ false) }
{
    for op in &OPS1 {
        if is_word(word, op1_name(*op)) {
            return Some(*op);
        }
    }
    None
}

/// The operation of two operands that has this word.
pub fn op2_named(word: &[u8]) -> Option<Op2>
    ensures some { IfSome result (λ op. word.now ≡ op2_word op) }
    ensures none { IfNone result (is_op2 word.now ≡ false) }
{
    for op in &OPS2 {
        if is_word(word, op2_name(*op)) {
            return Some(*op);
        }
    }
    None
}
