//! What is known of the values in registers.

use function_hints::{Register, Registers, bit};
use pact_record::{Fields, MAX_FIELDS, Op1, Op2};
use tac_syntax::{Rec, Stmt};

/// What is known of a value.
#[derive(Clone, Copy, Debug, PartialEq, Eq)]
pub(crate) enum Type {
    Any,
    /// A text, or Null unless it is sure. It is the value of that field of an input, if it is one.
    Text { field: Option<u32>, sure: bool },
    /// A number, or Null unless it is sure.
    Number { field: Option<u32>, sure: bool },
}

/// The fields of the inputs that hold texts or Null, those that hold numbers or Null, and the positions of such keys,
/// with a bit for each. `named` has the fields that the function sets itself.
#[derive(Clone, Copy)]
pub(crate) struct Columns {
    pub texts: Fields,
    pub numbers: Fields,
    pub text_keys: u32,
    pub number_keys: u32,
    pub named: Fields,
}

impl Columns {
    fn type_of(&self, field: u32) -> Type {
        if field >= MAX_FIELDS {
            return Type::Any;
        }
        let found = Some(field);
        if self.texts.has(field) {
            Type::Text {
                field: found,
                sure: false,
            }
        } else if self.numbers.has(field) {
            Type::Number {
                field: found,
                sure: false,
            }
        } else {
            Type::Any
        }
    }

    fn type_of_key(&self, n: u32) -> Type {
        if self.text_keys & bit(n) != 0 {
            TEXT_OR_NULL
        } else if self.number_keys & bit(n) != 0 {
            NUMBER_OR_NULL
        } else {
            Type::Any
        }
    }
}

/// What is known of the value registers.
#[derive(Clone, Copy)]
pub(crate) struct Types {
    held: [Type; 32],
}

impl Types {
    pub(crate) fn any() -> Types {
        Types {
            held: [Type::Any; 32],
        }
    }

    pub(crate) fn of(&self, register: u32) -> Type {
        match self.held.get(register as usize) {
            Some(known) => *known,
            None => Type::Any,
        }
    }

    fn with(&self, register: u32, known: Type) -> Types {
        let mut types = *self;
        if register < 32 {
            types.held[register as usize] = known;
        }
        types
    }

    /// What is known after these registers were assigned in some way.
    pub(crate) fn without(&self, assigned: &Registers) -> Types {
        let mut types = *self;
        for register in 0..32u32 {
            if assigned.has(Register::Value(register)) {
                types = types.with(register, Type::Any);
            }
        }
        types
    }

    /// What is known after a statement of one line.
    pub(crate) fn after(&self, stmt: &Stmt, columns: &Columns) -> Types {
        match stmt {
            Stmt::Int { to, .. } => self.with(*to, NUMBER),
            Stmt::Text { to, .. } => self.with(
                *to,
                Type::Text {
                    field: None,
                    sure: true,
                },
            ),
            Stmt::Mov { to, from } => self.with(*to, self.of(*from)),
            Stmt::Get { to, from, field } => self.with(*to, type_read(*from, *field, columns)),
            Stmt::One { to, op, .. } => self.with(*to, type_of_one(*op)),
            Stmt::Two { to, op, .. } => self.with(*to, type_of_two(*op)),
            Stmt::Key { to, at } => self.with(*to, columns.type_of_key(*at)),
            Stmt::Null { to } | Stmt::GetAt { to, .. } => self.with(*to, Type::Any),
            _ => *self,
        }
    }
}

const NUMBER: Type = Type::Number {
    field: None,
    sure: true,
};

const NUMBER_OR_NULL: Type = Type::Number {
    field: None,
    sure: false,
};

const TEXT_OR_NULL: Type = Type::Text {
    field: None,
    sure: false,
};

// A record register has what an input has, or Null, in the fields that the function doesn't set.
fn type_read(from: Rec, field: u32, columns: &Columns) -> Type {
    match from {
        Rec::Reg(_) if field >= MAX_FIELDS || columns.named.has(field) => Type::Any,
        _ => columns.type_of(field),
    }
}

fn type_of_one(op: Op1) -> Type {
    match op {
        Op1::Not | Op1::IsNull => NUMBER,
        Op1::Len => NUMBER_OR_NULL,
    }
}

fn type_of_two(op: Op2) -> Type {
    match op {
        Op2::Add | Op2::Sub | Op2::Mul | Op2::Div | Op2::Rem => NUMBER_OR_NULL,
        Op2::AddW | Op2::Lt | Op2::Le | Op2::Eq | Op2::And | Op2::Or => NUMBER,
        Op2::Cat => TEXT_OR_NULL,
        Op2::Min | Op2::Max => Type::Any,
    }
}
