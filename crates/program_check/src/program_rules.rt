//! The rules that a program's declarations keep.

/// A rule of programs, in the order in which they are checked. The first one that is broken is reported.
#[derive(Clone, Copy, Debug, PartialEq, Eq)]
pub enum ProgramRule {
    /// P1: each function, input and sink's input is declared.
    Undeclared,
    /// P2: no two functions have one name, nor two sources or operators.
    DeclaredTwice,
    /// P9: there is one sink.
    NoSingleSink,
    /// P8: there are at most 16 operators, 64 functions, and 8 operators that are a Match or a Cross.
    TooMany,
    /// P7: each source and operator is read once, and reached from the sink.
    NotATree,
    /// P3: a function is of its operator's kind.
    OtherKind,
    /// P4: the key lists of a Match or CoGroup are equally long, and those of a Reduce or CoGroup have the function's
    /// number of keys.
    OtherKeyCount,
    /// P10: no field is a column twice, and the fields of columns and of the sink are fields of the program.
    WrongField,
    /// P5: a key is among its side's attributes.
    NoAttribute,
    /// P6: the two sides of an operator share no attribute.
    SharedAttribute,
}
