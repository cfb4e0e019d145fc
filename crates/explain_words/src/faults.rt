//! What each fault is, in one sentence. `docs/faults.md` has the same sentences below its heads.

/// What a text fault is.
pub fn text_fault(what: u32) -> &'static str {
    match what {
        1 => "The line isn't UTF-8, or has a carriage return that doesn't belong to its end.",
        2 => {
            "A literal isn't closed, has an unknown escape after a backslash, is longer than 4,096 bytes, or has something other than a blank or `#` right after it."
        }
        3 => "No line can begin with this word here.",
        4 => "A required word is missing.",
        5 => "The line has a word too many.",
        6 => "A name or a file name is expected, and this word isn't one.",
        7 => "A number is expected, and this word isn't one or is out of range.",
        8 => {
            "A register, a record, a list, a column, `by`, `of` or `=` is expected, and this word isn't one."
        }
        9 => {
            "The word after `=` in an assignment isn't a form or an operation, or the kind of a function is unknown."
        }
        10 => {
            "This `else` or `end` has no open block, a block is nested inside 64 others, or the text ends inside a function."
        }
        11 =>
            "An `each` has the wrong name: it must be `x1` in the outermost `each`, `x2` in one inside it, and so on.",
        12 => {
            "The first line with words is neither `pact 1` nor `pact 2`, the second doesn't begin with `fields`, or one of them is missing."
        }
        _ => "",
    }
}

/// What a rule of functions says.
pub fn function_rule(code: u32) -> &'static str {
    match code {
        1 => {
            "A register doesn't exist: value registers are `v0` to `v31`, record registers `r0` to `r7`."
        }
        2 => {
            "Functions of this kind don't have this statement, record or list, or a loop's record is used outside the loop."
        }
        3 =>
            "A statement reads or sets a field that records don't have: with `fields F` at the top they have F fields, numbered 0 to F - 1.",
        4 =>
            "There is no `key N`: the function has N keys or fewer, and their positions count from 0.",
        5 => "An `if` is nested inside eight others.",
        6 => "A `repeat` or `each` is nested inside three others.",
        7 => "A function has more than 1,000 statements: the reported one is the first too many.",
        8 =>
            "The turns of a `repeat`, multiplied by those of every `repeat` around it, come to more than 100,000.",
        _ => "",
    }
}

/// What a rule of programs says.
pub fn program_rule(code: u32) -> &'static str {
    match code {
        1 =>
            "The function or an input of an operator isn't declared, or the input of a sink isn't.",
        2 =>
            "Two functions have the same name, or two of the sources and operators do; the first one in the text is reported.",
        3 => "An operator and its function are of different kinds.",
        4 =>
            "The two lists of a match's keys differ in length, or a reduce or cogroup doesn't have as many keys as its function.",
        5 =>
            "A key isn't an attribute of its input: neither a field of a source below it nor one that a function below it sets.",
        6 =>
            "The two inputs of an operator share an attribute: a function below one input sets a field that the other input has too.",
        7 =>
            "A source or operator isn't an input exactly once, of an operator or of the sink, or no path leads from it to the sink.",
        8 =>
            "A program has more than 16 operators, more than 64 functions, or more than 8 operators that are a match or cross.",
        9 => "A program needs exactly one sink, and this one has none or several.",
        10 =>
            "Two columns have the same field, in one source or in two. Or a source or the sink has a field that isn't below F.",
        11 => "No source of the program has the name that `iterate` was given.",
        _ => "",
    }
}

/// Why a row is bad.
pub fn row_fault(why: u32) -> &'static str {
    match why {
        1 => "The row doesn't have as many fields as the source has columns.",
        2 => "A field in an `int` column isn't a number.",
        3 => "A field isn't UTF-8, in an `int` or a `text` column.",
        4 => "A text has more than 4,096 bytes.",
        _ => "",
    }
}

/// What a fault of a certificate is; 0 is a text that isn't a certificate.
pub fn certificate_fault(number: u32) -> &'static str {
    match number {
        0 => "The file isn't a certificate.",
        1 =>
            "A step names an operator that the program doesn't have, or one that the step's rule can't be applied to.",
        2 => "A step's rule isn't one of the seventeen that `pact` knows.",
        3 => "A step states something about its two operators that differs from what `pact` finds.",
        4 => "A step's exchange isn't legal: it may change an answer.",
        5 => "The steps don't lead to the plan that the certificate states.",
        6 => "The certificate is for a program of another version.",
        _ => "",
    }
}

/// What an exit status means.
pub fn status_fault(status: u8) -> &'static str {
    match status {
        1 => "`pact` ran out of memory.",
        2 => "These words aren't a valid command.",
        3 => "A file can't be opened or read: the program, one of its sources, or the certificate.",
        4 =>
            "Writing to standard output failed: the disk is full, or the program that reads it has ended.",
        8 => "A file is too long.",
        127 => "The launcher `pact` has no program to start.",
        _ => "",
    }
}

/// What usually cures a fault of a certificate.
pub fn certificate_cure(number: u32) -> &'static str {
    match number {
        4 =>
            "make a new certificate with `pact cert PROGRAM`; docs/exchanges.md explains each condition with a small program",
        _ => "make a new certificate with `pact cert PROGRAM`, and check it against that program",
    }
}
