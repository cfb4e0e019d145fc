//! What people usually mean by a word that the language doesn't have.

/// What is meant by a first word that no line begins with.
pub fn first_word(word: &str) -> Option<&'static str> {
    match word {
        "return" | "yield" | "print" | "output" | "write" => Some("to write a record: emit r0"),
        "for" | "while" | "loop" | "foreach" | "do" => {
            Some("to loop: repeat N, or in a reduce or cogroup: each x1 of LIST")
        }
        "elif" | "elsif" | "elseif" => Some(
            "for an else-if, write an if inside the else: else, if vA, end, end",
        ),
        "endif" | "endfor" | "endwhile" | "done" | "fi" | "}" => Some("a block ends with: end"),
        "filter" | "select" | "where" => {
            Some("to filter rows, use a map whose function emits only those to keep")
        }
        "join" | "group" | "groupby" | "aggregate" | "union" => {
            Some("the operators are map, reduce, match, cross and cogroup")
        }
        "let" | "var" | "const" => Some("an assignment begins with a register: v0 = int 1"),
        _ => comment(word),
    }
}

/// Whether a word begins a comment of another language.
pub fn comment(word: &str) -> Option<&'static str> {
    let begins = word.starts_with("//")
        || word.starts_with("--")
        || word.starts_with("/*")
        || word.starts_with(";")
        || word.starts_with("%");
    if begins {
        Some("a comment begins with #")
    } else {
        None
    }
}

/// What is meant by a word after `=` that isn't a form or an operation.
pub fn operation(word: &str) -> Option<&'static str> {
    match word {
        "gt" | "greater" | ">" => Some("for greater than, use lt with the operands swapped"),
        "ge" | "gte" | ">=" => Some("for at least, use le with the operands swapped"),
        "ne" | "neq" | "!=" | "<>" => Some("for not equal, use eq and then not"),
        "plus" | "sum" | "+" => Some("for a sum, use add, or addw, which is never Null"),
        "minus" | "subtract" | "-" => Some("for a difference, use sub"),
        "times" | "mult" | "multiply" | "*" => Some("for a product, use mul"),
        "mod" | "modulo" | "%" => Some("for a remainder, use rem"),
        "concat" | "append" => Some("to join two texts, use cat"),
        "length" | "size" | "strlen" => Some("for a text's length in bytes, use len"),
        "in" | "left" | "right" | "first" | "x1" => {
            Some("to read a field of a record, use get: vD = get REC N")
        }
        "filter" => Some("a function that filters is a map"),
        "join" => Some("a function that joins is a match"),
        _ => None,
    }
}

/// What is wrong with a word that should be a name.
pub fn name(word: &str) -> Option<&'static str> {
    let bytes = word.as_bytes();
    if word.starts_with("\"") {
        Some("names and file names are written without quotes")
    } else if word.contains("\\") {
        Some("folders are separated by /")
    } else if has_capital(bytes) {
        Some("names have no capital letters, though file names may")
    } else if begins_otherwise(bytes) {
        Some("a name begins with a letter")
    } else if word.contains("-") {
        Some("a name can't have -; use _ instead")
    } else {
        None
    }
}

/// What is wrong with a byte that isn't UTF-8, or with a carriage return.
pub fn byte(word: &str) -> Option<&'static str> {
    if word == "\r" {
        Some("a carriage return is allowed only at the end of a line")
    } else {
        Some("save the file as UTF-8")
    }
}

/// What is wrong with a literal, which has its quotation marks.
pub fn literal(word: &str) -> Option<&'static str> {
    let bytes = word.as_bytes();
    let mut is_pair = false;
    for (at, byte) in bytes.iter().enumerate() {
        let is_last = bytes.len() <= at.saturating_add(1);
        if is_pair && !matches!(byte, b'\\' | b'"' | b'n' | b'r' | b't') {
            return Some(
                "unknown escape after a backslash: the escapes are \\\\ \\\" \\n \\r \\t, and a backslash is written \\\\",
            );
        }
        if at > 0 && !is_pair && *byte == b'"' && !is_last {
            return Some(
                "a blank, # or the line's end must follow the closing \"; a \" inside a literal is written \\\"",
            );
        }
        if at > 0 && !is_pair && *byte == b'"' {
            return Some("the literal's text is longer than 4,096 bytes");
        }
        is_pair = !is_pair && *byte == b'\\';
    }
    Some("the literal isn't closed: its closing \" is missing")
}

/// What is wrong with a word that is left over.
pub fn left_over(first: &str, word: &str) -> Option<&'static str> {
    match first {
        "if" => Some(
            "an if takes one register; compare on a line before it, such as: v2 = lt v0 v1",
        ),
        "else" => Some("write the if on a line of its own inside the else, with its own end"),
        "source" => Some("a source has at most 64 columns, or 128 with `pact 2`"),
        "sink" => Some("a sink has at most 64 fields, or 128 with `pact 2`"),
        _ => comment(word),
    }
}

// Whether the word is a record that can only be copied.
fn is_copied(word: &str) -> bool {
    matches!(word, "in" | "left" | "right" | "join" | "first") || word.starts_with("x")
}

/// What is wrong with a word that should be a number or a register, in a line with that first word.
pub fn operand(first: &str, word: &str) -> Option<&'static str> {
    match word {
        ":=" | "==" | "<-" => return Some("an assignment is written with ="),
        "@" => return Some("no blank may follow the @"),
        _ => {}
    }
    if is_copied(word) && (first == "emit" || first == "set") {
        return Some("this record can't be changed or emitted, but a copy of it can: r0 = copy REC");
    }
    if word.starts_with("'") {
        Some("a literal is written between \" and \"")
    } else if word.ends_with(",") || word.ends_with(";") {
        Some("words are separated by blanks, not by commas or semicolons")
    } else if is_for_register(first) && is_of_digits(word) {
        Some("if a constant is meant, put it in a register on a line before: v5 = int 10")
    } else if is_of(word, b",;") {
        Some("separate numbers by blanks, and write them without commas")
    } else if is_of(word, b".") {
        Some("only whole numbers are allowed")
    } else if word.starts_with("@") {
        Some(
            "an @ is allowed only right before a value register, where a field is expected, and only with `pact 2`",
        )
    } else {
        comment(word)
    }
}

fn has_capital(bytes: &[u8]) -> bool {
    for byte in bytes {
        if byte.is_ascii_uppercase() {
            return true;
        }
    }
    false
}

// Whether the first byte is a digit or `_`.
fn begins_otherwise(bytes: &[u8]) -> bool {
    match bytes.first() {
        Some(byte) => byte.is_ascii_digit() || *byte == b'_',
        None => false,
    }
}

// Whether lines that begin with this word have registers of values as operands.
fn is_for_register(first: &str) -> bool {
    first.starts_with("v") || first == "set" || first == "if"
}

// Whether the word is a number of at most 9 digits, which is out of range nowhere.
fn is_of_digits(word: &str) -> bool {
    let digits = match word.strip_prefix("-") {
        Some(rest) => rest,
        None => word,
    };
    for byte in digits.as_bytes() {
        if !byte.is_ascii_digit() {
            return false;
        }
    }
    !digits.is_empty() && digits.len() <= 9
}

// Whether the word has a digit and one of these signs, and nothing but digits, these signs, a minus or a plus.
fn is_of(word: &str, signs: &[u8]) -> bool {
    let mut has_digit = false;
    let mut has_sign = false;
    for byte in word.as_bytes() {
        if byte.is_ascii_digit() {
            has_digit = true;
        } else if signs.contains(byte) {
            has_sign = true;
        } else if *byte != b'-' && *byte != b'+' {
            return false;
        }
    }
    has_digit && has_sign
}

/// The form of a line that begins with this word.
pub fn form(first: &str) -> Option<&'static str> {
    match first {
        "pact" => Some("pact 1, or pact 2"),
        "fields" => Some("fields F"),
        "source" => Some("source NAME FILE COLUMN .."),
        "function" => Some("function NAME map (or match, cross, reduce K, cogroup K)"),
        "map" => Some("map NAME FUNCTION INPUT"),
        "reduce" => Some("reduce NAME FUNCTION INPUT by N .."),
        "match" => Some("match NAME FUNCTION LEFT RIGHT by N .. = N .."),
        "cross" => Some("cross NAME FUNCTION LEFT RIGHT"),
        "cogroup" => Some("cogroup NAME FUNCTION LEFT RIGHT by N .. = N .."),
        "sink" => Some("sink INPUT N .."),
        "emit" => Some("emit rD"),
        "set" => Some("set rD N vA, or with `pact 2` set rD @vA vB"),
        "if" => Some("if vA"),
        "repeat" => Some("repeat N"),
        "each" => Some("each xK of LIST"),
        "end" => Some("end"),
        "else" => Some("else"),
        _ => None,
    }
}

/// The form of an assignment with this form or operation.
pub fn assignment(form: &str) -> &'static str {
    match form {
        "int" => "vD = int N",
        "text" => "vD = text \"T\"",
        "null" => "vD = null",
        "get" => "vD = get REC N, or with `pact 2` vD = get REC @vA",
        "key" => "vD = key N",
        "new" => "rD = new",
        "copy" => "rD = copy REC",
        "mov" | "not" | "isnull" | "len" => "vD = OP vA",
        "add"
        | "sub"
        | "mul"
        | "div"
        | "rem"
        | "addw"
        | "min"
        | "max"
        | "lt"
        | "le"
        | "eq"
        | "and"
        | "or"
        | "cat" => "vD = OP vA vB",
        _ =>
            "vD = FORM .. or rD = FORM ..; the table \"Statements\" in docs/language.md has the forms",
    }
}
