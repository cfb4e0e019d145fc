//! The fixed words of the language.

ghost use Rattle.std.specs.Prelude.{◌≡◌, map};
ghost use Rattle.text_marks.specs.Vocabulary.{fixed_words};

// The words that a text can have besides names, numbers, registers and literals, in the order of docs/language.md. A
// check of tests/checks compares them with that page.
const FIXED_WORDS: &[&[u8]] = &[
    b"pact",
    b"fields",
    b"source",
    b"function",
    b"map",
    b"match",
    b"cross",
    b"reduce",
    b"cogroup",
    b"sink",
    b"by",
    b"=",
    b"set",
    b"emit",
    b"if",
    b"else",
    b"end",
    b"repeat",
    b"each",
    b"of",
    b"int",
    b"text",
    b"null",
    b"mov",
    b"get",
    b"key",
    b"new",
    b"copy",
    b"not",
    b"isnull",
    b"len",
    b"add",
    b"sub",
    b"mul",
    b"div",
    b"rem",
    b"addw",
    b"min",
    b"max",
    b"lt",
    b"le",
    b"eq",
    b"and",
    b"or",
    b"cat",
    b"in",
    b"left",
    b"right",
    b"join",
    b"first",
    b"group",
];

/// All fixed words of the language.
pub fn fixed_words() -> &'static [&'static [u8]]
    ensures { map (λ word. word.now) result.now ≡ fixed_words }
{
    FIXED_WORDS
}
