//! Parts of a text.

ghost use Rattle.text_marks.specs.TextParts.{IsInside};
ghost use Rattle.std.specs.Prelude.{◌≡◌, take, drop};

/// A part of a text: bytes `from` up to `to` of the whole text, on line `line`, counted from 1.
#[derive(Clone, Copy, Debug, PartialEq, Eq)]
pub struct Mark {
    pub line: u64,
    pub from: usize,
    pub to: usize,
}

/// The bytes of the marked part.
pub fn marked_part<'a>(text: &'a [u8], mark: &Mark) -> &'a [u8]
    requires { IsInside text.now mark.now.from mark.now.to }
    ensures { result.now ≡ drop mark.now.from (take mark.now.to text.now) }
{
    &text[mark.from..mark.to]
}
