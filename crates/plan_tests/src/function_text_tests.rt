ghost use Rattle.std.specs.Prelude.{◌≡◌, ◌⊎◌};

use pact_record::{Bytes, OutOfMemory};
use std::alloc::Global;
use std::test::Fail;
use tac_text::{read_function, write_function};
use text_lines::{TextFault, line_at};

// The canonical text of the function that a text begins with, in a program of this version, and how many bytes follow
// the function.
fn rewritten(alloc: Global, text: &[u8], version: u32) -> Result<(Bytes, usize), TextFault>
    requires { (version ≡ 1) ⊎ (version ≡ 2) }
{
    let (function, behind) = read_function(alloc, text, 0, version)?;
    Ok((write_function(alloc, &function)?, text.len() - behind))
}

// Whether this line of a text in a program of version 1 is reported to have this fault.
fn is_told(alloc: Global, text: &[u8], line: u64, what: u32) -> Result<bool, OutOfMemory> {
    match read_function(alloc, text, 0, 1) {
        Ok(_) => Ok(false),
        Err(TextFault::Memory) => Err(OutOfMemory),
        Err(fault) => Ok(fault == TextFault::At { line, what }),
    }
}

#[test]
fn functions_are_written_in_the_canonical_spelling(rt: HostRuntime) -> Result<(), Fail> {
    let text =
        b"# a map\n\nfunction  f\tmap # its header\r\nv1 = text \"a # \\\"b\\\\\\n\\r\t\xc3\xa9\"\n if v0#then\n\n set r0 0 v1\nelse\n# nothing\n   repeat 2\nend\nend\n \t\n  emit r0\nend # f\n\xff\n";
    let (written, behind) = rewritten(rt.alloc(), text, 1)?;
    let wanted =
        b"function f map\n  v1 = text \"a # \\\"b\\\\\\n\\r\\t\xc3\xa9\"\n  if v0\n    set r0 0 v1\n  else\n    repeat 2\n    end\n  end\n  emit r0\nend\n";
    assert!(rt; written.bytes() == wanted.as_slice());
    assert!(rt; behind == 2);
    Ok(())
}

#[test]
fn a_text_that_ends_too_early(rt: HostRuntime) -> Result<(), Fail> {
    assert!(rt; is_told(rt.alloc(), b"", 1, 10)?);
    assert!(rt; is_told(rt.alloc(), b"\n\n", 2, 10)?);
    Ok(())
}

#[test]
fn fields_by_register(rt: HostRuntime) -> Result<(), Fail> {
    let text =
        b"function f map\nr0 = copy in\n  v1 = get  r0\t@v0\nset r0 @v31 v1 # \nemit r0\nend\n";
    let (written, behind) = rewritten(rt.alloc(), text, 2)?;
    let wanted =
        b"function f map\n  r0 = copy in\n  v1 = get r0 @v0\n  set r0 @v31 v1\n  emit r0\nend\n";
    assert!(rt; written.bytes() == wanted.as_slice());
    assert!(rt; behind == 0);
    assert!(rt; is_told(rt.alloc(), wanted, 3, 7)?);
    Ok(())
}

#[test]
fn a_line_begins_at_a_place(rt: HostRuntime) {
    let (line, next) = line_at(b"a\nbc\r\nd", 2);
    assert!(rt; line == b"bc\r".as_slice() && next == 6);
}
