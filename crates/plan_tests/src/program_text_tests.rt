//! Programs, read and written.

use crate::listing_tests::FIVE;
use program_text::{read_program, write_program};
use std::alloc::Global;
use std::test::Fail;
use text_lines::TextFault;

const COGROUP: &str = "pact 1
fields 6
source s s.csv int:0 int:1
source t t3.csv int:2 int:3
function both cogroup 1
  v0 = key 0
  r0 = new
  set r0 0 v0
  v1 = int 0
  v3 = int 0
  v2 = int 1
  each x1 of left
    v1 = addw v1 v2
  end
  each x1 of right
    v3 = addw v3 v2
  end
  set r0 4 v1
  set r0 5 v3
  emit r0
end
cogroup g both s t by 0 = 2
sink g 0 4 5
";

// Line ends of both kinds, tabs, comments, empty lines, an empty body after the word `else`, a literal with a tab and a
// number sign in it, and no line feed at the end.
const LOOSE: &str =
    "\r\n\t# two sides\r\npact\t1\r\n fields  7 # few\n\nfunction both cogroup\t1\r\n\teach x1 of left # one side\r\n\t\teach x2 of right\n v0 = text  \"a\t# \\\"b\\\"\"# behind it\n if v0\n else # nothing\n\n end\nrepeat 3\nemit r0\nend\n  end\nend\r\nif v1\nelse\nset r0 6 v0\nend\nend # both\nsource s in/a-1.csv  text:0\tint:1\r\nsource t t.csv int:2\n\ncogroup g both s t by 0 = 2\n sink g 0 6\r";

const LOOSE_WRITTEN: &str = "pact 1
fields 7
function both cogroup 1
  each x1 of left
    each x2 of right
      v0 = text \"a\\t# \\\"b\\\"\"
      if v0
      end
      repeat 3
        emit r0
      end
    end
  end
  if v1
  else
    set r0 6 v0
  end
end
source s in/a-1.csv text:0 int:1
source t t.csv int:2
cogroup g both s t by 0 = 2
sink g 0 6
";

// Whether the program that a text spells is written like this.
fn is_written_as(alloc: Global, text: &str, wanted: &str) -> Result<bool, TextFault> {
    let draft = read_program(alloc, text.as_bytes())?;
    let written = write_program(alloc, &draft)?;
    Ok(written.bytes() == wanted.as_bytes())
}

// Whether a text is the canonical one of its program.
fn is_kept(alloc: Global, text: &str) -> Result<bool, TextFault> {
    is_written_as(alloc, text, text)
}

#[test]
fn canonical_texts_are_kept(rt: HostRuntime) -> Result<(), Fail> {
    assert!(rt; is_kept(rt.alloc(), FIVE)?);
    assert!(rt; is_kept(rt.alloc(), COGROUP)?);
    assert!(rt; is_kept(rt.alloc(), LOOSE_WRITTEN)?);
    Ok(())
}

#[test]
fn another_spelling_is_written_in_the_canonical_one(rt: HostRuntime) -> Result<(), Fail> {
    assert!(rt; is_written_as(rt.alloc(), LOOSE, LOOSE_WRITTEN)?);
    Ok(())
}
