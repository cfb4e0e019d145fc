//! What is said of programs.

use pact_load::program_of;
use pact_operators::Program;
use program_hints::{Hint, HintList, Register, program_hints, size_hints, unread_columns};
use std::alloc::Global;
use std::test::Fail;

fn program(alloc: Global, text: &str) -> Result<Program, Fail> {
    match program_of(alloc, b"program", text.as_bytes()) {
        Ok(program) => Ok(program),
        Err(_) => Err(Fail::new("no program")),
    }
}

fn hints(alloc: Global, text: &str) -> Result<HintList, Fail> {
    Ok(program_hints(alloc, &program(alloc, text)?)?)
}

const QUIET: &str = "pact 1
fields 4
source s s.csv text:0 int:1
function sum reduce 1
  v0 = int 0
  each x1 of group
    v1 = get x1 1
    v0 = addw v0 v1
  end
  r0 = new
  v2 = key 0
  set r0 0 v2
  set r0 2 v0
  emit r0
end
reduce r sum s by 0
sink r 0 2
";

const LOUD: &str = "pact 1
fields 4
source s s.csv text:0 int:1
function sum reduce 1
  v0 = int 0
  each x1 of group
    v1 = get x1 0
    v0 = addw v0 v1
    v3 = get x1 3
    v3 = cat v1 v3
    v9 = add v9 v7
  end
  r0 = copy first
  set r0 2 v0
  emit r0
  v2 = key 0
end
function idle map
  emit r0
end
reduce r sum s by 0
sink r 0 2 3
";

const FOUND: &[Hint] = &[
    Hint::ReadBeforeSet {
        function: 0,
        statement: 6,
        register: Register::Value(7),
    },
    Hint::NeverRead {
        function: 0,
        statement: 4,
        register: Register::Value(3),
    },
    Hint::NeverRead {
        function: 0,
        statement: 6,
        register: Register::Value(9),
    },
    Hint::NeverRead {
        function: 0,
        statement: 10,
        register: Register::Value(2),
    },
    Hint::NothingEmitted {
        function: 0,
        statement: 10,
    },
    Hint::UnusedFunction { function: 1 },
    Hint::ReadBeforeSet {
        function: 1,
        statement: 0,
        register: Register::Record(0),
    },
    Hint::NeverSet {
        op: 1,
        statement: Some(4),
        field: 3,
    },
    Hint::TextArithmetic {
        op: 1,
        statement: 3,
        field: Some(0),
    },
    Hint::OrderDependent {
        op: 1,
        statement: Some(7),
    },
    Hint::SinkNeverSet { field: 3 },
    Hint::ColumnUnread { op: 0, field: 1 },
];

#[test]
fn programs_have_their_hints(rt: HostRuntime) -> Result<(), Fail> {
    assert!(rt; hints(rt.alloc(), QUIET)?.len() == 0);
    assert!(rt; hints(rt.alloc(), LOUD)?.items() == FOUND);
    Ok(())
}

const PAIRED: &str = "pact 1
fields 4
source s s.csv int:0 int:1
source t t.csv int:2 int:3
function pair match
  r0 = copy join
  v0 = get left 2
  set r0 1 v0
  emit r0
end
match m pair s t by 0 = 2
sink m 0 1
";

#[test]
fn rows_count(rt: HostRuntime) -> Result<(), Fail> {
    let alloc = rt.alloc();
    let paired = program(alloc, PAIRED)?;
    let found = program_hints(alloc, &paired)?;
    assert!(rt;
        found.items()
            == [
                Hint::OtherSide {
                    op: 2,
                    statement: Some(1),
                    field: 2
                },
                Hint::ColumnUnread { op: 1, field: 3 },
            ]
            .as_slice()
    );
    assert!(rt; unread_columns(alloc, &paired)?.len() == 1);
    assert!(rt;
        size_hints(alloc, &paired, &[20000, 5])?.items() == [Hint::LargerLeft { op: 2 }].as_slice()
    );
    assert!(rt; size_hints(alloc, &paired, &[5, 20000])?.len() == 0);
    Ok(())
}

// A map that counts its own calls is called twice: its field is Null in the lower one alone.
const SHARED: &str = "pact 1
fields 4
source s s.csv int:0 text:1
function f map
  v0 = get in 2
  v1 = int 1
  v0 = addw v0 v1
  r0 = copy in
  set r0 2 v0
  emit r0
end
map a f s
map b f a
sink b 0 1 2
";

// A field that no caller has, and a text by way of a record register, count once for both callers.
const SHARED_WRONG: &str = "pact 1
fields 4
source s s.csv int:0 text:1
function f map
  r0 = copy in
  v0 = get in 3
  v1 = get r0 1
  v0 = add v0 v1
  set r0 2 v0
  emit r0
end
map a f s
map b f a
sink b 0 1 2
";

const KEYED: &str = "pact 1
fields 4
source s s.csv int:0 text:1
function f reduce 2
  v0 = key 0
  v1 = key 1
  v2 = cat v1 v0
  v3 = cat v1 v1
  r0 = new
  set r0 2 v2
  set r0 3 v3
  emit r0
end
reduce r f s by 0 1
sink r 2 3
";

#[test]
fn callers_count_together(rt: HostRuntime) -> Result<(), Fail> {
    let alloc = rt.alloc();
    assert!(rt; hints(alloc, SHARED)?.len() == 0);
    assert!(rt;
        hints(alloc, SHARED_WRONG)?.items()
            == [
                Hint::NeverSet {
                    op: 1,
                    statement: Some(1),
                    field: 3
                },
                Hint::TextArithmetic {
                    op: 1,
                    statement: 3,
                    field: Some(1)
                },
            ]
            .as_slice()
    );
    assert!(rt;
        hints(alloc, KEYED)?.items()
            == [Hint::CatOfNumber {
                op: 1,
                statement: 2,
                field: None
            }]
            .as_slice()
    );
    Ok(())
}

const PAIRS: &str = "pact 1
fields 4
source s s.csv int:0 int:1
source t t.csv int:2 int:3
function pairs cogroup 1
  each x1 of left
    each x2 of right
      r0 = copy x1
      v0 = get x2 3
      set r0 3 v0
      emit r0
    end
  end
end
cogroup c pairs s t by 0 = 2
sink c 0 1 3
";

const SQUARE: &str = "pact 1
fields 4
source s s.csv int:0 int:1
source t t.csv int:2 int:3
function least cogroup 1
  each x1 of left
    v0 = get x1 1
    each x2 of left
      v1 = get x2 1
      v0 = min v0 v1
    end
    r0 = copy x1
    set r0 1 v0
    emit r0
  end
end
cogroup c least s t by 0 = 2
sink c 0 1
";

#[test]
fn only_loops_over_one_group_are_square(rt: HostRuntime) -> Result<(), Fail> {
    let alloc = rt.alloc();
    let pairs = program(alloc, PAIRS)?;
    assert!(rt; size_hints(alloc, &pairs, &[20000, 20000])?.len() == 0);
    let square = program(alloc, SQUARE)?;
    assert!(rt;
        size_hints(alloc, &square, &[20000, 5])?.items()
            == [Hint::SquareLoop {
                function: 0,
                statement: 2
            }]
            .as_slice()
    );
    assert!(rt; size_hints(alloc, &square, &[5, 20000])?.len() == 0);
    Ok(())
}
