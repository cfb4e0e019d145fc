//! The order test.

ghost use Rattle.std.specs.Prelude.{◌≡◌, ◌↔◌, true, IsTrue};
ghost use Rattle.order_free.specs.OrderFree.{IsGroupFree, IsOrderFree};
ghost use Rattle.order_free.specs.Permutes.{Permutes};
ghost use Rattle.order_free.specs.RegistersInRange.{AreRegistersInRange};

use crate::loops::are_loops_free;
use crate::registers::Registers;
use crate::uses::has_first;
use tac_syntax::{Body, Kind, Valid};

/// Whether the loops of a function may take the records of its groups in any order, judged by its code. Each register
/// that a loop assigns must collect a sum, a least or a greatest value over all turns, or be used only within a turn.
/// Then the outputs are the same, up to order, for any order inside the groups. A function without groups passes.
pub fn order_test(f: &Valid) -> bool
    ensures test { IsTrue result ↔ IsOrderFree f.now.function.kind f.now.function.body }
    ensures permutes { result ≡ true → Permutes f.now.function.kind f.now.fields f.now.function.body }
{
    let function = f.function();
    match function.kind {
        Kind::Map | Kind::Match | Kind::Cross => true,
        Kind::Reduce | Kind::CoGroup => is_group_free(&function.body),
    }
}

fn is_group_free(body: &Body) -> bool
    requires { AreRegistersInRange body.now }
    ensures { IsTrue result ↔ IsGroupFree body.now }
{
    !has_first(body) && are_loops_free(body, &Registers::none())
}
