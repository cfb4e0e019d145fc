//! How a pipe is opened.

ghost use Rattle.std.specs.Prelude.{◌≡◌, ◌≤◌, [], IfOk};

use crate::ends::{PutEnd, TakeEnd};
use crate::pipes::Pipe;
use crate::rules::{BothEnds, Queue};
use crate::widths::Width;
use pact_record::OutOfMemory;
use std::alloc::Global;
use std::marker::PhantomData;
use std::sync::Wait;

/// An empty pipe that holds at most `depth` notes, and its two ends. Out of memory is the only error. After this call
/// no call on the pipe, its ends or what is left in it takes memory.
pub fn pipe<W: Width, R: Wait>(
    _rt: &R,
    alloc: Global,
    depth: u32,
) -> Result<(Pipe<W>, PutEnd<W>, TakeEnd<W>), OutOfMemory>
    requires { (1 ≤ depth) × (depth ≤ 64) }
    ensures depth { IfOk result (λ made. made.0.depth ≡ depth) }
    ensures names { IfOk result (λ made. (made.1.name ≡ made.0.name) × (made.2.name ≡ made.0.name)) }
    ensures empty { IfOk result (λ made. (made.1.notes ≡ []) × (made.2.notes ≡ [])) }
{
    let (queue, mut writer) = Queue::<W>::ruled(alloc, depth as usize)?;
    let reader = queue.another::<BothEnds>(&mut writer);
    Ok((
        Pipe { queue },
        PutEnd {
            pass: writer,
            count: 0,
            width: PhantomData,
        },
        TakeEnd {
            pass: reader,
            width: PhantomData,
        },
    ))
}
