//! A named file from a feed, read whole.

ghost use Rattle.std.specs.Prelude.{◌≡◌, ◌<◌, ◌^◌, true, length, IfOk, vec_len};
ghost use Rattle.pact_load.specs.Pieces.{ReadsPiece, ReadsRest};
ghost use Rattle.pact_load.specs.Readings.{ReadsFile};
ghost use Rattle.pact_load.specs.declared.files.Stop.TheVariants.{Memory};

use pact_outside::{Failed, Feed};
use pact_record::{Bytes, OutOfMemory};
use std::alloc::Global;

/// The most bytes that a program file may have.
pub const PROGRAM_LIMIT: usize = 1048576;

/// The most bytes that a source's file may have.
pub const SOURCE_LIMIT: usize = 67108864;

/// The most bytes that one call reads.
const PIECE: usize = 65536;

/// Why a file wasn't read to its end.
#[derive(Clone, Copy)]
pub enum Stop {
    Memory,
    /// The feed failed.
    Fault,
    /// The file has more bytes than its limit.
    Long,
}

impl From<OutOfMemory> for Stop {
    ghost from_gives = { λ _ e. e ≡ Memory };

    fn from(_: OutOfMemory) -> Stop {
        Stop::Memory
    }
}

fn buffer(alloc: Global, bytes: usize) -> Result<Vec<u8>, OutOfMemory>
    ensures { IfOk result (λ buf. vec_len buf ≡ bytes) }
{
    vec![in alloc; 0u8; bytes]
}

// Appends the next piece of the open file to `read`. False means that the file is at its end.
fn read_piece<F: Feed>(feed: &mut F, buf: &mut [u8], read: &mut Bytes) -> Result<bool, Stop>
    requires open { (F.shows feed.old).is_open ≡ true }
    requires room { 0 < length buf.old }
    ensures { ReadsPiece (length buf.old) (F.shows feed.old) (F.shows feed.new) read.old read.new result }
{
    match feed.read(buf) {
        Ok(count) => {
            read.extend_from_slice(&buf[..count])?;
            Ok(count > 0)
        }
        Err(Failed) => Err(Stop::Fault),
    }
}

// The remaining bytes of the open file. Reading stops one byte past the limit.
fn read_rest<F: Feed>(alloc: Global, feed: &mut F, limit: usize) -> Result<Bytes, Stop>
    requires open { (F.shows feed.old).is_open ≡ true }
    requires limit { limit < 2 ^ 62 }
    ensures { ReadsRest limit (F.shows feed.old) (F.shows feed.new) result }
{
    let mut read = Bytes::new(alloc);
    let mut buf = buffer(alloc, PIECE)?;
    while read.len() <= limit {
        let room = PIECE.min(limit + 1 - read.len());
        let more = read_piece(feed, &mut buf[..room], &mut read)?;
        if !more {
            return Ok(read);
        }
    }
    Err(Stop::Long)
}

/// Opens a file and reads it whole.
pub fn read_file<F: Feed>(
    alloc: Global,
    feed: &mut F,
    name: &[u8],
    limit: usize,
) -> Result<Bytes, Stop>
    requires { limit < 2 ^ 62 }
    ensures { ReadsFile name.now limit (F.shows feed.old) (F.shows feed.new) result }
{
    let copy = Bytes::from_slice(alloc, name)?;
    match feed.open(copy) {
        Ok(()) => read_rest(alloc, feed, limit),
        Err(Failed) => Err(Stop::Fault),
    }
}
