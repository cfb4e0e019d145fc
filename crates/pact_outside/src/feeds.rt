ghost use Rattle.std.specs.Prelude.{◌≡◌, ◌<◌, true, length};
ghost use Rattle.pact_outside.specs.Outside.{AfterOpen, AfterRead, Feeding};

use crate::Failed;
use pact_record::Bytes;

/// Files that are opened by name and read from their first byte on, one at a time.
pub trait Feed {
    /// What the feed makes known about itself.
    ghost shows: { Self → Feeding };

    /// Opens the file with that name. A name that doesn't exist is a fault.
    fn open(&mut self, name: Bytes) -> Result<(), Failed>
        ensures { AfterOpen (shows self.old) (shows self.new) name result };

    /// Reads the next bytes of the open file into the beginning of `buf`, and returns their number, which is 0 exactly
    /// at the file's end.
    fn read(&mut self, buf: &mut [u8]) -> Result<usize, Failed>
        requires open { (shows self.old).is_open ≡ true }
        requires room { 0 < length buf.old }
        ensures { AfterRead (shows self.old) (shows self.new) (length buf.old) buf.new result };
}
