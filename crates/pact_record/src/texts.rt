ghost use Rattle.std.specs.Prelude.{◌≡◌, ◌+◌, ◌≤◌, ◌<◌, ◌++◌, length, IsUtf8, IfOk, IsErrOf, SomeIff};
ghost use Rattle.pact_record.specs.declared.texts.NotText.TheVariants.{Utf8, Long};
ghost use Rattle.pact_record.specs.Limits.{text_limit};

use crate::OutOfMemory;
use crate::text_storage::Storage;
use std::alloc::Global;
use std::marker::Model;
use std::str;

/// A text has at most this number of bytes.
pub const MAX_TEXT: usize = 4096;

/// A short text: UTF-8 of at most `MAX_TEXT` bytes.
#[derive(Debug, Drop)]
pub struct Text {
    storage: Storage,
}

/// Why bytes aren't a text.
#[derive(Clone, Copy, Debug, PartialEq, Eq)]
pub enum NotText {
    /// They aren't UTF-8.
    Utf8,
    /// They are UTF-8, but too many.
    Long,
    Memory,
}

impl From<OutOfMemory> for NotText {
    ghost use Rattle.pact_record.specs.declared.texts.NotText.TheVariants.{Memory};

    ghost from_gives = { λ _ e. e ≡ Memory };

    fn from(_: OutOfMemory) -> NotText {
        NotText::Memory
    }
}

impl Model for Text {
    ghost use Rattle.std.specs.Prelude.{List, ℕ, length, ◌≤◌, IsUtf8};
    ghost use Rattle.pact_record.specs.Limits.{text_limit};
    ghost use Rattle.pact_record.specs.TextStorage.{stored_bytes};

    ghost Value = { List ℕ };

    ghost view = { λ t. stored_bytes t.storage };

    ghost invariant = { λ t. (length (stored_bytes t.storage) ≤ text_limit) × IsUtf8 (stored_bytes t.storage) };
}

impl Text {
    pub fn from_bytes(alloc: Global, bytes: &[u8]) -> Result<Text, NotText>
        ensures ok { IfOk result (λ t. t ≡ bytes.now) }
        ensures fits { IfOk result (λ t. (length t ≤ text_limit) × IsUtf8 t) }
        ensures utf8 { IsErrOf result Utf8 → IsUtf8 bytes.now → ⊥ }
        ensures long { IsErrOf result Long → IsUtf8 bytes.now × (text_limit < length bytes.now) }
    {
        if str::from_utf8(bytes).is_err() {
            return Err(NotText::Utf8);
        }
        if bytes.len() > MAX_TEXT {
            return Err(NotText::Long);
        }
        Ok(Text {
            storage: Storage::from_slice(alloc, bytes)?,
        })
    }

    pub fn bytes(&self) -> &[u8]
        ensures text { result.now ≡ self.now }
        ensures short { length self.now ≤ text_limit }
        ensures utf8 { IsUtf8 self.now }
    {
        self.storage.bytes()
    }

    pub fn copy(&self, alloc: Global) -> Result<Text, OutOfMemory>
        ensures { IfOk result (λ t. t ≡ self.now) }
    {
        Ok(Text {
            storage: self.storage.copy(alloc)?,
        })
    }

    /// The bytes of this text followed by those of the other, if they aren't too many.
    pub(crate) fn concatenated(
        &self,
        alloc: Global,
        other: &Text,
    ) -> Result<Option<Text>, OutOfMemory>
        ensures { IfOk result (λ found.
            SomeIff found (length self.now + length other.now ≤ text_limit) (self.now ++ other.now)) }
    {
        if self.bytes().len() + other.bytes().len() > MAX_TEXT {
            return Ok(None);
        }
        let storage = Storage::joined(alloc, self.bytes(), other.bytes())?;
        Ok(Some(Text { storage }))
    }
}
