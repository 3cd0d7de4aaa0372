//! Shared texts.
ghost use Rattle.std.specs.Prelude.{◌≡◌, IfOk};
ghost use Rattle.fol.specs.Mixing.{text_fingerprint};

use crate::facts::text_print;
use std::alloc::{AllocError, Global};
use std::marker::Model;
use std::sync::Arc;

/// A text of bytes that cannot be changed and is shared by its copies.
#[derive(Drop)]
pub struct Text {
    cell: Arc<TextCell>,
}

// The bytes with their fingerprint.
#[derive(Drop)]
struct TextCell {
    fingerprint: u64,
    bytes: Vec<u8>,
}

impl Model for Text {
    ghost use Rattle.std.specs.Prelude.{◌≡◌, ℕ, List};
    ghost use Rattle.fol.specs.Mixing.{text_fingerprint};

    ghost Value = { List ℕ };

    ghost view = { λ t. t.cell.value.bytes.items };

    ghost invariant = { λ t. t.cell.value.fingerprint ≡ text_fingerprint t.cell.value.bytes.items };
}

impl Text {
    /// The text of these bytes, which are moved and not copied.
    pub fn from_vec(alloc: Global, bytes: Vec<u8>) -> Result<Text, AllocError>
        ensures { IfOk result (λ t. t ≡ bytes.items) }
    {
        let fingerprint = text_print(&bytes);
        let cell = Arc::new(alloc, TextCell { fingerprint, bytes })?;
        Ok(Text { cell })
    }

    /// The bytes, in order.
    pub fn as_bytes(&self) -> &[u8]
        ensures { result.now ≡ self.now }
    {
        self.cell.bytes.as_slice()
    }

    /// A number in which unequal texts mostly differ, without a walk over the bytes.
    pub fn fingerprint(&self) -> u64
        ensures { result ≡ text_fingerprint self.now }
    {
        self.cell.fingerprint
    }

    /// Another owner of the same bytes.
    pub fn copy(&self) -> Result<Text, AllocError>
        ensures { IfOk result (λ t. t ≡ self.now) }
    {
        let cell = Arc::try_clone(&self.cell)?;
        Ok(Text { cell })
    }
}
