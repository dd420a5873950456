//! The bytes of a field, in room that the field of the next line uses again.
ghost use Rattle.std.specs.Prelude.{◌≡◌, [], OnOk};

use decimal_rank::Memory;
use std::alloc::Global;
use std::marker::Model;

/// The bytes of a field. Contracts see their list.
#[derive(Drop)]
pub(crate) struct FieldBytes {
    bytes: Vec<u8>,
}

impl Model for FieldBytes {
    ghost use Rattle.std.specs.Prelude.{List, ℕ};

    ghost Value = { List ℕ };

    ghost view = { λ field. field.bytes.items };
}

impl FieldBytes {
    pub(crate) fn new(alloc: Global) -> FieldBytes
        ensures { result ≡ [] }
    {
        FieldBytes {
            bytes: Vec::new(alloc),
        }
    }

    pub(crate) fn bytes(&self) -> &[u8]
        ensures { result.now ≡ self.now }
    {
        self.bytes.as_slice()
    }

    pub(crate) fn clear(&mut self)
        ensures { self.new ≡ [] }
    {
        self.bytes.clear();
    }

    /// Takes other bytes.
    pub(crate) fn set(&mut self, bytes: &[u8]) -> Result<(), Memory>
        ensures { OnOk result (self.new ≡ bytes.now) }
    {
        self.bytes.clear();
        self.bytes.extend_from_slice(bytes)?;
        Ok(())
    }
}
