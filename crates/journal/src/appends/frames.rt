//! A record as an append writes it, so that an append takes no memory.
ghost use Rattle.std.specs.Prelude.{◌≡◌, ◌≤◌, ◌^◌, length, IfOk};
ghost use Rattle.journal.specs.Format.{frame_of, payload_behind};
ghost use Rattle.journal.specs.Frames.{IsFrame};

use crate::layout::{CLOSED, LENGTH_BYTES};
use decimal_rank::Memory;
use std::alloc::Global;
use std::marker::Model;

/// The bytes behind the gate of a record: the payload's length, the payload, and the next gate,
/// closed. Contracts see the payload.
#[derive(Debug, Drop)]
pub struct Frame {
    bytes: Vec<u8>,
}

impl Model for Frame {
    ghost use Rattle.std.specs.Prelude.{ℕ, List};
    ghost use Rattle.journal.specs.Format.{payload_behind};
    ghost use Rattle.journal.specs.Frames.{IsFrame};

    ghost Value = { List ℕ };

    ghost view = { λ frame. payload_behind frame.bytes.items };

    ghost invariant = { λ frame. IsFrame frame.bytes.items };
}

impl Frame {
    /// The frame of a payload of at most `MOST_PAYLOAD` bytes.
    pub fn of(alloc: Global, payload: &[u8]) -> Result<Frame, Memory>
        requires { length payload.now ≤ 2 ^ 25 }
        ensures { IfOk result (λ frame. frame ≡ payload.now) }
    {
        let bytes = framed(alloc, payload)?;
        Ok(Frame { bytes })
    }

    /// The payload.
    pub fn payload(&self) -> &[u8]
        ensures { result.now ≡ self.now }
    {
        payload_of(&self.bytes)
    }

    /// What an append writes.
    pub(crate) fn bytes(&self) -> &[u8]
        ensures frame { IsFrame result.now }
        ensures payload { payload_behind result.now ≡ self.now }
    {
        &self.bytes
    }
}

fn framed(alloc: Global, payload: &[u8]) -> Result<Vec<u8>, Memory>
    requires { length payload.now ≤ 2 ^ 25 }
    ensures { IfOk result (λ bytes. bytes.items ≡ frame_of payload.now) }
{
    let mut bytes = Vec::new(alloc);
    bytes.reserve_exact(LENGTH_BYTES + payload.len() + 1)?;
    bytes.extend_from_slice(&(payload.len() as u32).to_le_bytes())?;
    bytes.extend_from_slice(payload)?;
    bytes.push(CLOSED)?;
    Ok(bytes)
}

fn payload_of(bytes: &[u8]) -> &[u8]
    requires { IsFrame bytes.now }
    ensures { result.now ≡ payload_behind bytes.now }
{
    &bytes[LENGTH_BYTES..bytes.len() - 1]
}
