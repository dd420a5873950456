//! Records that are to take the place of a journal's, as they are written, so that moving them
//! takes no memory.
ghost use Rattle.std.specs.Prelude.{◌≡◌, ◌≤◌, ◌+◌, ◌^◌, ◌∷◌, ◌++◌, [], length, IfOk, OnOk};
ghost use Rattle.std.specs.List.{All};
ghost use Rattle.journal.specs.Format.{count_of_bytes, record_of, records};
ghost use Rattle.journal.specs.KeptRecords.{payloads as payloads_of};
ghost use Rattle.journal.specs.MovedAreas.{IsArea};

use crate::layout::{CLOSED, OPEN};
use decimal_rank::Memory;
use std::alloc::Global;
use std::marker::Model;

/// Records, one behind the other, and a closed gate. Contracts see their payloads.
#[derive(Debug, Drop)]
pub struct Area {
    bytes: Vec<u8>,
}

impl Model for Area {
    ghost use Rattle.std.specs.Prelude.{ℕ, List};
    ghost use Rattle.journal.specs.Format.{records};
    ghost use Rattle.journal.specs.MovedAreas.{IsArea};

    ghost Value = { List (List ℕ) };

    ghost view = { λ area. records 0 area.bytes.items };

    ghost invariant = { λ area. IsArea area.bytes.items (records 0 area.bytes.items) };
}

impl Area {
    /// The area of these payloads, each of at most `MOST_PAYLOAD` bytes.
    pub fn of(alloc: Global, payloads: &[Vec<u8>]) -> Result<Area, Memory>
        requires { All (λ payload. length payload.items ≤ 2 ^ 25) payloads.now }
        ensures { IfOk result (λ area. area ≡ payloads_of payloads.now) }
    {
        let bytes = records_of(alloc, payloads)?;
        Ok(Area { bytes })
    }

    /// How many bytes the records and the gate behind them have.
    pub fn bytes(&self) -> u64
        ensures { result ≡ count_of_bytes self.now + 1 }
    {
        self.bytes.len() as u64
    }

    /// What is written.
    pub(crate) fn written(&self) -> &[u8]
        ensures { IsArea result.now self.now }
    {
        &self.bytes
    }
}

/// The records of these payloads, and a closed gate.
fn records_of(alloc: Global, payloads: &[Vec<u8>]) -> Result<Vec<u8>, Memory>
    requires { All (λ payload. length payload.items ≤ 2 ^ 25) payloads.now }
    ensures { IfOk result (λ bytes. IsArea bytes.items (payloads_of payloads.now)) }
{
    let mut run = Vec::new(alloc);
    for payload in payloads {
        put_record(&mut run, payload)?;
    }
    run.push(CLOSED)?;
    Ok(run)
}

fn put_record(out: &mut Vec<u8>, payload: &[u8]) -> Result<(), Memory>
    requires { length payload.now ≤ 2 ^ 25 }
    ensures { OnOk result (out.new.items ≡ out.old.items ++ record_of payload.now) }
{
    out.push(OPEN)?;
    out.extend_from_slice(&(payload.len() as u32).to_le_bytes())?;
    out.extend_from_slice(payload)?;
    Ok(())
}

/// These records, and a closed gate.
pub(crate) fn area_of(alloc: Global, run: &[u8]) -> Result<Vec<u8>, Memory>
    ensures { IfOk result (λ area. area.items ≡ run.now ++ 0 ∷ []) }
{
    let mut area = Vec::with_capacity(alloc, run.len() + 1)?;
    area.extend_from_slice(run)?;
    area.push(CLOSED)?;
    Ok(area)
}
