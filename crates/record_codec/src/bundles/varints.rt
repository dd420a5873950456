//! Whole numbers in groups of 7 bits, the lowest first, each byte but the last with 128 added.
ghost use Rattle.std.specs.Prelude.{◌≡◌, ◌++◌, OnOk};
ghost use Rattle.record_codec.specs.Varints.{varint};

use decimal_rank::Memory;

pub(crate) fn put_varint(number: u64, out: &mut Vec<u8>) -> Result<(), Memory>
    ensures { OnOk result (out.new.items ≡ out.old.items ++ varint number) }
{
    let mut rest = number;
    while rest >= 128 {
        out.push((128 + rest % 128) as u8)?;
        rest /= 128;
    }
    Ok(out.push(rest as u8)?)
}
