//! Bytes that grow by whole texts: a text is appended, or there was no memory and the bytes stay.
ghost use Rattle.std.specs.Prelude.{map};
ghost use Rattle.std.specs.List.{concat};
ghost use Rattle.decimal_rank.specs.Texts.Additions.{Adds};

use crate::storage::Memory;

/// Appends a text, or leaves the bytes as they were. It takes no memory where there is room.
pub fn append(out: &mut Vec<u8>, text: &[u8]) -> Result<(), Memory>
    ensures { Adds out.old out.new text.now result }
{
    out.extend_from_slice(text)?;
    Ok(())
}

/// Appends texts, one after another, or leaves the bytes as they were. It takes no memory where
/// there is room for all of them.
#[tactic(auto, using(crate::proofs::GrowingBytes::ByteParts::part_fits, crate::proofs::GrowingBytes::ByteParts::part_added))]
pub fn append_all(out: &mut Vec<u8>, texts: &[&[u8]]) -> Result<(), Memory>
    ensures { Adds out.old out.new (concat (map (λ text. text.now) texts.now)) result }
{
    let before = out.len();
    let mut rest = texts;
    while let [text, others @ ..] = rest {
        match append(out, text) {
            Ok(()) => rest = others,
            Err(memory) => {
                out.truncate(before);
                return Err(memory);
            }
        }
    }
    Ok(())
}
