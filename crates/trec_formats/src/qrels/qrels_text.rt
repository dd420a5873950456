//! The text of qrels lines, in their order.
ghost use Rattle.std.specs.Prelude.{◌≡◌, IfOk};
ghost use Rattle.std.specs.List.{flat_map};
ghost use Rattle.trec_formats.specs.QrelsFormat.QrelsText.{qrel_text};

use crate::qrels::QrelLine;
use decimal_rank::{Memory, Text, append_qrel};
use std::alloc::Global;

/// The text of these lines, in their order. Each has `0` for the field that isn't looked at.
pub fn write_qrels(alloc: Global, lines: &[QrelLine]) -> Result<Text, Memory>
    ensures { IfOk result (λ text. text ≡ flat_map qrel_text lines.now) }
{
    let mut text = Vec::new(alloc);
    for line in lines {
        append_qrel(line.topic.bytes(), line.doc.bytes(), line.grade, &mut text)?;
    }
    Ok(Text::new(text))
}
