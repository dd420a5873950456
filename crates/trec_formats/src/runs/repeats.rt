//! That no line of a run repeats the document of an earlier line of its topic.
ghost use Rattle.std.specs.Prelude.{◌≡◌, map, IfOk, OnOk};
ghost use Rattle.trec_formats.specs.Faults.{IsDistinct, IfFault};
ghost use Rattle.trec_formats.specs.RunFormat.LineViews.{view_shown};
ghost use Rattle.trec_formats.specs.RunFormat.Lists.{same_run_document, IsListsFault};
ghost use Rattle.trec_formats.specs.RunFormat.PackedRuns.{lines_in};

use crate::documents::table_of;
use crate::faults::FormatEnd;
use crate::runs::line_views::LineView;
use crate::runs::packed_runs::{PackedLine, packed_view};
use decimal_rank::Memory;
use std::alloc::Global;

/// The lines with their texts.
fn views_of<'a>(
    alloc: Global,
    bytes: &'a [u8],
    lines: &'a [PackedLine],
) -> Result<Vec<LineView<'a>>, Memory>
    ensures { IfOk result (λ views. map view_shown views.items ≡ lines_in bytes.now lines.now) }
{
    let mut views = Vec::with_capacity(alloc, lines.len())?;
    for line in lines {
        views.push(packed_view(bytes, line))?;
    }
    Ok(views)
}

/// Whether no line repeats the document of an earlier line of its topic. If not, the first that
/// does is told.
pub(crate) fn check_distinct(
    alloc: Global,
    bytes: &[u8],
    lines: &[PackedLine],
) -> Result<(), FormatEnd>
    ensures distinct { OnOk result (IsDistinct same_run_document (lines_in bytes.now lines.now)) }
    ensures fault { IfFault result (IsListsFault (lines_in bytes.now lines.now)) }
{
    let views = views_of(alloc, bytes, lines)?;
    table_of(alloc, views.as_slice())?;
    Ok(())
}
