//! The lines of a run as its reader keeps them: a line is its number, its score and where its topic
//! and docno stand in one vector of bytes. Lines in a row that have one topic share its bytes.
ghost use Rattle.std.specs.Prelude.{◌≡◌, true, ◌++◌, [], ◌∷◌, IfOk, OnOk};
ghost use Rattle.trec_formats.specs.RunFormat.LineViews.{view_shown};
ghost use Rattle.trec_formats.specs.RunFormat.PackedRuns.{text_in, line_in, lines_in, kept_lines, IsTextAt, ArePlaced, KeepsSpan};

use crate::runs::RunLine;
use crate::runs::line_views::{LineView, view_of};
use decimal_rank::{Decimal, Memory, Text};
use std::alloc::Global;

/// As many bytes as places number.
const MOST_BYTES: usize = 4_294_967_295;

/// Where a text stands in the bytes: from a place up to another.
#[derive(Clone, Copy)]
pub(crate) struct Span {
    start: u32,
    end: u32,
}

/// Whether two spans are one.
pub(crate) fn is_one_span(a: Span, b: Span) -> bool
    ensures { result ≡ true → a ≡ b }
{
    a.start == b.start && a.end == b.end
}

/// A line of a run, whose texts stand in the bytes.
#[derive(Drop)]
pub(crate) struct PackedLine {
    pub(crate) line: u32,
    pub(crate) topic: Span,
    pub(crate) doc: Span,
    pub(crate) score: Decimal,
}

/// The lines of a run, and the bytes of their texts.
#[derive(Drop)]
pub(crate) struct PackedRun {
    pub(crate) bytes: Vec<u8>,
    pub(crate) lines: Vec<PackedLine>,
}

impl PackedRun {
    pub(crate) fn new(alloc: Global) -> PackedRun
        ensures bytes { result.bytes.items ≡ [] }
        ensures lines { result.lines.items ≡ [] }
    {
        PackedRun {
            bytes: Vec::new(alloc),
            lines: Vec::new(alloc),
        }
    }
}

/// The text of a span, and no byte where it isn't in the bytes.
pub(crate) fn text_of(bytes: &[u8], span: Span) -> &[u8]
    ensures { result.now ≡ text_in bytes.now span }
{
    match bytes.get(span.start as usize..span.end as usize) {
        Some(text) => text,
        None => &[],
    }
}

/// Appends a text. More bytes than places number are as want of memory.
fn append_text(bytes: &mut Vec<u8>, text: &[u8]) -> Result<Span, Memory>
    ensures keeps { OnOk result (KeepsSpan bytes.old.items bytes.new.items) }
    ensures text { IfOk result (λ span. IsTextAt bytes.new.items span text.now) }
{
    let start = bytes.len();
    if start > MOST_BYTES || text.len() > MOST_BYTES - start {
        return Err(Memory);
    }
    bytes.extend_from_slice(text)?;
    Ok(Span {
        start: start as u32,
        end: bytes.len() as u32,
    })
}

/// Where a topic stands, which is there already where the newest line has it.
fn topic_span(bytes: &mut Vec<u8>, lines: &[PackedLine], topic: &[u8]) -> Result<Span, Memory>
    requires { ArePlaced bytes.old.items lines.now }
    ensures keeps { OnOk result (KeepsSpan bytes.old.items bytes.new.items) }
    ensures text { IfOk result (λ span. IsTextAt bytes.new.items span topic.now) }
{
    if let Some(newest) = lines.last() {
        if text_of(bytes, newest.topic) == topic {
            return Ok(newest.topic);
        }
    }
    append_text(bytes, topic)
}

/// Adds a line.
pub(crate) fn push(run: &mut PackedRun, line: LineView<'_>) -> Result<(), Memory>
    requires { ArePlaced run.old.bytes.items run.old.lines.items }
    ensures placed { OnOk result (ArePlaced run.new.bytes.items run.new.lines.items) }
    ensures lines { OnOk result
        (kept_lines run.new ≡ kept_lines run.old ++ view_shown line.entry ∷ []) }
{
    let topic = topic_span(&mut run.bytes, run.lines.as_slice(), line.topic)?;
    let doc = append_text(&mut run.bytes, line.doc)?;
    run.lines.push(PackedLine {
        line: line.line,
        topic,
        doc,
        score: line.score.copy(),
    })?;
    Ok(())
}

/// Lines as a run of their own.
pub(crate) fn packed(alloc: Global, lines: &[RunLine]) -> Result<PackedRun, Memory>
    ensures { IfOk result (λ run. kept_lines run ≡ lines.now) }
{
    let mut run = PackedRun::new(alloc);
    for line in lines {
        push(&mut run, view_of(line))?;
    }
    Ok(run)
}

/// A line with its texts.
pub(crate) fn packed_view<'a>(bytes: &'a [u8], line: &'a PackedLine) -> LineView<'a>
    ensures { view_shown result ≡ line_in bytes.now line.now }
{
    LineView {
        line: line.line,
        topic: text_of(bytes, line.topic),
        doc: text_of(bytes, line.doc),
        score: &line.score,
    }
}

/// A line that has texts of its own.
fn unpacked_line(alloc: Global, bytes: &[u8], line: &PackedLine) -> Result<RunLine, Memory>
    ensures { IfOk result (λ whole. whole ≡ line_in bytes.now line.now) }
{
    Ok(RunLine {
        line: line.line,
        topic: Text::from_slice(alloc, text_of(bytes, line.topic))?,
        doc: Text::from_slice(alloc, text_of(bytes, line.doc))?,
        score: line.score.copy(),
    })
}

/// The lines, each with texts of its own.
pub(crate) fn unpacked(
    alloc: Global,
    bytes: &[u8],
    lines: &[PackedLine],
) -> Result<Vec<RunLine>, Memory>
    ensures { IfOk result (λ whole. whole.items ≡ lines_in bytes.now lines.now) }
{
    let mut whole = Vec::with_capacity(alloc, lines.len())?;
    for line in lines {
        whole.push(unpacked_line(alloc, bytes, line)?)?;
    }
    Ok(whole)
}
