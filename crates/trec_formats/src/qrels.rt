//! Judgements in the format of qrels, each on a line of four fields.
ghost use Rattle.std.specs.Prelude.{◌≡◌, ◌≢◌, ◌≤◌, [], ◌∷◌, length, map, Ok, Err, IfOk, MatchOption, MatchResult};
ghost use Rattle.trec_formats.specs.Lines.{fields_of};
ghost use Rattle.trec_formats.specs.Faults.{IfFault};
ghost use Rattle.trec_formats.specs.RunFormat.LineViews.{qrel_shown};
ghost use Rattle.trec_formats.specs.Names.{is_docno};
ghost use Rattle.trec_formats.specs.QrelsFormat.Qrels.{qrel_of, IsEachRead, IsQrels, IsQrelsFault};

pub(crate) mod qrel_tables;
pub(crate) mod qrels_text;

use crate::docno_fields::cut_docno;
use crate::documents::DocumentLine;
use crate::faults::{FormatEnd, Kind};
use crate::lines::{cut_field, next_row};
use crate::names::{grade_of, is_name};
use crate::qrels::qrel_tables::read_qrel_table;
use decimal_rank::{Memory, Text};
use std::alloc::Global;

/// One judgement of a qrels text.
#[derive(Debug, Drop)]
pub struct QrelLine {
    /// Its line in the text, from 1.
    pub line: u32,
    pub topic: Text,
    pub doc: Text,
    pub grade: u8,
}

/// One judgement of a qrels text, lent from the text.
#[derive(Clone, Copy)]
pub struct QrelView<'a> {
    /// Its line in the text, from 1.
    pub line: u32,
    pub topic: &'a [u8],
    pub doc: &'a [u8],
    pub grade: u8,
}

impl<'a> DocumentLine for QrelView<'a> {
    ghost topic_of = { λ view. view.topic.now };

    ghost doc_of = { λ view. view.doc.now };

    ghost number_of = { λ view. view.line };

    fn topic(&self) -> &[u8] {
        self.topic
    }

    fn doc(&self) -> &[u8] {
        self.doc
    }

    fn number(&self) -> u32 {
        self.line
    }
}

/// The fields of a line that has exactly four, and whether the third is a docno.
fn four_fields(line: &[u8]) -> Option<(&[u8], &[u8], &[u8], bool, &[u8])>
    ensures { MatchOption result (length (fields_of line.now) ≢ 4) (λ f. (fields_of line.now
        ≡ f.0.now ∷ f.1.now ∷ f.2.now ∷ f.4.now ∷ []) × (f.3 ≡ is_docno f.2.now)) }
{
    let (first, rest) = cut_field(line)?;
    let (second, rest) = cut_field(rest)?;
    let (third, is_docno, rest) = cut_docno(rest)?;
    let (fourth, rest) = cut_field(rest)?;
    match cut_field(rest) {
        Some(_) => None,
        None => Some((first, second, third, is_docno, fourth)),
    }
}

/// What the line of a number says, or its fault.
#[tactic(auto, unfolding(crate::specs::QrelsFormat::Qrels::qrel_of))]
fn qrel_view(number: u32, line: &[u8]) -> Result<QrelView<'_>, Kind>
    ensures { MatchResult result
        (λ view. qrel_of (number, fields_of line.now) ≡ Ok (qrel_shown view))
        (λ kind. qrel_of (number, fields_of line.now) ≡ Err kind) }
{
    let Some((topic, _, doc, is_docno, grade)) = four_fields(line) else {
        return Err(Kind::Fields);
    };
    if !is_name(topic) {
        return Err(Kind::Topic);
    }
    if !is_docno {
        return Err(Kind::Docno);
    }
    let Some(grade) = grade_of(grade) else {
        return Err(Kind::Grade);
    };
    Ok(QrelView {
        line: number,
        topic,
        doc,
        grade,
    })
}

/// The lines of a text, of which some may say the same.
pub(crate) fn read_lines(alloc: Global, bytes: &[u8]) -> Result<Vec<QrelView<'_>>, FormatEnd>
    requires { length bytes.now ≤ 268435456 }
    ensures lines { IfOk result (λ lines. IsEachRead bytes.now (Ok (map qrel_shown lines.items))) }
    ensures few { IfOk result (λ lines. length lines.items ≤ length bytes.now) }
    ensures fault { IfFault result (λ fault. IsEachRead bytes.now (Err fault)) }
{
    let mut lines = Vec::new(alloc);
    let mut number = 0;
    let mut rest = bytes;
    while let Some(row) = next_row(number, rest) {
        number = row.number;
        rest = row.rest;
        let view = match qrel_view(number, row.line) {
            Ok(view) => view,
            Err(kind) => return Err(FormatEnd::at(number, kind)),
        };
        lines.push(view)?;
    }
    if lines.is_empty() {
        return Err(FormatEnd::at(0, Kind::Empty));
    }
    Ok(lines)
}

/// Lines that have texts of their own.
fn owned(alloc: Global, views: &[QrelView<'_>]) -> Result<Vec<QrelLine>, Memory>
    ensures { IfOk result (λ lines. lines.items ≡ map qrel_shown views.now) }
{
    let mut lines = Vec::with_capacity(alloc, views.len())?;
    for view in views {
        lines.push(QrelLine {
            line: view.line,
            topic: Text::from_slice(alloc, view.topic)?,
            doc: Text::from_slice(alloc, view.doc)?,
            grade: view.grade,
        })?;
    }
    Ok(lines)
}

/// The lines of a qrels text, or its first fault.
pub fn read_qrels(alloc: Global, bytes: &[u8]) -> Result<Vec<QrelLine>, FormatEnd>
    requires { length bytes.now ≤ 268435456 }
    ensures lines { IfOk result (λ lines. IsQrels bytes.now lines.items) }
    ensures few { IfOk result (λ lines. length lines.items ≤ length bytes.now) }
    ensures fault { IfFault result (IsQrelsFault bytes.now) }
{
    let table = read_qrel_table(alloc, bytes)?;
    Ok(owned(alloc, table.lines())?)
}
