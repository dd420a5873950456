//! The lines of a qrels text beside the table by which they were told apart, so that grades are
//! found in it without another one.
ghost use Rattle.std.specs.Prelude.{◌≡◌, ◌≤◌, length, map, IfOk};
ghost use Rattle.decimal_rank.specs.Tables.TextKeys.{text_key};
ghost use Rattle.trec_formats.specs.Documents.{AreByDocument};
ghost use Rattle.trec_formats.specs.Faults.{IfFault};
ghost use Rattle.trec_formats.specs.RunFormat.LineViews.{qrel_shown};
ghost use Rattle.trec_formats.specs.QrelsFormat.Qrels.{grade_on, IsQrels, IsQrelsFault};

use crate::documents::docnos::Docnos;
use crate::documents::{Document, DocumentTable, line_of, table_of};
use crate::faults::FormatEnd;
use crate::qrels::{QrelView, read_lines};
use decimal_rank::Memory;
use std::alloc::Global;
use std::marker::Model;

/// The lines of a qrels text, lent from it and found by topic and docno. Contracts see the list of
/// the lines.
#[derive(Drop)]
pub struct QrelTable<'a> {
    lines: Vec<QrelView<'a>>,
    table: DocumentTable,
}

impl<'a> Model for QrelTable<'a> {
    ghost use Rattle.std.specs.Prelude.{List, map};
    ghost use Rattle.trec_formats.specs.RunFormat.LineViews.{qrel_shown};
    ghost use Rattle.trec_formats.specs.declared.qrels.QrelLine.{QrelLine};
    ghost use Rattle.trec_formats.specs.Documents.{AreByDocument};

    ghost Value = { List QrelLine };

    ghost view = { λ qrels. map qrel_shown qrels.lines.items };

    ghost invariant = { λ qrels. AreByDocument (λ view. view.topic.now)
        (λ view. view.doc.now) qrels.table.keys qrels.table.chains qrels.lines.items };
}

/// The lines of a qrels text in a table, or the text's first fault.
pub fn read_qrel_table(alloc: Global, bytes: &[u8]) -> Result<QrelTable<'_>, FormatEnd>
    requires { length bytes.now ≤ 268435456 }
    ensures lines { IfOk result (λ lines. IsQrels bytes.now lines) }
    ensures few { IfOk result (λ lines. length lines ≤ length bytes.now) }
    ensures fault { IfFault result (IsQrelsFault bytes.now) }
{
    let lines = read_lines(alloc, bytes)?;
    let table = table_of(alloc, lines.as_slice())?;
    Ok(QrelTable { lines, table })
}

impl<'a> QrelTable<'a> {
    /// The lines in the order of the text.
    pub fn lines(&self) -> &[QrelView<'a>]
        ensures { map qrel_shown result.now ≡ self.now }
    {
        self.lines.as_slice()
    }

    /// The grade of each document on a topic, in their order; none where the lines don't judge it.
    pub fn grades(
        &self,
        alloc: Global,
        topic: &[u8],
        docs: &Docnos,
    ) -> Result<Vec<Option<u8>>, Memory>
        ensures { IfOk result
            (λ grades. grades.items ≡ map (grade_on self.now topic.now) docs.now) }
    {
        grades_of(alloc, self.lines.as_slice(), &self.table, topic, docs)
    }
}

/// The grade of each document on a topic, in lines of which the table is.
fn grades_of(
    alloc: Global,
    lines: &[QrelView<'_>],
    table: &DocumentTable,
    topic: &[u8],
    docs: &Docnos,
) -> Result<Vec<Option<u8>>, Memory>
    requires { AreByDocument (λ view. view.topic.now)
        (λ view. view.doc.now) table.now.keys table.now.chains lines.now }
    ensures { IfOk result
        (λ grades. grades.items ≡ map (grade_on (map qrel_shown lines.now) topic.now) docs.now) }
{
    let topic_key = table.keys.of_topic(topic);
    let count = docs.len();
    let mut grades = Vec::with_capacity(alloc, count)?;
    for place in 0..count {
        let document = Document {
            topic,
            doc: docs.at(place),
        };
        grades.push(grade_of(lines, table, document, topic_key))?;
    }
    Ok(grades)
}

/// The grade of a document on a topic, in lines of which the table is, by the key of the topic.
fn grade_of(
    lines: &[QrelView<'_>],
    table: &DocumentTable,
    document: Document<'_>,
    topic_key: u64,
) -> Option<u8>
    requires found { AreByDocument (λ view. view.topic.now)
        (λ view. view.doc.now) table.now.keys table.now.chains lines.now }
    requires key { topic_key ≡ text_key table.now.keys.secret document.topic.now }
    ensures { result
        ≡ grade_on (map qrel_shown lines.now) document.entry.topic.now document.entry.doc.now }
{
    match line_of(table, lines, document, topic_key) {
        Some(line) => Some(line.grade),
        None => None,
    }
}
