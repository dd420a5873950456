//! Lines that name a document of a topic, and a table that finds them by a key of both texts, where
//! none names the document of an earlier one.
ghost use Rattle.std.specs.Prelude.{◌≡◌, ℕ, List, find, IfOk, OnOk};
ghost use Rattle.std.specs.Option.{option_map};
ghost use Rattle.decimal_rank.specs.Tables.TextKeys.{text_key};
ghost use Rattle.trec_formats.specs.Documents.{names, same_by, AreByDocument};
ghost use Rattle.trec_formats.specs.Faults.{IsDistinct, IsTwice, IfFault};

pub(crate) mod docnos;
mod document_keys;

use crate::documents::document_keys::DocumentKeys;
use crate::faults::{FormatEnd, Kind};
use decimal_rank::{Chains, Sought, first_found};
use std::alloc::Global;

/// As many lines as a table numbers.
const MOST_LINES: usize = 4_294_967_295;

/// A line that names a document of a topic.
pub(crate) trait DocumentLine {
    ghost topic_of: { Self → List ℕ };

    ghost doc_of: { Self → List ℕ };

    ghost number_of: { Self → ℕ };

    fn topic(&self) -> &[u8]
        ensures { result.now ≡ topic_of self.now };

    fn doc(&self) -> &[u8]
        ensures { result.now ≡ doc_of self.now };

    /// Its number in the text, from 1.
    fn number(&self) -> u32
        ensures { result ≡ number_of self.now };
}

/// A document of a topic, as it's looked for among lines.
#[derive(Clone, Copy)]
pub(crate) struct Document<'a> {
    pub(crate) topic: &'a [u8],
    pub(crate) doc: &'a [u8],
}

impl<'a, L: DocumentLine> Sought<L> for Document<'a> {
    ghost finds = { λ document. names L.topic_of L.doc_of document.topic.now document.doc.now };

    fn finds(&self, line: &L) -> bool {
        self.topic == line.topic() && self.doc == line.doc()
    }
}

/// A table that finds lines by the documents that they name.
#[derive(Drop)]
pub(crate) struct DocumentTable {
    pub(crate) keys: DocumentKeys,
    pub(crate) chains: Chains,
}

/// The table of lines that name different documents, or the first line that names the topic and
/// docno of an earlier one. More lines than a table numbers are as want of memory.
pub(crate) fn table_of<L: DocumentLine>(
    alloc: Global,
    lines: &[L],
) -> Result<DocumentTable, FormatEnd>
    ensures distinct { OnOk result (IsDistinct (same_by L.topic_of L.doc_of) lines.now) }
    ensures found { IfOk result
        (λ table. AreByDocument L.topic_of L.doc_of table.keys table.chains lines.now) }
    ensures fault { IfFault result (IsTwice (same_by L.topic_of L.doc_of) L.number_of lines.now) }
{
    if lines.len() > MOST_LINES {
        return Err(FormatEnd::Memory);
    }
    let keys = DocumentKeys::drawn(lines.len());
    let mut chains = Chains::with_room(alloc, lines.len() as u32)?;
    let mut newest: &[u8] = &[];
    let mut newest_key = keys.of_topic(newest);
    for (i, line) in lines.iter().enumerate() {
        let document = Document {
            topic: line.topic(),
            doc: line.doc(),
        };
        newest_key = topic_key(&keys, newest, newest_key, document.topic);
        newest = document.topic;
        let key = newest_key.wrapping_add(keys.of_docno(document.doc));
        if let Some(first) = first_found(&chains, &lines[..i], key, &document) {
            let kind = Kind::Twice {
                first: first.number(),
            };
            return Err(FormatEnd::at(line.number(), kind));
        }
        chains.push(key)?;
    }
    Ok(DocumentTable { keys, chains })
}

/// The line of a document, in lines of which the table is, by the key of its topic.
pub(crate) fn line_of<'a, L: DocumentLine>(
    table: &DocumentTable,
    lines: &'a [L],
    document: Document<'_>,
    topic_key: u64,
) -> Option<&'a L>
    requires found { AreByDocument L.topic_of L.doc_of table.now.keys table.now.chains lines.now }
    requires key { topic_key ≡ text_key table.now.keys.secret document.topic.now }
    ensures { option_map (λ line. line.now) result ≡ find
        (names L.topic_of L.doc_of document.entry.topic.now document.entry.doc.now) lines.now }
{
    let key = topic_key.wrapping_add(table.keys.of_docno(document.doc));
    first_found(&table.chains, lines, key, &document)
}

/// The key of a topic, which is at hand where it's the newest, as mostly, since the lines of a
/// topic stand together.
fn topic_key(keys: &DocumentKeys, newest: &[u8], newest_key: u64, topic: &[u8]) -> u64
    requires { newest_key ≡ text_key keys.now.secret newest.now }
    ensures { result ≡ text_key keys.now.secret topic.now }
{
    if topic == newest {
        return newest_key;
    }
    new_key(keys, topic)
}

/// apart, since it's rarely called
#[inline(never)]
fn new_key(keys: &DocumentKeys, topic: &[u8]) -> u64
    ensures { result ≡ text_key keys.now.secret topic.now }
{
    keys.of_topic(topic)
}
