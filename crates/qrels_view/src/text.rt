//! The qrels lines of a topic.
ghost use Rattle.std.specs.Prelude.{◌≡◌, ◌++◌, OnOk, OnErr};
ghost use Rattle.std.specs.List.{flat_map};
ghost use Rattle.decimal_rank.specs.Texts.Additions.{Adds};
ghost use Rattle.qrels_view.specs.Lines.{docno_cmp, qrels_line};

use crate::grades::{Graded, Placed};
use decimal_rank::{DocId, Memory, Names, append_qrel};
use std::cmp::Ordering;

/// The order of two documents by docno.
pub(crate) fn by_docno(names: &Names, a: DocId, b: DocId) -> Ordering
    ensures { result ≡ docno_cmp names.now a b }
{
    names.name_or_empty(a).cmp(names.name_or_empty(b))
}

/// Appends the lines of documents in this very order, or leaves the bytes as they were.
pub(crate) fn write_lines(
    topic: &[u8],
    names: &Names,
    placed: &[Placed],
    out: &mut Vec<u8>,
) -> Result<(), Memory>
    ensures ok { OnOk result (out.new.items
        ≡ out.old.items ++ flat_map (λ one. qrels_line topic.now names.now one.graded) placed.now) }
    ensures err { OnErr result (out.new.items ≡ out.old.items) }
{
    let before = out.len();
    for one in placed {
        if let Err(memory) = write_line(topic, names, one.graded, out) {
            out.truncate(before);
            return Err(memory);
        }
    }
    Ok(())
}

/// Appends the line of a document that has a grade.
fn write_line(topic: &[u8], names: &Names, one: Graded, out: &mut Vec<u8>) -> Result<(), Memory>
    ensures { Adds out.old out.new (qrels_line topic.now names.now one) result }
{
    match one.grade {
        Some(grade) => append_qrel(topic, names.name_or_empty(one.doc), grade, out),
        None => Ok(()),
    }
}
