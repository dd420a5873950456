//! The written line of a qrel: `TOPIC 0 DOCNO GRADE`, with a space between two of them and a line
//! feed.
ghost use Rattle.decimal_rank.specs.Texts.Additions.{Adds};
ghost use Rattle.decimal_rank.specs.Texts.QrelLines.{qrel_line};

use crate::storage::Memory;
use crate::texts::appends::append_all;
use itoa::Buffer;

/// Appends the line of a document's grade on a topic, or leaves the bytes as they were.
pub fn append_qrel(topic: &[u8], docno: &[u8], grade: u8, out: &mut Vec<u8>) -> Result<(), Memory>
    ensures { Adds out.old out.new (qrel_line topic.now docno.now grade) result }
{
    let mut digits = Buffer::new();
    let grade = digits.format(grade).as_bytes();
    append_all(out, &[topic, b" 0 ", docno, b" ", grade, b"\n"])
}
