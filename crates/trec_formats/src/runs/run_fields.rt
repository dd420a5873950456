//! A run's line as its reader keeps it: of each field that is looked at only what tells its
//! meaning.
ghost use Rattle.std.specs.Prelude.{◌≡◌, ◌≤◌, ◌<◌, ◌++◌, ℕ, List, [], length, Ok, Err, MatchResult, OnOk};
ghost use Rattle.trec_formats.specs.RunFormat.LineViews.{view_shown};
ghost use Rattle.trec_formats.specs.RunFormat.RunFields.{kept_field, empty_line, with_field, with_part, line_of};

use crate::faults::Kind;
use crate::field_bytes::FieldBytes;
use crate::names::{is_docno, is_name};
use crate::runs::line_views::LineView;
use decimal_rank::{Decimal, DecimalFault, Memory};
use std::alloc::Global;

/// So many bytes of a field tell what it is: no name, docno or score is as long.
pub(crate) const MOST_KEPT: usize = 401;

/// The number of fields of a line, and one more.
const FIELDS: u32 = 6;

const TOO_MANY: u32 = 7;

/// The fields of a line so far, as they are looked at.
#[derive(Drop)]
pub(crate) struct KeptLine {
    /// How many there are, up to 7.
    pub(crate) count: u32,
    pub(crate) topic: FieldBytes,
    pub(crate) doc: FieldBytes,
    pub(crate) score: Result<Decimal, DecimalFault>,
}

impl KeptLine {
    pub(crate) fn new(alloc: Global) -> KeptLine
        ensures { result ≡ empty_line }
    {
        KeptLine {
            count: 0,
            topic: FieldBytes::new(alloc),
            doc: FieldBytes::new(alloc),
            score: Err(DecimalFault::Shape),
        }
    }

    /// Leaves no field. The room of its bytes stays.
    pub(crate) fn clear(&mut self)
        ensures { self.new ≡ empty_line }
    {
        self.count = 0;
        self.topic.clear();
        self.doc.clear();
        self.score = Err(DecimalFault::Shape);
    }
}

/// The bytes of a field that are kept.
fn kept(field: &[u8]) -> &[u8]
    ensures { result.now ≡ kept_field field.now }
{
    if field.len() <= MOST_KEPT {
        return field;
    }
    &field[..MOST_KEPT]
}

/// Keeps more bytes of a field.
pub(crate) fn hold(held: &mut Vec<u8>, part: &[u8]) -> Result<(), Memory>
    requires { length held.old.items ≤ 401 }
    ensures { OnOk result (held.new.items ≡ kept_field (held.old.items ++ part.now)) }
{
    let room = MOST_KEPT - held.len();
    if part.len() <= room {
        held.extend_from_slice(part)?;
    } else {
        held.extend_from_slice(&part[..room])?;
    }
    Ok(())
}

/// Adds a field to a line.
fn add_field(line: &mut KeptLine, field: &[u8]) -> Result<(), Memory>
    ensures { OnOk result (line.new ≡ with_field line.old field.now) }
{
    match line.count {
        0 => line.topic.set(field)?,
        2 => line.doc.set(field)?,
        4 => line.score = Decimal::read(field),
        _ => {}
    }
    if line.count < TOO_MANY {
        line.count += 1;
    }
    Ok(())
}

/// Ends a field, of which some bytes are held, with these bytes. Where it has none there is no
/// field.
pub(crate) fn end_field(line: &mut KeptLine, held: &mut Vec<u8>, part: &[u8]) -> Result<(), Memory>
    requires { length held.old.items ≤ 401 }
    ensures line { OnOk result
        (line.new ≡ with_part line.old (kept_field (held.old.items ++ part.now))) }
    ensures held { OnOk result (held.new.items ≡ []) }
{
    if held.is_empty() {
        if part.is_empty() {
            return Ok(());
        }
        return add_field(line, kept(part));
    }
    hold(held, part)?;
    add_field(line, held.as_slice())?;
    held.clear();
    Ok(())
}

/// What a line says, or its fault.
pub(crate) fn judged(line: &KeptLine, number: u32) -> Result<LineView<'_>, Kind>
    ensures { MatchResult result (λ view. line_of number line.now ≡ Ok (view_shown view))
        (λ kind. line_of number line.now ≡ Err kind) }
{
    if line.count != FIELDS {
        return Err(Kind::Fields);
    }
    if !is_name(line.topic.bytes()) {
        return Err(Kind::Topic);
    }
    if !is_docno(line.doc.bytes()) {
        return Err(Kind::Docno);
    }
    match &line.score {
        Ok(score) => Ok(LineView {
            line: number,
            topic: line.topic.bytes(),
            doc: line.doc.bytes(),
            score,
        }),
        Err(cause) => Err(Kind::Score(*cause)),
    }
}
