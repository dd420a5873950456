//! A field that is to be a docno: its end is looked for among the bytes that aren't visible, so
//! that mostly each of its bytes is read once.
ghost use Rattle.std.specs.Prelude.{◌≡◌, ◌+◌, ◌<◌, true, not, [], ◌∷◌, length, take, drop, position, IfSome, MatchOption};
ghost use Rattle.trec_formats.specs.Lines.{fields_of};
ghost use Rattle.trec_formats.specs.Names.{is_between, is_docno};

use crate::lines::{cut_field, is_white_space};
use crate::names::{has_docno_length, is_docno, is_visible};

/// The place of the first byte that isn't visible.
#[inline(never)]
fn visible_end(line: &[u8]) -> Option<usize>
    ensures { result ≡ position (λ b. not (is_between 33 126 b)) line.now }
{
    line.iter().position(|byte| !is_visible(*byte))
}

/// The end of a docno that a line begins with, where white space follows it.
fn docno_end(line: &[u8]) -> Option<usize>
    ensures within { IfSome result (λ end. end < length line.now) }
    ensures docno { IfSome result (λ end. is_docno (take end line.now) ≡ true) }
    ensures cut { IfSome result
        (λ end. fields_of line.now ≡ take end line.now ∷ fields_of (drop (end + 1) line.now)) }
{
    let end = visible_end(line)?;
    if !has_docno_length(end) {
        return None;
    }
    if !is_white_space(line[end]) {
        return None;
    }
    Some(end)
}

/// The first field of a line, whether it's a docno, and the line behind it.
pub(crate) fn cut_docno(line: &[u8]) -> Option<(&[u8], bool, &[u8])>
    ensures { MatchOption result (fields_of line.now ≡ []) (λ cut.
        (fields_of line.now ≡ cut.0.now ∷ fields_of cut.2.now) × (cut.1 ≡ is_docno cut.0.now)) }
{
    if let Some(end) = docno_end(line) {
        return Some((&line[..end], true, &line[end + 1..]));
    }
    let (field, rest) = cut_field(line)?;
    Some((field, is_docno(field), rest))
}
