//! The fields of an entry: texts, the caller, the number and the moment.
ghost use Rattle.std.specs.Prelude.{◌≡◌, false, true, MatchResult};
ghost use Rattle.std.specs.List.{list_all};
ghost use Rattle.rulebook.specs.Spelling.{is_printable};
ghost use Rattle.trec_formats.specs.Names.{is_between};
ghost use Rattle.record_codec.specs.Outcomes.{GivesRead, GivesReadBy, OnNoEntry};
ghost use Rattle.record_codec.specs.Readings.{caller_read, docno_read, long_read, moment_read, name_read, printable_read, request_read, role_read, short_read};

use crate::cursor::Cursor;
use crate::faults::CodecFault;
use crate::layout::{
    ASSESSOR, FIRST_PRINTABLE, GROUP, LAST_PRINTABLE, NUMBERED, ORGANISER, UNNUMBERED,
};
use decimal_rank::Text;
use rulebook::{Caller, MAX_MOMENT, NUMBER_BOUND, Role};
use std::alloc::Global;
use trec_formats::{is_docno, is_name};

/// A byte for the length of a text, and the text.
#[tactic(auto, unfolding(crate::specs::Readings::short_read))]
pub(crate) fn short<'a>(left: &mut Cursor<'a>) -> Result<&'a [u8], CodecFault>
    ensures { GivesReadBy (λ text. text.now) result left.new.bytes.now
        (short_read left.old.bytes.now) }
{
    let len = left.byte()?;
    left.run(len as usize)
}

/// Two bytes for the length of a text, and the text.
#[tactic(auto, unfolding(crate::specs::Readings::long_read))]
fn long<'a>(left: &mut Cursor<'a>) -> Result<&'a [u8], CodecFault>
    ensures { GivesReadBy (λ text. text.now) result left.new.bytes.now
        (long_read left.old.bytes.now) }
{
    let len = left.number16()?;
    left.run(len as usize)
}

/// A text that passed its test.
fn kept(alloc: Global, text: &[u8], passed: bool) -> Result<Text, CodecFault>
    ensures { MatchResult result (λ kept. (passed ≡ true) × (kept ≡ text.now))
        (λ fault. OnNoEntry fault (passed ≡ false)) }
{
    if !passed {
        return Err(CodecFault::NoEntry);
    }
    Ok(Text::from_slice(alloc, text)?)
}

#[tactic(auto, unfolding(crate::specs::Readings::name_read))]
pub(crate) fn name(alloc: Global, left: &mut Cursor) -> Result<Text, CodecFault>
    ensures { GivesRead result left.new.bytes.now (name_read left.old.bytes.now) }
{
    let text = short(left)?;
    kept(alloc, text, is_name(text))
}

/// A docno, lent from the bytes.
#[tactic(auto, unfolding(crate::specs::Readings::docno_read))]
pub(crate) fn docno_bytes<'a>(left: &mut Cursor<'a>) -> Result<&'a [u8], CodecFault>
    ensures { GivesReadBy (λ docno. docno.now) result left.new.bytes.now
        (docno_read left.old.bytes.now) }
{
    let text = short(left)?;
    if !is_docno(text) {
        return Err(CodecFault::NoEntry);
    }
    Ok(text)
}

pub(crate) fn docno(alloc: Global, left: &mut Cursor) -> Result<Text, CodecFault>
    ensures { GivesRead result left.new.bytes.now (docno_read left.old.bytes.now) }
{
    let docno = docno_bytes(left)?;
    Ok(Text::from_slice(alloc, docno)?)
}

/// Whether each byte is printable ASCII, the space included.
fn are_printable(text: &[u8]) -> bool
    ensures { result ≡ list_all (is_between 32 126) text.now }
{
    text.iter()
        .all(|byte| FIRST_PRINTABLE <= *byte && *byte <= LAST_PRINTABLE)
}

fn is_printable(most: usize, text: &[u8]) -> bool
    ensures { result ≡ is_printable most text.now }
{
    text.len() <= most && are_printable(text)
}

/// A long text of so many bytes of printable ASCII at most.
#[tactic(auto, unfolding(crate::specs::Readings::printable_read))]
pub(crate) fn printable(alloc: Global, left: &mut Cursor, most: usize) -> Result<Text, CodecFault>
    ensures { GivesRead result left.new.bytes.now (printable_read most left.old.bytes.now) }
{
    let text = long(left)?;
    kept(alloc, text, is_printable(most, text))
}

#[tactic(auto, unfolding(crate::specs::Readings::role_read, crate::specs::Readings::role_of))]
fn role(left: &mut Cursor) -> Result<Role, CodecFault>
    ensures { GivesRead result left.new.bytes.now (role_read left.old.bytes.now) }
{
    match left.byte()? {
        ORGANISER => Ok(Role::Organiser),
        GROUP => Ok(Role::Group),
        ASSESSOR => Ok(Role::Assessor),
        _ => Err(CodecFault::NoEntry),
    }
}

#[tactic(auto, unfolding(crate::specs::Readings::caller_read))]
pub(crate) fn caller(alloc: Global, left: &mut Cursor) -> Result<Caller, CodecFault>
    ensures { GivesRead result left.new.bytes.now (caller_read left.old.bytes.now) }
{
    let name = name(alloc, left)?;
    let role = role(left)?;
    Ok(Caller { name, role })
}

/// The number that a request may have.
#[tactic(auto, unfolding(crate::specs::Readings::request_read))]
pub(crate) fn request(left: &mut Cursor) -> Result<Option<u64>, CodecFault>
    ensures { GivesRead result left.new.bytes.now (request_read left.old.bytes.now) }
{
    match left.byte()? {
        UNNUMBERED => Ok(None),
        NUMBERED => {
            let number = left.number64()?;
            if number >= NUMBER_BOUND {
                return Err(CodecFault::NoEntry);
            }
            Ok(Some(number))
        }
        _ => Err(CodecFault::NoEntry),
    }
}

#[tactic(auto, unfolding(crate::specs::Readings::moment_read))]
pub(crate) fn moment(left: &mut Cursor) -> Result<u64, CodecFault>
    ensures { GivesRead result left.new.bytes.now (moment_read left.old.bytes.now) }
{
    let moment = left.number64()?;
    if moment > MAX_MOMENT {
        return Err(CodecFault::NoEntry);
    }
    Ok(moment)
}
