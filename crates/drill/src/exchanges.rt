//! A message that is sent twice, and what its answers tell.
ghost use Rattle.std.specs.Prelude.{◌≡◌, ◌≢◌, ◌⊎◌, ◌<◌, ◌++◌, ℕ, true, false, List, IfOk, IsErr, length};
ghost use Rattle.campaign_server.specs.declared.ends.End.TheVariants.{Ended};
ghost use Rattle.drill.specs.FreshLinks.{IsFresh};
ghost use Rattle.drill.specs.Answers.{are_met, leased_doc};
ghost use Rattle.drill.specs.Exchanges.{EndsWhole, IsExchange};
ghost use Rattle.drill.specs.Messages.{IsMessage, callers};

use crate::answers::{are_met, leased_doc};
use book::Book;
use campaign_server::{End, MemoryLink, session};
use decimal_rank::{Memory, Text};
use disk_model::MemoryDisk;
use http_wire::{fronts_stay, one_reading};
use routes::Keys;
use std::alloc::Global;

/// Sends a message twice, in a session of its own. Its answers tell the number of a document where
/// they lease one.
pub(crate) fn send<R>(
    rt: &R,
    alloc: Global,
    book: &mut Book<MemoryDisk>,
    keys: &Keys,
    text: Vec<u8>,
) -> Result<Option<u32>, Memory>
    requires keys { keys.now ≡ callers }
    requires message { IsMessage text.items }
    ensures { IfOk result (λ doc. (answers : List ℕ)
        × IsExchange book.old.history text.items book.new.history answers
        × (doc ≡ leased_doc answers)) }
{
    // a request that stands at the front stays there, whatever comes behind it, and bytes are read
    // in one way
    fronts_stay();
    one_reading();
    let mut link = twice(alloc, text)?;
    let end = session(rt, alloc, book, &mut link, keys);
    read_answers(end, &link)
}

/// A link that gives a text twice.
fn twice(alloc: Global, text: Vec<u8>) -> Result<MemoryLink, Memory>
    requires { 0 < length text.items }
    ensures { IfOk result (IsFresh (text.items ++ text.items)) }
{
    let again = Text::from_slice(alloc, &text)?;
    let mut pieces = Vec::new(alloc);
    pieces.push(Text::new(text))?;
    pieces.push(again)?;
    Ok(MemoryLink::new(pieces, Vec::new(alloc), Vec::new(alloc), Vec::new(alloc)))
}

/// What the answers tell, where the session ended and there was no want of memory. The disk and the
/// link are in memory, and fail for want of it alone.
fn read_answers(end: End, link: &MemoryLink) -> Result<Option<u32>, Memory>
    requires { EndsWhole end }
    ensures told { IfOk result (λ doc. (end ≡ Ended) × (are_met link.now.written ≡ true)
        × (doc ≡ leased_doc link.now.written)) }
    ensures want { IsErr result → (end ≢ Ended) ⊎ (are_met link.now.written ≡ false) }
{
    let is_over = is_ended(end);
    if !is_over {
        return Err(Memory);
    }
    let answers = link.written();
    let met = are_met(answers);
    if !met {
        return Err(Memory);
    }
    Ok(leased_doc(answers))
}

/// Whether the session came to the end of its messages. These are whole, and fewer than a
/// connection takes.
fn is_ended(end: End) -> bool
    requires { EndsWhole end }
    ensures over { result ≡ true → end ≡ Ended }
    ensures not_over { result ≡ false → end ≢ Ended }
{
    match end {
        End::Ended => true,
        End::ReadFault | End::WriteFault | End::Memory => false,
        End::Cut | End::Refused(_) | End::Worn => unreachable!(),
    }
}
