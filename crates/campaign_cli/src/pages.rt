//! The pages of a campaign that the program asks for itself.
ghost use Rattle.std.specs.Prelude.{◌≡◌, ◌&&◌, IfOk, IsTrue};
ghost use Rattle.rulebook.specs.declared.reply.Reply.TheVariants.{Page as PageReply};
ghost use Rattle.rulebook.specs.declared.rules.Role.TheVariants.{Organiser};
ghost use Rattle.rulebook.specs.Histories.Legal.{is_named};
ghost use Rattle.rulebook.specs.Requests.Roles.{may_see};
ghost use Rattle.rulebook.specs.Words.{Text as PageText};
ghost use Rattle.campaign_cli.specs.Pages.{IsPageOf};

use book::{Book, Disk};
use decimal_rank::{Memory, Text};
use rulebook::{Addressed, Answer, Ask, Caller, Query, Reply, Role};
use std::alloc::Global;

/// Who asks.
const ASKER: &[u8] = b"campaign";

/// The page that a query is told, as an organiser is told it. Asking for it adds nothing.
pub(crate) fn page_of<D: Disk>(
    alloc: Global,
    book: &mut Book<D>,
    query: Query,
) -> Result<Text, Memory>
    requires asked { IsTrue (may_see Organiser query && is_named query) }
    requires paged { (page : PageText) × IsPageOf book.old.history query page }
    ensures same { book.new ≡ book.old }
    ensures page { IfOk result
        (λ text. (page : PageText) → IsPageOf book.old.history query page → text ≡ page) }
{
    let name = Text::from_slice(alloc, ASKER)?;
    let who = Caller {
        name,
        role: Role::Organiser,
    };
    match book.act(Addressed {
        who,
        number: None,
        ask: Ask::See(query),
        moment: 0,
    }) {
        Answer::Reply(reply) => Ok(page_text(alloc, reply)),
        // a query adds nothing
        Answer::DiskFault => unreachable!(),
        Answer::Memory => Err(Memory),
    }
}

/// The text of a page.
fn page_text(alloc: Global, reply: Reply) -> Text
    requires { (page : PageText) × (reply ≡ PageReply page) }
    ensures { (page : PageText) → reply ≡ PageReply page → result ≡ page }
{
    let mut reply = reply;
    let Reply::Page { text } = &mut reply else {
        unreachable!()
    };
    std::mem::replace(text, Text::new(Vec::new(alloc)))
}
