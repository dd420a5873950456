//! One request's answer: the teller is asked at a moment, and its answer is written as one text.
ghost use Rattle.std.specs.Prelude.{◌≡◌, ◌≤◌, ℕ, List, false, IsTrue, OnOk, OnErr};
ghost use Rattle.std.specs.Io.KnownBytes.{Appends};
ghost use Rattle.decimal_rank.specs.Causes.{HasCause};
ghost use Rattle.decimal_rank.specs.Outputs.KnownBytes.{AppendsPart};
ghost use Rattle.http_wire.specs.declared.messages.HttpRequest.{HttpRequest};
ghost use Rattle.http_wire.specs.Messages.{Refused};
ghost use Rattle.routes.specs.Answers.{is_plain_answer, is_short};
ghost use Rattle.rulebook.specs.declared.limits.TheConstants.{MAX_MOMENT};
ghost use Rattle.campaign_server.specs.ConnectionLoop.RequestAnswers.{IsAnswer, IsRequestAnswered, is_of_query};
ghost use Rattle.campaign_server.specs.ConnectionLoop.FedRequests.{MayBeAsked, IsReading};
ghost use Rattle.campaign_server.specs.Conversations.Chains.{last_text};
ghost use Rattle.campaign_server.specs.Conversations.Stories.{is_query};

use crate::connections::asks::ReadRequest;
use crate::connections::buffers::Buffer;
use crate::connections::tellers::Teller;
use crate::links::{Link, write_all};
use decimal_rank::Failed;
use http_wire::WireFault;
use routes::{Answered, Keys, RouteFault};
use rulebook::{Addressed, Answer, Ask, commands_are_answered_short, replies_are_plain};

fn is_query(ask: &Ask) -> bool
    ensures { result ≡ is_query ask.now }
{
    matches!(ask, Ask::See(_))
}

/// What a request is answered at a moment, by what it asks or its first fault.
fn act<T: Teller>(teller: &mut T, reading: ReadRequest, moment: u64) -> Answered
    requires latest { moment ≤ MAX_MOMENT }
    requires asked { MayBeAsked reading }
    ensures answer { IsAnswer T.tells teller.old reading moment result teller.new }
    ensures plain { IsTrue (is_plain_answer result) }
    ensures short { is_of_query result ≡ false → IsTrue (is_short result) }
{
    replies_are_plain();
    commands_are_answered_short();
    let (who, number, ask) = match reading {
        Ok(asked) => asked,
        Err(RouteFault::Memory) => return Answered::Memory,
        Err(fault) => return Answered::Route(fault),
    };
    let query = is_query(&ask);
    match teller.tell(Addressed {
        who,
        number,
        ask,
        moment,
    }) {
        Answer::Reply(reply) => Answered::Reply {
            reply,
            asked: query,
        },
        Answer::DiskFault => Answered::DiskFault,
        Answer::Memory => Answered::Memory,
    }
}

/// Answers a request.
pub(crate) fn answer<T: Teller, I: Link>(
    teller: &mut T,
    link: &mut I,
    buffer: &mut Buffer,
    reading: ReadRequest,
    close: bool,
) -> Result<(), Failed>
    requires { MayBeAsked reading }
    ensures turn { IsRequestAnswered T.tells teller.old
        (I.seen link.old) reading close result teller.new (I.seen link.new) }
    ensures cause { HasCause (I.seen link.old).writing.faults (I.seen link.new).writing.faults
        result }
    ensures reading_kept { (I.seen link.new).reading ≡ (I.seen link.old).reading }
{
    let moment = link.moment();
    let answered = act(teller, reading, moment);
    buffer.put(&answered, close);
    let written = write_all(link, buffer.text());
    buffer.settle();
    written
}

/// Answers a refused message, with close.
pub(crate) fn refuse<I: Link>(
    link: &mut I,
    buffer: &mut Buffer,
    fault: WireFault,
) -> Result<(), Failed>
    ensures all { OnOk result (Appends (I.seen link.old).writing.written
        (I.seen link.new).writing.written (last_text (Refused fault))) }
    ensures part { OnErr result (AppendsPart (I.seen link.old).writing.written
        (I.seen link.new).writing.written (last_text (Refused fault))) }
    ensures cause { HasCause (I.seen link.old).writing.faults (I.seen link.new).writing.faults
        result }
    ensures reading_kept { (I.seen link.new).reading ≡ (I.seen link.old).reading }
    ensures clock_kept { (I.seen link.new).clock ≡ (I.seen link.old).clock }
{
    buffer.put(&Answered::Wire(fault), true);
    write_all(link, buffer.text())
}
