//! What a reply says: members of an object, or the text of a page.
ghost use Rattle.std.specs.Prelude.{◌≡◌, ◌≤◌, IsTrue, length};
ghost use Rattle.decimal_rank.specs.Texts.Additions.{Adds};
ghost use Rattle.rulebook.specs.Requests.Limits.{max_title};
ghost use Rattle.rulebook.specs.Requests.PlainReplies.{is_plain_reply, is_short_reply};
ghost use Rattle.rulebook.specs.Spelling.{is_printable};
ghost use Rattle.rulebook.specs.declared.reply.Reply.TheVariants as reply_as;
ghost use Rattle.trec_formats.specs.Names.{is_docno, is_name};
ghost use Rattle.routes.specs.Answers.{reply_body};

use crate::answers::objects::append_object;
use crate::answers::refusals::write_refusal;
use crate::answers::values::Value;
use decimal_rank::{Memory, Text, append};
use rulebook::Reply;

#[tactic(auto, using(crate::proofs::AnswerTexts::AnswerSizes::topics_few))]
fn write_topics(out: &mut Vec<u8>, topics: u32) -> Result<(), Memory>
    ensures adds { Adds out.old out.new (reply_body (reply_as.Topics topics)) result }
    ensures few { length (reply_body (reply_as.Topics topics)) ≤ 3000 }
{
    append_object(out, &[("topics", Value::Number(u64::from(topics)))])
}

fn write_submitted(out: &mut Vec<u8>, run: &[u8], topics: u32, lines: u32) -> Result<(), Memory>
    ensures adds { Adds out.old out.new
        (reply_body (reply_as.Submitted run.now topics lines)) result }
    ensures few { IsTrue (is_name run.now)
        → length (reply_body (reply_as.Submitted run.now topics lines)) ≤ 3000 }
{
    append_object(
        out,
        &[
            ("lines", Value::Number(u64::from(lines))),
            ("run", Value::Word(run)),
            ("topics", Value::Number(u64::from(topics))),
        ],
    )
}

/// What a lease says, by its number, its end and its texts.
fn write_leased<'x>(
    out: &mut Vec<u8>,
    lease: u32,
    until: u64,
    topic: &'x [u8],
    doc: &'x [u8],
    title: &'x [u8],
) -> Result<(), Memory>
    ensures adds { Adds out.old out.new
        (reply_body (reply_as.Leased lease topic.now doc.now until title.now)) result }
    ensures few { IsTrue (is_name topic.now) → IsTrue (is_docno doc.now)
        → IsTrue (is_printable max_title title.now)
        → length (reply_body (reply_as.Leased lease topic.now doc.now until title.now)) ≤ 3000 }
{
    append_object(
        out,
        &[
            ("doc", Value::Quoted(doc)),
            ("lease", Value::Number(u64::from(lease))),
            ("title", Value::Quoted(title)),
            ("topic", Value::Word(topic)),
            ("until", Value::Number(until)),
        ],
    )
}

#[tactic(auto, using(crate::proofs::AnswerTexts::AnswerSizes::graded_few))]
fn write_graded<'x>(
    out: &mut Vec<u8>,
    topic: &'x [u8],
    doc: &'x [u8],
    grade: u8,
) -> Result<(), Memory>
    ensures adds { Adds out.old out.new
        (reply_body (reply_as.Graded topic.now doc.now grade)) result }
    ensures few { IsTrue (is_name topic.now) → IsTrue (is_docno doc.now)
        → length (reply_body (reply_as.Graded topic.now doc.now grade)) ≤ 3000 }
{
    append_object(
        out,
        &[
            ("doc", Value::Quoted(doc)),
            ("grade", Value::Number(u64::from(grade))),
            ("topic", Value::Word(topic)),
        ],
    )
}

fn write_pool<'x>(out: &mut Vec<u8>, topic: &'x [u8], docs: &'x [Text]) -> Result<(), Memory>
    ensures { Adds out.old out.new (reply_body (reply_as.Pool topic.now docs.now)) result }
{
    append_object(
        out,
        &[("docs", Value::Listed(docs)), ("topic", Value::Word(topic))],
    )
}

/// Appends what a reply says.
pub(crate) fn write_reply(out: &mut Vec<u8>, reply: &Reply) -> Result<(), Memory>
    ensures adds { Adds out.old out.new (reply_body reply.now) result }
    ensures few { IsTrue (is_plain_reply reply.now) → IsTrue (is_short_reply reply.now)
        → length (reply_body reply.now) ≤ 3000 }
{
    match reply {
        Reply::Done => append_object(out, &[("done", Value::True)]),
        Reply::Topics { topics } => write_topics(out, *topics),
        Reply::Submitted { run, topics, lines } => {
            write_submitted(out, run.bytes(), *topics, *lines)
        }
        Reply::Leased {
            lease,
            topic,
            doc,
            until,
            title,
        } => write_leased(
            out,
            *lease,
            *until,
            topic.bytes(),
            doc.bytes(),
            title.bytes(),
        ),
        Reply::Graded { topic, doc, grade } => {
            write_graded(out, topic.bytes(), doc.bytes(), *grade)
        }
        Reply::Pool { topic, docs } => write_pool(out, topic.bytes(), docs.items()),
        Reply::Page { text } => append(out, text.bytes()),
        Reply::Refused(refusal) => write_refusal(out, *refusal),
    }
}
