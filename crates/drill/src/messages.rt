//! The callers and the rules of a generated campaign, and the messages of its callers.
ghost use Rattle.std.specs.Prelude.{◌≡◌, ◌≤◌, IfOk, IsTrue};
ghost use Rattle.drill.specs.Figures.{are_numbers, most_runs};
ghost use Rattle.drill.specs.Messages.{callers, grade_message, lease_message, message_text, open_message, publish_message, rules as drill_rules, run_message, topics_message};

use crate::figures::{write_run_name, write_topic_name};
use crate::numbers::DrillNumbers;
use crate::texts::{write_number, write_run, write_topics};
use decimal_rank::{Memory, Rows, Text};
use routes::{KeyRow, Keys};
use rulebook::{Role, Rules};
use std::alloc::Global;

const ORGANISER_KEY: &[u8] = b"ORGANISERORGAN01";

const GROUP_KEY: &[u8] = b"GROUPGROUPGROUP1";

const ASSESSOR_KEY: &[u8] = b"ASSESSORASSESS01";

/// The rules of the campaign.
pub(crate) fn rules(alloc: Global) -> Rules
    ensures { result ≡ drill_rules }
{
    Rules {
        depth: 10,
        term: 600,
        hold: 1,
        level: 1,
        top_grade: 3,
        doubles: Rows::new(Vec::new(alloc)),
        levels: Rows::new(Vec::new(alloc)),
    }
}

/// The callers of the campaign.
pub(crate) fn callers(alloc: Global) -> Result<Keys, Memory>
    ensures { IfOk result (λ keys. keys ≡ callers) }
{
    let rows = rows(alloc)?;
    Ok(Keys::new(rows))
}

fn rows(alloc: Global) -> Result<Vec<KeyRow>, Memory>
    ensures { IfOk result (λ rows. rows.items ≡ callers) }
{
    let mut rows = Vec::new(alloc);
    rows.push(row(alloc, b"org", Role::Organiser, ORGANISER_KEY)?)?;
    rows.push(row(alloc, b"grp", Role::Group, GROUP_KEY)?)?;
    rows.push(row(alloc, b"asr", Role::Assessor, ASSESSOR_KEY)?)?;
    Ok(rows)
}

fn row(alloc: Global, name: &[u8], role: Role, key: &[u8]) -> Result<KeyRow, Memory>
    ensures { IfOk result (λ row. row ≡ record { name = name.now; role = role; key = key.now }) }
{
    Ok(KeyRow {
        name: Text::from_slice(alloc, name)?,
        role,
        key: Text::from_slice(alloc, key)?,
    })
}

/// The message that gives the topics.
pub(crate) fn topics_message(alloc: Global, numbers: &DrillNumbers) -> Result<Vec<u8>, Memory>
    requires { IsTrue (are_numbers numbers.now) }
    ensures { IfOk result (λ text. text.items ≡ message_text (topics_message numbers.now)) }
{
    let mut body = Vec::new(alloc);
    write_topics(numbers, &mut body)?;
    message(alloc, ORGANISER_KEY, 1, b"/topics", &body)
}

/// The message that submits a run.
pub(crate) fn run_message(alloc: Global, numbers: &DrillNumbers, r: u32) -> Result<Vec<u8>, Memory>
    requires numbers { IsTrue (are_numbers numbers.now) }
    requires run { r ≤ most_runs }
    ensures { IfOk result (λ text. text.items ≡ message_text (run_message numbers.now r)) }
{
    let mut path = Vec::new(alloc);
    path.extend_from_slice(b"/runs/")?;
    write_run_name(r, &mut path)?;
    let mut body = Vec::new(alloc);
    write_run(numbers, r, &mut body)?;
    message(alloc, GROUP_KEY, r, &path, &body)
}

/// The message that opens the campaign.
pub(crate) fn open_message(alloc: Global) -> Result<Vec<u8>, Memory>
    ensures { IfOk result (λ text. text.items ≡ message_text open_message) }
{
    message(alloc, ORGANISER_KEY, 2, b"/open", b"")
}

/// The message that asks for a lease on a topic.
pub(crate) fn lease_message(alloc: Global, t: u32, number: u32) -> Result<Vec<u8>, Memory>
    ensures { IfOk result (λ text. text.items ≡ message_text (lease_message t number)) }
{
    let mut path = Vec::new(alloc);
    path.extend_from_slice(b"/topics/")?;
    write_topic_name(t, &mut path)?;
    path.extend_from_slice(b"/lease")?;
    message(alloc, ASSESSOR_KEY, number, &path, b"")
}

/// The message that grades the document of a lease.
pub(crate) fn grade_message(
    alloc: Global,
    lease: u32,
    number: u32,
    grade: u64,
) -> Result<Vec<u8>, Memory>
    ensures { IfOk result (λ text. text.items ≡ message_text (grade_message lease number grade)) }
{
    let mut path = Vec::new(alloc);
    path.extend_from_slice(b"/leases/")?;
    write_number(u64::from(lease), &mut path)?;
    path.extend_from_slice(b"/grade")?;
    let mut body = Vec::new(alloc);
    body.extend_from_slice(b"{\"grade\":")?;
    write_number(grade, &mut body)?;
    body.extend_from_slice(b"}")?;
    message(alloc, ASSESSOR_KEY, number, &path, &body)
}

/// The message that publishes the campaign.
pub(crate) fn publish_message(alloc: Global) -> Result<Vec<u8>, Memory>
    ensures { IfOk result (λ text. text.items ≡ message_text publish_message) }
{
    message(alloc, ORGANISER_KEY, 3, b"/publish", b"")
}

/// A message of the caller with a key.
fn message(
    alloc: Global,
    key: &[u8],
    number: u32,
    path: &[u8],
    body: &[u8],
) -> Result<Vec<u8>, Memory>
    ensures { IfOk result (λ text. text.items ≡ message_text
        (record { key = key.now; number = number; path = path.now; body = body.now })) }
{
    let mut text = Vec::new(alloc);
    text.extend_from_slice(b"POST ")?;
    text.extend_from_slice(path)?;
    text.extend_from_slice(b" HTTP/1.1\r\nX-Campaign-Key: ")?;
    text.extend_from_slice(key)?;
    text.extend_from_slice(b"\r\nX-Request-Number: ")?;
    write_number(u64::from(number), &mut text)?;
    text.extend_from_slice(b"\r\nContent-Length: ")?;
    write_number(body.len() as u64, &mut text)?;
    text.extend_from_slice(b"\r\n\r\n")?;
    text.extend_from_slice(body)?;
    Ok(text)
}
