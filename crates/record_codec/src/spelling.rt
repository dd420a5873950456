//! Entries to bytes.
ghost use Rattle.std.specs.Prelude.{◌≡◌, ℕ, ◌++◌, ◌∷◌, ◌≤◌, ◌<◌, ◌^◌, Bool, IsTrue, List, OnOk, OnErr, [], length, true};
ghost use Rattle.std.specs.List.{list_all};
ghost use Rattle.std.specs.Int.{to_le_bytes, w16, w32, w64};
ghost use Rattle.rulebook.specs.Spelling.{command_bytes, entry_bytes, has_spelling, is_plain, is_plain_list, is_plain_topic, are_rules, are_settings, found_bytes, level_bytes, list_bytes, spelled_list, long, number_bytes, role_byte, rules_bytes, short, topic_bytes};
ghost use Rattle.trec_formats.specs.Names.{is_docno, is_name};
ghost use Rattle.record_codec.specs.Items.{has_byte_length, is_short_level};

use crate::layout::{
    AMEND, ASSESSOR, FOUND, FOUND_WITH_LEVELS, GRADE, GROUP, LEASE, NUMBERED, OPEN, ORGANISER,
    PUBLISH, RELEASE, RULE, SUBMIT, TOPICS, UNNUMBERED, WITHDRAW,
};
use decimal_rank::{Memory, Rows, Text, append};
use rulebook::{Caller, Command, EntryCore, Role, Rules, TopicLevel};
use trec_formats::{Docnos, Topic, TopicList};

/// A byte for the length of a text, and the text.
fn put_short(text: &Text, out: &mut Vec<u8>) -> Result<(), Memory>
    requires { length text.now < 256 }
    ensures { OnOk result (out.new.items ≡ out.old.items ++ short text.now) }
{
    put_text(text.bytes(), out)
}

pub(crate) fn put_text(text: &[u8], out: &mut Vec<u8>) -> Result<(), Memory>
    requires { length text.now < 256 }
    ensures { OnOk result (out.new.items ≡ out.old.items ++ short text.now) }
{
    out.push(text.len() as u8)?;
    append(out, text)
}

/// Two bytes for the length of a text, and the text.
fn put_long(text: &Text, out: &mut Vec<u8>) -> Result<(), Memory>
    requires { length text.now < 2 ^ 16 }
    ensures { OnOk result (out.new.items ≡ out.old.items ++ long text.now) }
{
    append(out, &(text.bytes().len() as u16).to_le_bytes())?;
    append(out, text.bytes())
}

/// What lists are made of.
trait Spelled {
    // its bytes
    ghost spelling: { Self → List ℕ };

    // the condition on an item
    ghost is_spelled: { Self → Bool };

    fn put(&self, out: &mut Vec<u8>) -> Result<(), Memory>
        requires { IsTrue (is_spelled self.now) }
        ensures { OnOk result (out.new.items ≡ out.old.items ++ spelling self.now) };
}

impl Spelled for Text {
    ghost spelling = { short };

    ghost is_spelled = { has_byte_length };

    fn put(&self, out: &mut Vec<u8>) -> Result<(), Memory> {
        put_short(self, out)
    }
}

impl Spelled for Topic {
    ghost spelling = { topic_bytes };

    ghost is_spelled = { is_plain_topic };

    #[tactic(auto, using(crate::proofs::ShortTexts::name_short))]
    fn put(&self, out: &mut Vec<u8>) -> Result<(), Memory> {
        put_short(&self.id, out)?;
        put_long(&self.title, out)?;
        put_long(&self.desc, out)?;
        put_long(&self.narr, out)
    }
}

impl Spelled for TopicList {
    ghost spelling = { list_bytes };

    ghost is_spelled = { is_plain_list };

    #[tactic(auto, using(crate::proofs::ShortTexts::name_short))]
    fn put(&self, out: &mut Vec<u8>) -> Result<(), Memory> {
        put_short(&self.topic, out)?;
        append(out, &self.line.to_le_bytes())?;
        put_docnos(&self.docs, out)
    }
}

impl Spelled for TopicLevel {
    ghost spelling = { level_bytes };

    ghost is_spelled = { is_short_level };

    fn put(&self, out: &mut Vec<u8>) -> Result<(), Memory> {
        put_short(&self.topic, out)?;
        Ok(out.push(self.level)?)
    }
}

/// A count of four bytes, and the items.
fn put_items<T: Spelled>(items: &Rows<T>, out: &mut Vec<u8>) -> Result<(), Memory>
    requires few { length items.now < 2 ^ 32 }
    requires plain { IsTrue (list_all T.is_spelled items.now) }
    ensures { OnOk result (out.new.items ≡ out.old.items ++ spelled_list T.spelling items.now) }
{
    append(out, &(items.items().len() as u32).to_le_bytes())?;
    for item in items.items() {
        item.put(out)?;
    }
    Ok(())
}

/// A count of four bytes, and the docnos.
fn put_docnos(docs: &Docnos, out: &mut Vec<u8>) -> Result<(), Memory>
    requires few { length docs.now < 2 ^ 32 }
    requires plain { IsTrue (list_all has_byte_length docs.now) }
    ensures { OnOk result (out.new.items ≡ out.old.items ++ spelled_list short docs.now) }
{
    let count = docs.len();
    append(out, &(count as u32).to_le_bytes())?;
    for place in 0..count {
        put_text(docs.at(place), out)?;
    }
    Ok(())
}

#[tactic(auto, using(crate::proofs::ShortTexts::name_short))]
pub(crate) fn put_caller(caller: &Caller, out: &mut Vec<u8>) -> Result<(), Memory>
    requires { IsTrue (is_name caller.now.name) }
    ensures { OnOk result
        (out.new.items ≡ out.old.items ++ short caller.now.name ++ role_byte caller.now.role ∷ []) }
{
    put_short(&caller.name, out)?;
    let role = match caller.role {
        Role::Organiser => ORGANISER,
        Role::Group => GROUP,
        Role::Assessor => ASSESSOR,
    };
    Ok(out.push(role)?)
}

fn put_number(number: Option<u64>, out: &mut Vec<u8>) -> Result<(), Memory>
    ensures { OnOk result (out.new.items ≡ out.old.items ++ number_bytes number) }
{
    match number {
        None => Ok(out.push(UNNUMBERED)?),
        Some(number) => {
            out.push(NUMBERED)?;
            append(out, &number.to_le_bytes())
        }
    }
}

/// The rules, with their kind, and levels of topics behind them where there are any.
fn put_found(rules: &Rules, out: &mut Vec<u8>) -> Result<(), Memory>
    requires { IsTrue (are_rules rules.now) }
    ensures { OnOk result
        (out.new.items ≡ out.old.items ++ found_bytes rules.now rules.now.levels) }
{
    if rules.levels.items().is_empty() {
        out.push(FOUND)?;
        return put_rules(rules, out);
    }
    out.push(FOUND_WITH_LEVELS)?;
    put_rules(rules, out)?;
    put_items(&rules.levels, out)
}

/// The rules but for levels of topics.
fn put_rules(rules: &Rules, out: &mut Vec<u8>) -> Result<(), Memory>
    requires { IsTrue (are_settings rules.now) }
    ensures { OnOk result (out.new.items ≡ out.old.items ++ rules_bytes rules.now) }
{
    append(out, &rules.depth.to_le_bytes())?;
    append(out, &rules.term.to_le_bytes())?;
    append(out, &[rules.hold, rules.level, rules.top_grade])?;
    put_items(&rules.doubles, out)
}

/// A kind, a topic, a document and its grade.
#[tactic(auto, using(crate::proofs::ShortTexts::name_short, crate::proofs::ShortTexts::docno_short))]
fn put_graded_doc(
    kind: u8,
    topic: &Text,
    doc: &Text,
    grade: u8,
    out: &mut Vec<u8>,
) -> Result<(), Memory>
    requires topic { IsTrue (is_name topic.now) }
    requires doc { IsTrue (is_docno doc.now) }
    ensures { OnOk result
        (out.new.items ≡ out.old.items ++ (kind ∷ short topic.now ++ short doc.now ++ grade ∷ [])) }
{
    out.push(kind)?;
    put_short(topic, out)?;
    put_short(doc, out)?;
    Ok(out.push(grade)?)
}

#[tactic(auto, using(crate::proofs::ShortTexts::name_short))]
fn put_command(command: &Command, out: &mut Vec<u8>) -> Result<(), Memory>
    requires { IsTrue (is_plain command.now) }
    ensures { OnOk result (out.new.items ≡ out.old.items ++ command_bytes command.now) }
{
    match command {
        Command::Found { rules } => put_found(rules, out),
        Command::Topics { topics } => {
            out.push(TOPICS)?;
            put_items(topics, out)
        }
        Command::Submit { run, lists } => {
            out.push(SUBMIT)?;
            put_short(run, out)?;
            put_items(lists, out)
        }
        Command::Open => Ok(out.push(OPEN)?),
        Command::Lease { topic } => {
            out.push(LEASE)?;
            put_short(topic, out)
        }
        Command::Grade { lease, grade } => {
            out.push(GRADE)?;
            append(out, &lease.to_le_bytes())?;
            Ok(out.push(*grade)?)
        }
        Command::Release { lease } => {
            out.push(RELEASE)?;
            append(out, &lease.to_le_bytes())
        }
        Command::Amend { topic, doc, grade } => put_graded_doc(AMEND, topic, doc, *grade, out),
        Command::Rule { topic, doc, grade } => put_graded_doc(RULE, topic, doc, *grade, out),
        Command::Withdraw { run } => {
            out.push(WITHDRAW)?;
            put_short(run, out)
        }
        Command::Publish => Ok(out.push(PUBLISH)?),
    }
}

fn put_entry(core: &EntryCore, out: &mut Vec<u8>) -> Result<(), Memory>
    requires { IsTrue (has_spelling core.now) }
    ensures { OnOk result (out.new.items ≡ out.old.items ++ entry_bytes core.now) }
{
    put_caller(&core.caller, out)?;
    put_number(core.number, out)?;
    append(out, &core.moment.to_le_bytes())?;
    put_command(&core.command, out)
}

/// Appends the spelling of an entry, or leaves the bytes as they were.
pub fn write_entry(core: &EntryCore, out: &mut Vec<u8>) -> Result<(), Memory>
    requires { IsTrue (has_spelling core.now) }
    ensures text_added { OnOk result (out.new.items ≡ out.old.items ++ entry_bytes core.now) }
    ensures unchanged { OnErr result (out.new.items ≡ out.old.items) }
{
    // spelled apart first, so that nothing is appended where memory runs out
    let mut bytes = Vec::new(*out.allocator());
    put_entry(core, &mut bytes)?;
    append(out, bytes.as_slice())
}
