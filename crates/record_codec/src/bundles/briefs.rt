//! What a bundle has of a command: whether it may have it, its texts, and the command with indices
//! in their place.
ghost use Rattle.std.specs.Prelude.{◌≡◌, ◌&&◌, ◌+◌, ◌++◌, ◌<◌, ◌∷◌, ◌^◌, [], IsTrue, OnOk, bytes_eq, length, nat_lt};
ghost use Rattle.std.specs.List.{fold};
ghost use Rattle.trec_formats.specs.Names.{is_docno, is_name};
ghost use Rattle.rulebook.specs.Spelling.{is_plain};
ghost use Rattle.record_codec.specs.Bundles.{brief_bytes, brief_of, is_brief, texts_in};
ghost use Rattle.record_codec.specs.Tables.{with_use};
ghost use Rattle.record_codec.specs.Varints.{varint};

use crate::bundles::bundle_items::Brief;
use crate::bundles::bundle_tables::{add_use, index};
use crate::bundles::varints::put_varint;
use crate::layout::{AMEND, GRADE, LEASE, LEASE_BOUND, OPEN, PUBLISH, RELEASE, RULE, WITHDRAW};
use decimal_rank::{Memory, Names, Text};
use rulebook::Command;
use std::alloc::Global;
use trec_formats::{is_docno, is_name};

/// Whether a bundle may have a command.
pub fn is_brief(command: &Command) -> bool
    ensures { result ≡ is_brief command.now }
{
    match command {
        Command::Found { .. } | Command::Topics { .. } | Command::Submit { .. } => false,
        Command::Open
        | Command::Lease { .. }
        | Command::Grade { .. }
        | Command::Release { .. }
        | Command::Amend { .. }
        | Command::Rule { .. }
        | Command::Withdraw { .. }
        | Command::Publish => true,
    }
}

/// Whether a command is one that a bundle has, with names and docnos that are such.
pub(crate) fn is_plain_brief(command: &Command) -> bool
    ensures { result ≡ (is_plain command.now && is_brief command.now) }
{
    match command {
        Command::Found { .. } | Command::Topics { .. } | Command::Submit { .. } => false,
        Command::Open | Command::Publish => true,
        Command::Lease { topic } => is_name(topic.bytes()),
        Command::Grade { lease, grade } => is_graded_lease(*lease, *grade),
        Command::Release { lease } => is_lease(*lease),
        Command::Amend { topic, doc, grade } => is_graded_doc(topic, doc, *grade),
        Command::Rule { topic, doc, grade } => is_graded_doc(topic, doc, *grade),
        Command::Withdraw { run } => is_name(run.bytes()),
    }
}

/// Adds the texts that a command uses.
pub(crate) fn add_texts(texts: &mut Names, alloc: Global, command: &Command) -> Result<(), Memory>
    requires { length texts.old + 2 < 2 ^ 32 }
    ensures { OnOk result (texts.new ≡ fold (with_use bytes_eq) texts.old (texts_in command.now)) }
{
    match command {
        Command::Found { .. }
        | Command::Topics { .. }
        | Command::Submit { .. }
        | Command::Open
        | Command::Grade { .. }
        | Command::Release { .. }
        | Command::Publish => Ok(()),
        Command::Lease { topic } => add_use(texts, alloc, topic.bytes()),
        Command::Amend { topic, doc, .. } => add_both(texts, alloc, topic, doc),
        Command::Rule { topic, doc, .. } => add_both(texts, alloc, topic, doc),
        Command::Withdraw { run } => add_use(texts, alloc, run.bytes()),
    }
}

/// A command that a bundle may have, with indices in place of its texts.
pub(crate) fn brief_of(command: &Command, texts: &Names) -> Brief
    requires { IsTrue (is_brief command.now) }
    ensures { result ≡ brief_of texts.now command.now }
{
    match command {
        Command::Found { .. } | Command::Topics { .. } | Command::Submit { .. } => unreachable!(),
        Command::Open => Brief::Open,
        Command::Lease { topic } => Brief::Lease {
            topic: index(texts, topic.bytes()),
        },
        Command::Grade { lease, grade } => Brief::Grade {
            lease: *lease,
            grade: *grade,
        },
        Command::Release { lease } => Brief::Release { lease: *lease },
        Command::Amend { topic, doc, grade } => Brief::Amend {
            topic: index(texts, topic.bytes()),
            doc: index(texts, doc.bytes()),
            grade: *grade,
        },
        Command::Rule { topic, doc, grade } => Brief::Rule {
            topic: index(texts, topic.bytes()),
            doc: index(texts, doc.bytes()),
            grade: *grade,
        },
        Command::Withdraw { run } => Brief::Withdraw {
            run: index(texts, run.bytes()),
        },
        Command::Publish => Brief::Publish,
    }
}

/// The kind and the fields of a command.
pub(crate) fn put_brief(command: Brief, out: &mut Vec<u8>) -> Result<(), Memory>
    ensures { OnOk result (out.new.items ≡ out.old.items ++ brief_bytes command) }
{
    match command {
        Brief::Open => Ok(out.push(OPEN)?),
        Brief::Lease { topic } => put_kind(LEASE, topic, out),
        Brief::Grade { lease, grade } => {
            put_kind(GRADE, lease as u64, out)?;
            Ok(out.push(grade)?)
        }
        Brief::Release { lease } => put_kind(RELEASE, lease as u64, out),
        Brief::Amend { topic, doc, grade } => put_graded(AMEND, topic, doc, grade, out),
        Brief::Rule { topic, doc, grade } => put_graded(RULE, topic, doc, grade, out),
        Brief::Withdraw { run } => put_kind(WITHDRAW, run, out),
        Brief::Publish => Ok(out.push(PUBLISH)?),
    }
}

/// Each lease number and each grade that the types hold may be spelled; these two tests cost
/// nothing.
fn is_lease(lease: u32) -> bool
    ensures { result ≡ nat_lt lease (2 ^ 32) }
{
    (lease as u64) < LEASE_BOUND
}

fn is_grade(grade: u8) -> bool
    ensures { result ≡ nat_lt grade 256 }
{
    (grade as u32) < 256
}

fn is_graded_lease(lease: u32, grade: u8) -> bool
    ensures { result ≡ (nat_lt lease (2 ^ 32) && nat_lt grade 256) }
{
    is_lease(lease) && is_grade(grade)
}

fn is_graded_doc(topic: &Text, doc: &Text, grade: u8) -> bool
    ensures { result ≡ (is_name topic.now && is_docno doc.now && nat_lt grade 256) }
{
    is_name(topic.bytes()) && is_docno(doc.bytes()) && is_grade(grade)
}

fn add_both(texts: &mut Names, alloc: Global, first: &Text, second: &Text) -> Result<(), Memory>
    requires { length texts.old + 2 < 2 ^ 32 }
    ensures { OnOk result
        (texts.new ≡ with_use bytes_eq (with_use bytes_eq texts.old first.now) second.now) }
{
    add_use(texts, alloc, first.bytes())?;
    add_use(texts, alloc, second.bytes())
}

/// A kind and the number behind it.
fn put_kind(kind: u8, number: u64, out: &mut Vec<u8>) -> Result<(), Memory>
    ensures { OnOk result (out.new.items ≡ out.old.items ++ kind ∷ varint number) }
{
    out.push(kind)?;
    put_varint(number, out)
}

/// A kind, a topic, a document and its grade.
fn put_graded(kind: u8, topic: u64, doc: u64, grade: u8, out: &mut Vec<u8>) -> Result<(), Memory>
    ensures { OnOk result
        (out.new.items ≡ out.old.items ++ kind ∷ varint topic ++ (varint doc ++ grade ∷ [])) }
{
    put_kind(kind, topic, out)?;
    put_varint(doc, out)?;
    Ok(out.push(grade)?)
}
