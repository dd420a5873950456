//! The bodies of asks: a JSON object of `grade` alone, or of `doc` and `grade` alone, or the text
//! of a run, which becomes its ranked lists.
ghost use Rattle.std.specs.Prelude.{◌≡◌, ℕ, List, IfOk, option_and_then, option_map};
ghost use Rattle.serde_json.specs.View.{view};
ghost use Rattle.trec_formats.specs.Faults.{IfFault};
ghost use Rattle.trec_formats.specs.RunFormat.Lists.{IsRankedRun, IsRankedRunFault};
ghost use Rattle.trec_formats.specs.RunFormat.RunStates.{IsAfter};
ghost use Rattle.routes.specs.Json.Bodies.{doc_at, grade_at, grade_in, has_members, json_of, judgement_in};
ghost use Rattle.routes.specs.AskReading.FoundJudgements.{judgement_shown};

use decimal_rank::{Memory, Text};
use serde_json::Value;
use std::alloc::Global;
use trec_formats::{FormatEnd, RunReader, TopicList, is_docno};

/// The greatest grade that rules may have.
const MAX_TOP_GRADE: u64 = 255;

/// A document and its grade.
#[derive(Drop)]
pub(crate) struct Judgement {
    pub(crate) doc: Text,
    pub(crate) grade: u8,
}

/// The value of a JSON text.
#[tactic(auto, using(crate::proofs::JsonBodies::TextMatches::value_read, crate::proofs::JsonBodies::TextMatches::no_value))]
fn read_json(alloc: Global, body: &[u8]) -> Result<Option<Value>, Memory>
    ensures { IfOk result (λ found. option_map view found ≡ json_of body.now) }
{
    match Value::from_slice(alloc, body) {
        Ok(value) => Ok(Some(value)),
        Err(error) if error.is_memory() => Err(Memory),
        Err(_) => Ok(None),
    }
}

#[tactic(auto, using(crate::proofs::JsonBodies::Members::counted, crate::proofs::JsonBodies::Members::uncounted))]
fn has_members(value: &Value, count: usize) -> bool
    ensures { result ≡ has_members count (view value.now) }
{
    match value.as_object() {
        Some(members) => members.len() == count,
        None => false,
    }
}

fn grade_at(value: &Value) -> Option<u8>
    ensures { result ≡ grade_at (view value.now) }
{
    let grade = value.get("grade").and_then(Value::as_u64)?;
    if grade <= MAX_TOP_GRADE {
        Some(grade as u8)
    } else {
        None
    }
}

fn doc_at(value: &Value) -> Option<&[u8]>
    ensures { option_map (λ doc. doc.now) result ≡ doc_at (view value.now) }
{
    let doc = value.get("doc").and_then(Value::as_str)?.as_bytes();
    if is_docno(doc) { Some(doc) } else { None }
}

fn grade_in(value: &Value) -> Option<u8>
    ensures { result ≡ grade_in (view value.now) }
{
    if has_members(value, 1) {
        grade_at(value)
    } else {
        None
    }
}

/// The grade that a body gives, alone.
pub(crate) fn read_grade(alloc: Global, body: &[u8]) -> Result<Option<u8>, Memory>
    ensures { IfOk result (λ grade. grade ≡ option_and_then grade_in (json_of body.now)) }
{
    match read_json(alloc, body)? {
        Some(value) => Ok(grade_in(&value)),
        None => Ok(None),
    }
}

fn copy_judgement(alloc: Global, doc: &[u8], grade: u8) -> Result<Judgement, Memory>
    ensures { IfOk result
        (λ judgement. judgement_shown judgement ≡ record { doc = doc.now; grade = grade }) }
{
    Ok(Judgement {
        doc: Text::from_slice(alloc, doc)?,
        grade,
    })
}

fn judgement_at(alloc: Global, value: &Value) -> Result<Option<Judgement>, Memory>
    ensures { IfOk result
        (λ found. option_map judgement_shown found ≡ judgement_in (view value.now)) }
{
    if !has_members(value, 2) {
        return Ok(None);
    }
    match (doc_at(value), grade_at(value)) {
        (Some(doc), Some(grade)) => Ok(Some(copy_judgement(alloc, doc, grade)?)),
        _ => Ok(None),
    }
}

/// The document and the grade that a body gives, alone.
pub(crate) fn read_judgement(alloc: Global, body: &[u8]) -> Result<Option<Judgement>, Memory>
    ensures { IfOk result (λ found. option_map judgement_shown found
        ≡ option_and_then judgement_in (json_of body.now)) }
{
    match read_json(alloc, body)? {
        Some(value) => judgement_at(alloc, &value),
        None => Ok(None),
    }
}

/// The ranked lists of a run that was read.
pub(crate) fn rank_read(alloc: Global, reader: RunReader) -> Result<Vec<TopicList>, FormatEnd>
    ensures lists { IfOk result (λ lists. (body : List ℕ) → IsAfter body reader
        → IsRankedRun body lists.items) }
    ensures fault { IfFault result (λ fault. (body : List ℕ) → IsAfter body reader
        → IsRankedRunFault body fault) }
{
    reader.finish_lists()
}
