//! JSON objects without spaces, appended member by member, with a line feed behind. Where memory
//! is short the bytes stay as they were.
ghost use Rattle.std.specs.Prelude.{◌∷◌, ◌++◌, [], codes, map};
ghost use Rattle.decimal_rank.specs.Texts.Additions.{Adds};
ghost use Rattle.routes.specs.Bytes.{colon, quote};
ghost use Rattle.routes.specs.Json.MemberValues.{further_members, shown, shown_text, value_text};
ghost use Rattle.routes.specs.Json.Objects.{object};

use crate::answers::values::{Value, append_value};
use decimal_rank::{Memory, append, append_all};

/// A member of an object: its name, and its value.
pub(crate) type Member<'a> = (&'a str, Value<'a>);

/// Appends a name and a value behind these bytes.
fn append_named(
    out: &mut Vec<u8>,
    front: &[u8],
    name: &str,
    value: &Value<'_>,
) -> Result<(), Memory>
    ensures { Adds out.old out.new
        ((front.now ++ (quote ∷ (name.now ++ quote ∷ colon ∷ []))) ++ value_text value.now) result }
{
    let before = out.len();
    append_all(out, &[front, b"\"", name.as_bytes(), b"\":"])?;
    match append_value(out, value) {
        Ok(()) => Ok(()),
        Err(memory) => {
            out.truncate(before);
            Err(memory)
        }
    }
}

/// Appends a member behind these bytes.
fn append_member(out: &mut Vec<u8>, front: &[u8], member: &Member<'_>) -> Result<(), Memory>
    ensures { Adds out.old out.new (front.now ++ shown_text member.now) result }
{
    append_named(out, front, member.0, &member.1)
}

/// Appends members, each behind a comma, or leaves the bytes as they were.
#[tactic(auto, using(decimal_rank::proofs::GrowingBytes::ByteParts::part_fits, decimal_rank::proofs::GrowingBytes::ByteParts::part_added))]
fn append_others(out: &mut Vec<u8>, members: &[Member<'_>]) -> Result<(), Memory>
    ensures { Adds out.old out.new (further_members members.now) result }
{
    let before = out.len();
    let mut rest = members;
    while let [member, others @ ..] = rest {
        match append_member(out, b",", member) {
            Ok(()) => rest = others,
            Err(memory) => {
                out.truncate(before);
                return Err(memory);
            }
        }
    }
    Ok(())
}

/// Appends the first member behind a brace, and the others behind commas.
fn append_members(
    out: &mut Vec<u8>,
    first: &Member<'_>,
    others: &[Member<'_>],
) -> Result<(), Memory>
    ensures { Adds out.old out.new
        ((codes "{" ++ shown_text first.now) ++ further_members others.now) result }
{
    let before = out.len();
    append_member(out, b"{", first)?;
    match append_others(out, others) {
        Ok(()) => Ok(()),
        Err(memory) => {
            out.truncate(before);
            Err(memory)
        }
    }
}

/// Appends an object of a first member and others.
fn append_some(out: &mut Vec<u8>, first: &Member<'_>, others: &[Member<'_>]) -> Result<(), Memory>
    ensures { Adds out.old out.new
        (((codes "{" ++ shown_text first.now) ++ further_members others.now) ++ codes "}\n")
        result }
{
    let before = out.len();
    append_members(out, first, others)?;
    match append(out, b"}\n") {
        Ok(()) => Ok(()),
        Err(memory) => {
            out.truncate(before);
            Err(memory)
        }
    }
}

/// Appends the object of these members, or leaves the bytes as they were.
pub(crate) fn append_object(out: &mut Vec<u8>, members: &[Member<'_>]) -> Result<(), Memory>
    ensures { Adds out.old out.new (object (map shown members.now)) result }
{
    match members {
        [first, others @ ..] => append_some(out, first, others),
        [] => append(out, b"{}\n"),
    }
}
