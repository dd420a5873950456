//! What a refusal says, and what a fault says: members of an object.
ghost use Rattle.std.specs.Prelude.{◌≡◌, ◌∷◌, ◌<◌, ◌≤◌, ◌^◌, [], decimal, length, option_to_list};
ghost use Rattle.std.specs.Option.{option_map};
ghost use Rattle.decimal_rank.specs.Texts.Additions.{Adds};
ghost use Rattle.routes.specs.Answers.{faulty, format_members, kind_members, phase_name, quantity_name, refusal_members, refused, route_members, wire_members};
ghost use Rattle.routes.specs.Json.MemberValues.{shown};
ghost use Rattle.routes.specs.Json.Objects.{object};

use crate::answers::objects::{Member, append_object};
use crate::answers::values::Value;
use crate::faults::RouteFault;
use decimal_rank::Memory;
use http_wire::WireFault;
use rulebook::{Phase, Quantity, Refusal};
use trec_formats::{FormatFault, Kind, cause_name};

fn phase_name(phase: Phase) -> &'static [u8]
    ensures { result.now ≡ phase_name phase }
{
    match phase {
        Phase::Collecting => b"collecting",
        Phase::Judging => b"judging",
        Phase::Published => b"published",
    }
}

fn quantity_name(quantity: Quantity) -> &'static [u8]
    ensures { result.now ≡ quantity_name quantity }
{
    match quantity {
        Quantity::Topics => b"topics",
        Quantity::Runs => b"runs",
        Quantity::Lines => b"lines",
        Quantity::Docnos => b"docnos",
        Quantity::Entries => b"entries",
    }
}

/// The member that names a refusal.
fn refused(name: &'static [u8]) -> Member<'static>
    ensures { shown result ≡ refused name.now }
{
    ("refusal", Value::Word(name))
}

/// Appends what a refusal says that has its name alone.
fn write_name(out: &mut Vec<u8>, name: &'static [u8]) -> Result<(), Memory>
    ensures { Adds out.old out.new (object (refused name.now ∷ [])) result }
{
    append_object(out, &[refused(name)])
}

/// Appends what a refusal says that tells a number before its name.
fn write_number(
    out: &mut Vec<u8>,
    key: &'static str,
    number: u32,
    name: &'static [u8],
) -> Result<(), Memory>
    ensures adds { Adds out.old out.new
        (object ((key.now, decimal number) ∷ refused name.now ∷ [])) result }
    ensures small { number < 2 ^ 32 }
{
    append_object(
        out,
        &[(key, Value::Number(u64::from(number))), refused(name)],
    )
}

/// Appends what a refusal says.
#[tactic(auto, using(crate::proofs::AnswerTexts::AnswerSizes::refusal_few))]
pub(crate) fn write_refusal(out: &mut Vec<u8>, refusal: Refusal) -> Result<(), Memory>
    ensures adds { Adds out.old out.new (object (refusal_members refusal)) result }
    ensures few { length (object (refusal_members refusal)) ≤ 3000 }
{
    match refusal {
        Refusal::UnknownTopic => write_name(out, b"unknown-topic"),
        Refusal::UnknownRun => write_name(out, b"unknown-run"),
        Refusal::UnknownLease => write_name(out, b"unknown-lease"),
        Refusal::NotYours => write_name(out, b"not-yours"),
        Refusal::WrongPhase { phase } => {
            let phase = Value::Word(phase_name(phase));
            append_object(out, &[("phase", phase), refused(b"wrong-phase")])
        }
        Refusal::TagTaken => write_name(out, b"tag-taken"),
        Refusal::TopicsFixed => write_name(out, b"topics-fixed"),
        Refusal::NothingLeft => write_name(out, b"nothing-left"),
        Refusal::TooMany { live } => write_number(out, "live", live, b"too-many"),
        Refusal::Expired { until } => {
            append_object(out, &[refused(b"expired"), ("until", Value::Number(until))])
        }
        Refusal::Ended => write_name(out, b"ended"),
        Refusal::GradeRange => write_name(out, b"grade-range"),
        Refusal::NotLabelled => write_name(out, b"not-labelled"),
        Refusal::Withdrawn => write_name(out, b"withdrawn"),
        Refusal::Reused { entry } => write_number(out, "entry", entry, b"reused"),
        Refusal::Limit { which } => {
            let which = Value::Word(quantity_name(which));
            append_object(out, &[refused(b"limit"), ("which", which)])
        }
        Refusal::UnknownRelease => write_name(out, b"unknown-release"),
        Refusal::LineTopic { line } => write_number(out, "line", line, b"line-topic"),
    }
}

/// What the kind of a format fault tells beside its name.
#[tactic(auto, using(crate::proofs::AnswerTexts::AnswerSizes::kind_short))]
fn kind_member(kind: Kind) -> Option<Member<'static>>
    ensures member { option_to_list (option_map shown result) ≡ kind_members kind }
    ensures short { length (object (kind_members kind)) ≤ 60 }
{
    match kind {
        Kind::Score(cause) => Some(("cause", Value::Word(cause_name(cause)))),
        Kind::Twice { first } => Some(("first", Value::Number(u64::from(first)))),
        Kind::Fields
        | Kind::Topic
        | Kind::Docno
        | Kind::Grade
        | Kind::Empty
        | Kind::TooLong
        | Kind::Tag => None,
    }
}

/// Appends what a fault of a run's or of the topics' text says.
#[tactic(auto, using(crate::proofs::AnswerTexts::AnswerSizes::format_few))]
fn write_format(out: &mut Vec<u8>, fault: FormatFault) -> Result<(), Memory>
    ensures adds { Adds out.old out.new (object (format_members fault)) result }
    ensures few { length (object (format_members fault)) ≤ 3000 }
{
    let kind = ("kind", Value::Word(fault.kind.name()));
    let line = ("line", Value::Number(u64::from(fault.line)));
    let refusal = refused(b"format");
    match kind_member(fault.kind) {
        Some(beside) => append_object(out, &[beside, kind, line, refusal]),
        None => append_object(out, &[kind, line, refusal]),
    }
}

/// Appends what a fault says that has its name alone.
pub(crate) fn write_fault(out: &mut Vec<u8>, name: &'static [u8]) -> Result<(), Memory>
    ensures { Adds out.old out.new (object (faulty name.now ∷ [])) result }
{
    append_object(out, &[("fault", Value::Word(name))])
}

/// Appends what a fault of a request says.
pub(crate) fn write_route(out: &mut Vec<u8>, fault: RouteFault) -> Result<(), Memory>
    ensures adds { Adds out.old out.new (object (route_members fault)) result }
    ensures few { length (object (route_members fault)) ≤ 3000 }
{
    match fault {
        RouteFault::Route => write_fault(out, b"route"),
        RouteFault::Method => write_fault(out, b"method"),
        RouteFault::Key => write_fault(out, b"key"),
        RouteFault::Role => write_fault(out, b"role"),
        RouteFault::Number => write_fault(out, b"number"),
        RouteFault::Body => write_fault(out, b"body"),
        RouteFault::Format(fault) => write_format(out, fault),
        RouteFault::Memory => write_fault(out, b"memory"),
    }
}

/// Appends what is wrong with bytes that are no request.
pub(crate) fn write_wire(out: &mut Vec<u8>, fault: WireFault) -> Result<(), Memory>
    ensures adds { Adds out.old out.new (object (wire_members fault)) result }
    ensures few { length (object (wire_members fault)) ≤ 3000 }
{
    match fault {
        WireFault::Head => write_fault(out, b"head"),
        WireFault::Length => write_fault(out, b"length"),
        WireFault::Body => write_fault(out, b"body"),
        WireFault::HeadSize => write_fault(out, b"head-size"),
        WireFault::Coding => write_fault(out, b"coding"),
    }
}
