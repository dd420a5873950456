//! The status of each reply, refusal and fault.
ghost use Rattle.std.specs.Prelude.{◌≡◌, IsTrue};
ghost use Rattle.http_wire.specs.Answers.{is_status};
ghost use Rattle.routes.specs.Answers.{refusal_status, reply_status, route_status, success_status, wire_status};

use crate::faults::RouteFault;
use http_wire::WireFault;
use rulebook::{Refusal, Reply};

fn refusal_status(refusal: Refusal) -> u16
    ensures status { result ≡ refusal_status refusal }
    ensures known { IsTrue (is_status result) }
{
    match refusal {
        Refusal::UnknownTopic
        | Refusal::UnknownRun
        | Refusal::UnknownLease
        | Refusal::UnknownRelease => 404,
        Refusal::NotYours => 403,
        Refusal::TooMany { .. } => 429,
        Refusal::GradeRange | Refusal::LineTopic { .. } => 400,
        Refusal::WrongPhase { .. }
        | Refusal::TagTaken
        | Refusal::TopicsFixed
        | Refusal::NothingLeft
        | Refusal::Expired { .. }
        | Refusal::Ended
        | Refusal::NotLabelled
        | Refusal::Withdrawn
        | Refusal::Reused { .. }
        | Refusal::Limit { .. } => 409,
    }
}

pub(crate) fn reply_status(reply: &Reply, asked: bool) -> u16
    ensures status { result ≡ reply_status reply.now asked }
    ensures known { IsTrue (is_status result) }
{
    match reply {
        Reply::Refused(refusal) => refusal_status(*refusal),
        Reply::Done
        | Reply::Topics { .. }
        | Reply::Submitted { .. }
        | Reply::Leased { .. }
        | Reply::Graded { .. }
        | Reply::Pool { .. }
        | Reply::Page { .. } => success_status(asked),
    }
}

/// The status of a reply that is no refusal.
fn success_status(asked: bool) -> u16
    ensures status { result ≡ success_status asked }
    ensures known { IsTrue (is_status result) }
{
    if asked { 200 } else { 201 }
}

pub(crate) fn route_status(fault: RouteFault) -> u16
    ensures status { result ≡ route_status fault }
    ensures known { IsTrue (is_status result) }
{
    match fault {
        RouteFault::Route => 404,
        RouteFault::Method => 405,
        RouteFault::Key => 401,
        RouteFault::Role => 403,
        RouteFault::Number | RouteFault::Body | RouteFault::Format(_) => 400,
        RouteFault::Memory => 507,
    }
}

pub(crate) fn wire_status(fault: WireFault) -> u16
    ensures status { result ≡ wire_status fault }
    ensures known { IsTrue (is_status result) }
{
    match fault {
        WireFault::Head => 400,
        WireFault::Length => 411,
        WireFault::Body => 413,
        WireFault::HeadSize => 431,
        WireFault::Coding => 501,
    }
}
