//! The texts of answers: replies, refusals and faults with their statuses and bodies, and whole
//! answers.
use decimal_rank::{Memory, Rows, Text};
use http_wire::WireFault;
use routes::{Answered, RouteFault, render};
use rulebook::{Phase, Quantity, Refusal, Reply};
use std::alloc::Global;
use std::test::Fail;

const SUBMITTED: &str = "\
HTTP/1.1 201 Created\r
Content-Type: application/json\r
Content-Length: 33\r
\r
{\"lines\":3,\"run\":\"X\",\"topics\":1}
";

const PAGE: &str = "\
HTTP/1.1 200 OK\r
Content-Type: text/plain\r
Content-Length: 6\r
Connection: close\r
\r
1 a 0
";

fn page(alloc: Global) -> Result<Answered, Memory> {
    let text = Text::from_slice(alloc, b"1 a 0\n")?;
    Ok(Answered::Reply {
        reply: Reply::Page { text },
        asked: true,
    })
}

fn submitted(alloc: Global) -> Result<Answered, Memory> {
    let run = Text::from_slice(alloc, b"X")?;
    Ok(Answered::Reply {
        reply: Reply::Submitted {
            run,
            topics: 1,
            lines: 3,
        },
        asked: false,
    })
}

#[test]
fn answers_are_written_whole(rt: HostRuntime) -> Result<(), Fail> {
    let alloc = rt.alloc();
    assert!(rt; is_written(alloc, &submitted(alloc)?, false, SUBMITTED)?);
    assert!(rt; is_written(alloc, &page(alloc)?, true, PAGE)?);
    Ok(())
}

fn is_written(alloc: Global, answer: &Answered, close: bool, text: &str) -> Result<bool, Memory> {
    let mut out = Vec::new(alloc);
    render(answer, close, &mut out)?;
    Ok(out.as_slice() == text.as_bytes())
}

/// Whether an answer begins with this status and has this end.
fn ends(alloc: Global, answer: &Answered, status: &str, end: &str) -> Result<bool, Memory> {
    let mut out = Vec::new(alloc);
    render(answer, false, &mut out)?;
    let written = out.as_slice();
    Ok(written.starts_with(status.as_bytes()) && written.ends_with(end.as_bytes()))
}

fn refused(refusal: Refusal) -> Answered {
    Answered::Reply {
        reply: Reply::Refused(refusal),
        asked: false,
    }
}

/// Each refusal with the answer's status and body.
const REFUSALS: [(Refusal, &str, &str); 8] = [
    (
        Refusal::NothingLeft,
        "HTTP/1.1 409 Conflict\r\n",
        "\r\n{\"refusal\":\"nothing-left\"}\n",
    ),
    (
        Refusal::Reused { entry: 6 },
        "HTTP/1.1 409 Conflict\r\n",
        "\r\n{\"entry\":6,\"refusal\":\"reused\"}\n",
    ),
    (
        Refusal::TooMany { live: 1 },
        "HTTP/1.1 429 Too Many Requests\r\n",
        "\r\n{\"live\":1,\"refusal\":\"too-many\"}\n",
    ),
    (
        Refusal::WrongPhase {
            phase: Phase::Judging,
        },
        "HTTP/1.1 409 Conflict\r\n",
        "\r\n{\"phase\":\"judging\",\"refusal\":\"wrong-phase\"}\n",
    ),
    (
        Refusal::Expired { until: 1600 },
        "HTTP/1.1 409 Conflict\r\n",
        "\r\n{\"refusal\":\"expired\",\"until\":1600}\n",
    ),
    (
        Refusal::Limit {
            which: Quantity::Docnos,
        },
        "HTTP/1.1 409 Conflict\r\n",
        "\r\n{\"refusal\":\"limit\",\"which\":\"docnos\"}\n",
    ),
    (
        Refusal::LineTopic { line: 2 },
        "HTTP/1.1 400 Bad Request\r\n",
        "\r\n{\"line\":2,\"refusal\":\"line-topic\"}\n",
    ),
    (
        Refusal::UnknownLease,
        "HTTP/1.1 404 Not Found\r\n",
        "\r\n{\"refusal\":\"unknown-lease\"}\n",
    ),
];

#[test]
fn refusals_are_told_with_their_status(rt: HostRuntime) -> Result<(), Fail> {
    for (refusal, status, end) in &REFUSALS {
        assert!(rt;
            ends(rt.alloc(), &refused(*refusal), status, end)?,
            "at {end}"
        );
    }
    Ok(())
}

fn leased(alloc: Global) -> Result<Answered, Memory> {
    let topic = Text::from_slice(alloc, b"1")?;
    let doc = Text::from_slice(alloc, b"a\"b\\c")?;
    let title = Text::from_slice(alloc, b"a \"title\"")?;
    Ok(Answered::Reply {
        reply: Reply::Leased {
            lease: 1,
            topic,
            doc,
            until: 1600,
            title,
        },
        asked: false,
    })
}

fn graded(alloc: Global) -> Result<Answered, Memory> {
    let topic = Text::from_slice(alloc, b"1")?;
    let doc = Text::from_slice(alloc, b"a")?;
    Ok(Answered::Reply {
        reply: Reply::Graded {
            topic,
            doc,
            grade: 0,
        },
        asked: false,
    })
}

fn pool(alloc: Global) -> Result<Answered, Memory> {
    let mut docs = Vec::new(alloc);
    docs.push(Text::from_slice(alloc, b"a")?)?;
    docs.push(Text::from_slice(alloc, b"b\"")?)?;
    let topic = Text::from_slice(alloc, b"1")?;
    Ok(Answered::Reply {
        reply: Reply::Pool {
            topic,
            docs: Rows::new(docs),
        },
        asked: true,
    })
}

#[test]
fn replies_are_objects(rt: HostRuntime) -> Result<(), Fail> {
    let alloc = rt.alloc();
    assert!(rt;
        ends(
            alloc,
            &leased(alloc)?,
            "HTTP/1.1 201 Created\r\n",
            "\r\n{\"doc\":\"a\\\"b\\\\c\",\"lease\":1,\"title\":\"a \\\"title\\\"\",\"topic\":\"1\",\"until\":1600}\n"
        )?
    );
    assert!(rt;
        ends(
            alloc,
            &graded(alloc)?,
            "HTTP/1.1 201 Created\r\n",
            "\r\n{\"doc\":\"a\",\"grade\":0,\"topic\":\"1\"}\n"
        )?
    );
    assert!(rt;
        ends(
            alloc,
            &pool(alloc)?,
            "HTTP/1.1 200 OK\r\n",
            "\r\n{\"docs\":[\"a\",\"b\\\"\"],\"topic\":\"1\"}\n"
        )?
    );
    Ok(())
}

#[test]
fn faults_are_told_with_their_status(rt: HostRuntime) -> Result<(), Fail> {
    let alloc = rt.alloc();
    assert!(rt;
        ends(
            alloc,
            &Answered::Wire(WireFault::HeadSize),
            "HTTP/1.1 431 Request Header Fields Too Large\r\n",
            "\r\n{\"fault\":\"head-size\"}\n"
        )?
    );
    assert!(rt;
        ends(
            alloc,
            &Answered::DiskFault,
            "HTTP/1.1 503 Service Unavailable\r\n",
            "\r\n{\"fault\":\"disk\"}\n"
        )?
    );
    assert!(rt;
        ends(
            alloc,
            &Answered::Memory,
            "HTTP/1.1 507 Insufficient Storage\r\n",
            "\r\n{\"fault\":\"memory\"}\n"
        )?
    );
    assert!(rt;
        ends(
            alloc,
            &Answered::Route(RouteFault::Key),
            "HTTP/1.1 401 Unauthorized\r\n",
            "\r\n{\"fault\":\"key\"}\n"
        )?
    );
    Ok(())
}
