//! Requests, row by row: the columns of each (`requests`), and behind `=>` what is asked, in words,
//! or how the answer to its first fault ends.
use crate::callers::keys;
use crate::readings::{Reading, readings};
use crate::requests::request;
use decimal_rank::{Memory, Text};
use http_wire::HttpRequest;
use routes::{Answered, Keys, render};
use rulebook::{Ask, Caller, Command, Query};
use std::alloc::Global;
use std::process::Abort;
use std::test::Fail;
use trec_formats::{Docnos, Topic, TopicList};

/// Bodies of topics and of runs.
const TEXTS: &str =
    r#"POST /topics o - <top>|<num> Number: 401|<title> pooling|</top>| => org topics 401 pooling
POST /topics o - <top>| => {"kind":"tag","line":2,"refusal":"format"}
POST /runs/X g - 1 Q0 a 1 3 X|1 Q0 b 2 2 X|1 Q0 e 3 1 X| => grp submit X 1 1 a b e
POST /runs/X g - 1 Q0 a 1 2 X|1 Q0 b 2 3 X| => grp submit X 1 1 b a
POST /runs/X g - 1 Q0 a 1 2 X|1 Q0 a 2 3 X| => {"first":1,"kind":"twice","line":2,"refusal":"format"}
POST /runs/X g - 1 Q0 a 1 2 X|1 Q0 b 2 1e401 X| => {"cause":"exponent","kind":"score","line":2,"refusal":"format"}
POST /runs/X g - 1 Q0 a 1 2| => {"kind":"fields","line":1,"refusal":"format"}
POST /runs/X g - 1 Q0 a 1 3 X|1 Q0 b 2 2|1 Q0 e 3 1 X| => {"kind":"fields","line":2,"refusal":"format"}
POST /runs/X g - 1 Q0 ^ 1 3 X| => {"kind":"docno","line":1,"refusal":"format"}
POST /runs/X g - 1~Q0~~a 1~3 X => grp submit X 1 1 a
POST /runs/X g - - => {"kind":"empty","line":0,"refusal":"format"}"#;

/// Bodies that are objects, and some that have to be empty.
const OBJECTS: &str = r#"POST /leases/1/grade a - {"grade":2} => ann grade 1 2
POST /leases/1/grade a - {"gr\u0061de":2} => ann grade 1 2
POST /leases/1/grade a - {"grade":300,"grade":2} => ann grade 1 2
POST /leases/1/grade a - {"grade":1.0} => {"fault":"body"}
POST /leases/1/grade a - {"grade":256} => {"fault":"body"}
POST /leases/1/grade a - {"grade":-1} => {"fault":"body"}
POST /leases/1/grade a - {"grade":-0} => {"fault":"body"}
POST /leases/1/grade a - {"grade":1,"x":2} => {"fault":"body"}
POST /leases/1/grade a - [1] => {"fault":"body"}
POST /leases/1/grade a - [[[[[[[[[[[[[[[[[[[[[[[[[[[[[[[[[[[[[[[[[[[[[[[[[[[[[[[[[[[[[[[[[[[[[[[[[[[[[[[[[[[[[[[[[[[[[[[[[[[[[[[[[[[[[[[[[[[[[[[[[[[[[[[[[[[[[[[[[[[[[[[[[[[[[[[[[[[[[[[[[[[[[[[[[[[[[[[[[[[[[[[[[[[[[[[[[[[[[[[[ => {"fault":"body"}
POST /leases/1/grade a - - => {"fault":"body"}
POST /topics/1/amend a - {"doc":"a","grade":1} => ann amend 1 a 1
POST /topics/1/amend a - {"doc":"","grade":1} => {"fault":"body"}
POST /topics/1/amend a - {"doc":1,"grade":1} => {"fault":"body"}
POST /topics/1/rule o - {"grade":255,"doc":"a\"b"} => org rule 1 a"b 255
POST /open o - x => {"fault":"body"}
POST /runs/X/withdraw g - x => {"fault":"body"}"#;

/// Paths with their parameters and methods.
const PATHS: &str = r#"POST /open o - - => org open
POST /topics/1/lease a - - => ann lease 1
POST /leases/0/release a - - => ann release 0
POST /leases/0000000001/release a - - => ann release 1
POST /leases/00000000001/release a - - => {"fault":"route"}
POST /leases/4294967295/release a - - => ann release 4294967295
POST /leases/4294967296/release a - - => {"fault":"route"}
GET /topics/1/pool o - x => org pool 1
GET /topics/1/pool a - - => ann pool 1
GET /qrels o - - => org qrels
GET /runs/X/scores g 1 - => grp scores X
GET /table o - - => org table
GET /disagreements o - - => org disagreements
GET /progress o - - => org progress
POST /nope o - - => {"fault":"route"}
GET /table?x o - - => {"fault":"route"}
GET /topics/é/pool o - - => {"fault":"route"}
POST /runs/X/withdraw g - - => grp withdraw X
POST /runs/X/withdraw o - - => org withdraw X
POST /publish o - - => org publish
GET /releases/1/qrels o - - => org released qrels 1
GET /releases/2/scores a - - => ann released scores 2
GET /releases/1/scores g - - => grp released scores 1
GET /releases/4294967296/qrels o - - => {"fault":"route"}
GET /releases/1 o - - => {"fault":"route"}
PUT /open - - - => {"fault":"method"}"#;

/// Keys, roles and numbers.
const CALLERS: &str = r#"GET /topics/1/pool g - - => {"fault":"role"}
POST /runs/X/withdraw a - - => {"fault":"role"}
POST /publish g - - => {"fault":"role"}
POST /open - - - => {"fault":"key"}
POST /open z - - => {"fault":"key"}
POST /open o,o - - => {"fault":"key"}
POST /open a 1 - => {"fault":"role"}
POST /open o x x => {"fault":"number"}
POST /open o 1 x => {"fault":"body"}
POST /open o 1 - => org # 1 open
POST /open o 0 - => org # 0 open
POST /open o 0000000000000000007 - => org # 7 open
POST /open o 00000000000000000007 - => {"fault":"number"}
POST /open o 9223372036854775807 - => org # 9223372036854775807 open
POST /open o 9223372036854775808 - => {"fault":"number"}
POST /open o 9999999999999999999 - => {"fault":"number"}
POST /open o +1 - => {"fault":"number"}
POST /open o 1,1 - => {"fault":"number"}
GET /qrels o 1,x - => org qrels"#;

fn tell(told: &mut Vec<u8>, word: &[u8]) -> Result<(), Memory> {
    told.push(b' ')?;
    told.extend_from_slice(word)?;
    Ok(())
}

fn tell_number(told: &mut Vec<u8>, number: u32) -> Result<(), Memory> {
    let mut digits = itoa::Buffer::new();
    tell(told, digits.format(number).as_bytes())
}

/// The number of a command behind `#`, where it has one.
fn tell_numbered(told: &mut Vec<u8>, number: Option<u64>) -> Result<(), Memory> {
    let Some(number) = number else {
        return Ok(());
    };
    let mut digits = itoa::Buffer::new();
    tell(told, b"#")?;
    tell(told, digits.format(number).as_bytes())
}

fn tell_topics(told: &mut Vec<u8>, topics: &[Topic]) -> Result<(), Memory> {
    tell(told, b"topics")?;
    for topic in topics {
        tell(told, topic.id.bytes())?;
        tell(told, topic.title.bytes())?;
    }
    Ok(())
}

fn tell_docs(told: &mut Vec<u8>, docs: &Docnos) -> Result<(), Memory> {
    for place in 0..docs.len() {
        tell(told, docs.at(place))?;
    }
    Ok(())
}

fn tell_lists(told: &mut Vec<u8>, run: &[u8], lists: &[TopicList]) -> Result<(), Memory> {
    tell(told, b"submit")?;
    tell(told, run)?;
    for list in lists {
        tell(told, list.topic.bytes())?;
        tell_number(told, list.line)?;
        tell_docs(told, &list.docs)?;
    }
    Ok(())
}

fn tell_judgement<'x>(
    told: &mut Vec<u8>,
    word: &'x [u8],
    topic: &'x [u8],
    doc: &'x [u8],
    grade: u8,
) -> Result<(), Memory> {
    tell(told, word)?;
    tell(told, topic)?;
    tell(told, doc)?;
    tell_number(told, u32::from(grade))
}

fn tell_lease(told: &mut Vec<u8>, word: &[u8], lease: u32) -> Result<(), Memory> {
    tell(told, word)?;
    tell_number(told, lease)
}

fn tell_named(told: &mut Vec<u8>, word: &[u8], name: &[u8]) -> Result<(), Memory> {
    tell(told, word)?;
    tell(told, name)
}

fn tell_grade(told: &mut Vec<u8>, lease: u32, grade: u8) -> Result<(), Memory> {
    tell_lease(told, b"grade", lease)?;
    tell_number(told, u32::from(grade))
}

fn tell_command(told: &mut Vec<u8>, command: &Command) -> Result<(), Memory> {
    match command {
        Command::Topics { topics } => tell_topics(told, topics.items()),
        Command::Submit { run, lists } => tell_lists(told, run.bytes(), lists.items()),
        Command::Open => tell(told, b"open"),
        Command::Lease { topic } => tell_named(told, b"lease", topic.bytes()),
        Command::Grade { lease, grade } => tell_grade(told, *lease, *grade),
        Command::Release { lease } => tell_lease(told, b"release", *lease),
        Command::Amend { topic, doc, grade } => {
            tell_judgement(told, b"amend", topic.bytes(), doc.bytes(), *grade)
        }
        Command::Rule { topic, doc, grade } => {
            tell_judgement(told, b"rule", topic.bytes(), doc.bytes(), *grade)
        }
        Command::Withdraw { run } => tell_named(told, b"withdraw", run.bytes()),
        Command::Publish => tell(told, b"publish"),
        Command::Found { .. } => tell(told, b"found"),
    }
}

fn tell_query(told: &mut Vec<u8>, query: &Query) -> Result<(), Memory> {
    match query {
        Query::Pool { topic } => tell_named(told, b"pool", topic.bytes()),
        Query::Qrels => tell(told, b"qrels"),
        Query::Scores { run } => tell_named(told, b"scores", run.bytes()),
        Query::Table => tell(told, b"table"),
        Query::Disagreements => tell(told, b"disagreements"),
        Query::Progress => tell(told, b"progress"),
        Query::ReleaseQrels { release } => tell_lease(told, b"released qrels", *release),
        Query::ReleaseScores { release } => tell_lease(told, b"released scores", *release),
    }
}

fn tell_asked(told: &mut Vec<u8>, asked: &(Caller, Option<u64>, Ask)) -> Result<(), Memory> {
    told.extend_from_slice(asked.0.name.bytes())?;
    tell_numbered(told, asked.1)?;
    match &asked.2 {
        Ask::Act(command) => tell_command(told, command),
        Ask::See(query) => tell_query(told, query),
    }
}

/// A reading in words, or as the answer to its fault.
fn tell_reading(alloc: Global, reading: Reading) -> Result<Vec<u8>, Fail> {
    let mut told = Vec::new(alloc);
    match reading {
        Ok(asked) => tell_asked(&mut told, &asked)?,
        Err(fault) => render(&Answered::Route(fault), false, &mut told)?,
    }
    Ok(told)
}

/// What a request is read as, whole and in pieces of one byte, in words.
fn tell_readings(
    alloc: Global,
    request: HttpRequest,
    keys: &Keys,
) -> Result<(Vec<u8>, Vec<u8>), Fail> {
    let (whole, pieces) = readings(alloc, request, keys)?;
    Ok((tell_reading(alloc, whole)?, tell_reading(alloc, pieces)?))
}

/// Tries each row, read whole and in pieces.
fn try_rows(rt: &impl Abort, alloc: Global, rows: &str) -> Result<(), Fail> {
    let keys = keys(alloc)?;
    for row in rows.lines() {
        assert!(rt; is_told(alloc, &keys, row)?, "at {row}");
    }
    Ok(())
}

/// Whether a row's request is told as the row has it, read whole and in pieces.
fn is_told(alloc: Global, keys: &Keys, row: &str) -> Result<bool, Fail> {
    let (columns, want) = row.split_once(" => ").ok_or("no row")?;
    let (whole, pieces) = tell_readings(alloc, request(alloc, columns)?, keys)?;
    Ok(whole.trim_ascii_end().ends_with(want.as_bytes()) && pieces == whole)
}

#[test]
fn a_text_is_read_or_told_by_its_first_fault(rt: HostRuntime) -> Result<(), Fail> {
    try_rows(&rt, rt.alloc(), TEXTS)
}

#[test]
fn an_object_has_its_members_alone(rt: HostRuntime) -> Result<(), Fail> {
    try_rows(&rt, rt.alloc(), OBJECTS)
}

#[test]
fn a_path_leads_to_its_row(rt: HostRuntime) -> Result<(), Fail> {
    try_rows(&rt, rt.alloc(), PATHS)
}

#[test]
fn a_caller_has_a_key_a_role_and_a_number(rt: HostRuntime) -> Result<(), Fail> {
    try_rows(&rt, rt.alloc(), CALLERS)
}

/// A run of one line, whose second field has so many bytes.
fn long_run(alloc: Global, count: usize) -> Result<Text, Memory> {
    let mut bytes = Vec::new(alloc);
    bytes.extend_from_slice(b"1 ")?;
    for _ in 0..count {
        bytes.push(b'Q')?;
    }
    bytes.extend_from_slice(b" a 1 3 X\n")?;
    Ok(Text::new(bytes))
}

fn long_request(alloc: Global) -> Result<HttpRequest, Fail> {
    let mut request = request(alloc, "POST /runs/X g - -")?;
    request.body = long_run(alloc, 100_000)?;
    Ok(request)
}

/// Whether such a run is read like a short one, whole and in pieces.
fn is_long_read(alloc: Global, keys: &Keys) -> Result<bool, Fail> {
    let (whole, pieces) = tell_readings(alloc, long_request(alloc)?, keys)?;
    Ok(pieces.as_slice() == b"grp submit X 1 1 a".as_slice() && whole == pieces)
}

#[test]
fn a_field_of_a_run_may_be_long_that_is_not_looked_at(rt: HostRuntime) -> Result<(), Fail> {
    let keys = keys(rt.alloc())?;
    assert!(rt; is_long_read(rt.alloc(), &keys)?);
    Ok(())
}
