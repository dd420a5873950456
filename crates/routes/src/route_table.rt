//! The table of the paths: 18 rows, each with a path, its method, its parameter, who may ask there,
//! and what is asked; and the command or the query that a row asks, by the path's parameter and the
//! body.
ghost use Rattle.std.specs.Prelude.{◌≡◌, ◌≤◌, ℕ, List, IsTrue, IfOk, length};
ghost use Rattle.rulebook.specs.declared.ask.Ask.TheVariants.{Act};
ghost use Rattle.routes.specs.declared.route_table.Question.TheVariants as question;
ghost use Rattle.routes.specs.Asks.{HasSoundTopics};
ghost use Rattle.routes.specs.Faults.{IsRead, fault_of};
ghost use Rattle.routes.specs.Limits.{most_body};
ghost use Rattle.routes.specs.PathTable.RouteTable.{Asks, IsRow, fits, is_path_number, may_ask, method_name, with_nothing};
ghost use Rattle.trec_formats.specs.RunFormat.RunStates.{IsAfter};

use crate::bodies::{rank_read, read_grade, read_judgement};
use crate::faults::RouteFault;
use crate::paths::path_number;
use Askers::{Assessors, Everyone, Groups, NotAssessors, NotGroups, Organisers};
use Method::{Get, Post};
use Parameter::{Name, Nothing, Number};
use Question::{
    Amend, Disagreements, Grade, Lease, Open, Pool, Progress, Publish, Qrels, Release,
    ReleaseQrels, ReleaseScores, Rule, Scores, Submit, Table, Topics, Withdraw,
};
use decimal_rank::{Rows, Text};
use rulebook::{Ask, Command, Query, Role};
use std::alloc::Global;
use trec_formats::{FormatEnd, RunReader, read_topics};

/// The method of a row.
#[derive(Clone, Copy, PartialEq, Eq)]
pub(crate) enum Method {
    Get,
    Post,
}

/// What the second part of a row's path is: a name, the number of a lease or a release, or no
/// parameter.
#[derive(Clone, Copy)]
pub(crate) enum Parameter {
    Nothing,
    Name,
    Number,
}

/// Whose role may ask what is asked at a row; two kinds are named by the third.
#[derive(Clone, Copy)]
pub(crate) enum Askers {
    Organisers,
    Groups,
    Assessors,
    NotGroups,
    NotAssessors,
    Everyone,
}

/// What is asked at a row.
#[derive(Clone, Copy)]
pub(crate) enum Question {
    Topics,
    Submit,
    Open,
    Lease,
    Grade,
    Release,
    Amend,
    Rule,
    Withdraw,
    Publish,
    Pool,
    Qrels,
    Scores,
    Table,
    Disagreements,
    Progress,
    ReleaseQrels,
    ReleaseScores,
}

/// A row of the table of the paths.
#[derive(Clone, Copy)]
pub(crate) struct Route {
    pub(crate) method: Method,
    pub(crate) parameter: Parameter,
    pub(crate) askers: Askers,
    pub(crate) question: Question,
}

pub(crate) type Row = (&'static str, Method, Parameter, Askers, Question);

/// The table: each path, its method, its parameter, and who may ask what there.
pub(crate) static ROWS: [Row; 18] = [
    ("/topics", Post, Nothing, Organisers, Topics),
    ("/runs/{run}", Post, Name, Groups, Submit),
    ("/open", Post, Nothing, Organisers, Open),
    ("/topics/{topic}/lease", Post, Name, Assessors, Lease),
    ("/leases/{lease}/grade", Post, Number, Assessors, Grade),
    ("/leases/{lease}/release", Post, Number, Assessors, Release),
    ("/topics/{topic}/amend", Post, Name, Assessors, Amend),
    ("/topics/{topic}/rule", Post, Name, Organisers, Rule),
    ("/runs/{run}/withdraw", Post, Name, NotAssessors, Withdraw),
    ("/publish", Post, Nothing, Organisers, Publish),
    ("/topics/{topic}/pool", Get, Name, NotGroups, Pool),
    ("/qrels", Get, Nothing, Organisers, Qrels),
    ("/runs/{run}/scores", Get, Name, NotAssessors, Scores),
    ("/table", Get, Nothing, Organisers, Table),
    ("/disagreements", Get, Nothing, Organisers, Disagreements),
    ("/progress", Get, Nothing, Organisers, Progress),
    (
        "/releases/{release}/qrels",
        Get,
        Number,
        Everyone,
        ReleaseQrels,
    ),
    (
        "/releases/{release}/scores",
        Get,
        Number,
        Everyone,
        ReleaseScores,
    ),
];

/// The method as a request has it.
pub(crate) fn method_name(method: Method) -> &'static [u8]
    ensures { result.now ≡ method_name method }
{
    match method {
        Method::Get => b"GET",
        Method::Post => b"POST",
    }
}

/// Whether a role is among those that may ask.
pub(crate) fn may_ask(role: Role, askers: Askers) -> bool
    ensures { result ≡ may_ask role askers }
{
    match askers {
        Askers::Organisers => matches!(role, Role::Organiser),
        Askers::Groups => matches!(role, Role::Group),
        Askers::Assessors => matches!(role, Role::Assessor),
        Askers::NotGroups => matches!(role, Role::Organiser | Role::Assessor),
        Askers::NotAssessors => matches!(role, Role::Group | Role::Organiser),
        Askers::Everyone => true,
    }
}

/// The fault of a text that isn't of its format.
fn fault_of(end: FormatEnd) -> RouteFault
    ensures { result ≡ fault_of end }
{
    match end {
        FormatEnd::Fault(fault) => RouteFault::Format(fault),
        FormatEnd::Memory => RouteFault::Memory,
    }
}

fn ask_topics(alloc: Global, body: &[u8]) -> Result<Ask, RouteFault>
    requires { length body.now ≤ most_body }
    ensures ask { (text : List ℕ) → IsRead (Asks question.Topics text body.now) result }
    ensures sound { IfOk result HasSoundTopics }
{
    match read_topics(alloc, body) {
        Ok(topics) => Ok(Ask::Act(Command::Topics {
            topics: Rows::new(topics),
        })),
        Err(end) => Err(fault_of(end)),
    }
}

fn ask_submit(alloc: Global, run: &[u8], body: &[u8]) -> Result<Ask, RouteFault>
    requires { length body.now ≤ most_body }
    ensures { IsRead (Asks question.Submit run.now body.now) result }
{
    let mut reader = RunReader::new(alloc);
    reader.feed(body)?;
    ask_run(alloc, run, reader)
}

/// The command of a run whose body was fed to a reader.
pub(crate) fn ask_run(alloc: Global, run: &[u8], reader: RunReader) -> Result<Ask, RouteFault>
    ensures { (body : List ℕ) → IsAfter body reader
        → IsRead (Asks question.Submit run.now body) result }
{
    match rank_read(alloc, reader) {
        Ok(lists) => Ok(Ask::Act(Command::Submit {
            run: Text::from_slice(alloc, run)?,
            lists: Rows::new(lists),
        })),
        Err(end) => Err(fault_of(end)),
    }
}

/// The command of an empty body.
fn with_nothing(body: &[u8], command: Command) -> Result<Ask, RouteFault>
    ensures { IsRead (λ told. told ≡ with_nothing body.now (Act command)) result }
{
    if body.is_empty() {
        Ok(Ask::Act(command))
    } else {
        Err(RouteFault::Body)
    }
}

fn ask_lease(alloc: Global, topic: &[u8], body: &[u8]) -> Result<Ask, RouteFault>
    ensures { IsRead (Asks question.Lease topic.now body.now) result }
{
    let topic = Text::from_slice(alloc, topic)?;
    with_nothing(body, Command::Lease { topic })
}

fn ask_grade(alloc: Global, text: &[u8], body: &[u8]) -> Result<Ask, RouteFault>
    requires { IsTrue (is_path_number text.now) }
    ensures { IsRead (Asks question.Grade text.now body.now) result }
{
    let lease = path_number(text);
    match read_grade(alloc, body)? {
        Some(grade) => Ok(Ask::Act(Command::Grade { lease, grade })),
        None => Err(RouteFault::Body),
    }
}

fn ask_release(text: &[u8], body: &[u8]) -> Result<Ask, RouteFault>
    requires { IsTrue (is_path_number text.now) }
    ensures { IsRead (Asks question.Release text.now body.now) result }
{
    let lease = path_number(text);
    with_nothing(body, Command::Release { lease })
}

fn ask_amend(alloc: Global, topic: &[u8], body: &[u8]) -> Result<Ask, RouteFault>
    ensures { IsRead (Asks question.Amend topic.now body.now) result }
{
    match read_judgement(alloc, body)? {
        Some(given) => Ok(Ask::Act(Command::Amend {
            topic: Text::from_slice(alloc, topic)?,
            doc: given.doc,
            grade: given.grade,
        })),
        None => Err(RouteFault::Body),
    }
}

fn ask_rule(alloc: Global, topic: &[u8], body: &[u8]) -> Result<Ask, RouteFault>
    ensures { IsRead (Asks question.Rule topic.now body.now) result }
{
    match read_judgement(alloc, body)? {
        Some(given) => Ok(Ask::Act(Command::Rule {
            topic: Text::from_slice(alloc, topic)?,
            doc: given.doc,
            grade: given.grade,
        })),
        None => Err(RouteFault::Body),
    }
}

fn ask_withdraw(alloc: Global, run: &[u8], body: &[u8]) -> Result<Ask, RouteFault>
    ensures { IsRead (Asks question.Withdraw run.now body.now) result }
{
    let run = Text::from_slice(alloc, run)?;
    with_nothing(body, Command::Withdraw { run })
}

fn ask_pool(alloc: Global, topic: &[u8]) -> Result<Ask, RouteFault>
    ensures { (body : List ℕ) → IsRead (Asks question.Pool topic.now body) result }
{
    let topic = Text::from_slice(alloc, topic)?;
    Ok(Ask::See(Query::Pool { topic }))
}

fn ask_scores(alloc: Global, run: &[u8]) -> Result<Ask, RouteFault>
    ensures { (body : List ℕ) → IsRead (Asks question.Scores run.now body) result }
{
    let run = Text::from_slice(alloc, run)?;
    Ok(Ask::See(Query::Scores { run }))
}

/// What is asked at a row, by the parameter of its path and the body.
pub(crate) fn ask_at(
    alloc: Global,
    place: Route,
    text: &[u8],
    body: &[u8],
) -> Result<Ask, RouteFault>
    requires known { IsRow place }
    requires fitting { IsTrue (fits place.parameter text.now) }
    requires few { length body.now ≤ most_body }
    ensures ask { IsRead (Asks place.question text.now body.now) result }
    ensures sound { place.question ≡ question.Topics → IfOk result HasSoundTopics }
{
    match place.question {
        Question::Topics => ask_topics(alloc, body),
        Question::Submit => ask_submit(alloc, text, body),
        Question::Open => with_nothing(body, Command::Open),
        Question::Lease => ask_lease(alloc, text, body),
        Question::Grade => ask_grade(alloc, text, body),
        Question::Release => ask_release(text, body),
        Question::Amend => ask_amend(alloc, text, body),
        Question::Rule => ask_rule(alloc, text, body),
        Question::Withdraw => ask_withdraw(alloc, text, body),
        Question::Publish => with_nothing(body, Command::Publish),
        Question::Pool => ask_pool(alloc, text),
        Question::Qrels => Ok(Ask::See(Query::Qrels)),
        Question::Scores => ask_scores(alloc, text),
        Question::Table => Ok(Ask::See(Query::Table)),
        Question::Disagreements => Ok(Ask::See(Query::Disagreements)),
        Question::Progress => Ok(Ask::See(Query::Progress)),
        Question::ReleaseQrels => Ok(Ask::See(Query::ReleaseQrels {
            release: path_number(text),
        })),
        Question::ReleaseScores => Ok(Ask::See(Query::ReleaseScores {
            release: path_number(text),
        })),
    }
}
