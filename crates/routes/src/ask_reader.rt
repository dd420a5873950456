//! A request read as its body comes. Who asks and where is read of the head alone; a run's body
//! goes to its reader, the body of a GET is passed over, and another one is gathered.
ghost use Rattle.std.specs.Prelude.{◌≡◌, ◌≤◌, ◌+◌, ◌++◌, ℕ, List, [], IsTrue, IfOk, OnOk, OnErr, IsErr, Ok, Err, Result, length};
ghost use Rattle.http_wire.specs.Messages.{request_with};
ghost use Rattle.routes.specs.declared.keys.KeyRow.{KeyRow};
ghost use Rattle.routes.specs.declared.route_table.Question.TheVariants as question;
ghost use Rattle.routes.specs.AskReading.AskStates.{BeginsBody, BodyHasRoom, HasAskFailed, IsAddressable, IsAskAt, IsAskHeld, IsAskOpened, IsAsking, IsFew, KeepsBody, MayGo, SuitsBody};
ghost use Rattle.routes.specs.Asks.{HasSoundTopics, Reads, ReadsBehind};
ghost use Rattle.routes.specs.Faults.{IsRead};
ghost use Rattle.routes.specs.Limits.{most_body};
ghost use Rattle.routes.specs.AskReading.FoundOpenings.{opening_shown};
ghost use Rattle.routes.specs.Openings.{Opening as SeenOpening, opening_of};
ghost use Rattle.routes.specs.PathTable.RouteTable.{Asks, IsRow, fits, may_ask, parameter};
ghost use Rattle.rulebook.specs.Requests.Limits.{max_moment};
ghost use Rattle.rulebook.specs.Histories.Legal.{is_well_addressed};
ghost use Rattle.rulebook.specs.Spelling.{is_number};
ghost use Rattle.trec_formats.specs.Names.{is_name};
ghost use Rattle.trec_formats.specs.RunFormat.RunStates.{IsAfter};

use crate::faults::RouteFault;
use crate::keys::Keys;
use crate::openings::{Opening, read_opening};
use crate::paths::parameter;
use crate::route_table::{Method, Question, Route, ask_at, ask_run};
use crate::router::Paths;
use decimal_rank::{Memory, Text};
use http_wire::{HttpField, HttpHead};
use rulebook::{Ask, Caller};
use std::alloc::Global;
use std::marker::Model;
use trec_formats::RunReader;

/// What is kept of a body.
#[derive(Drop)]
enum Body {
    /// That of a GET, which asks a query, isn't looked at.
    Passed,
    /// The reader is large, so it lies apart.
    Run(Box<RunReader>),
    Gathered(Vec<u8>),
}

/// Who asks at which row, with which number and parameter, and what is kept of the body.
#[derive(Drop)]
struct Opened {
    who: Caller,
    number: Option<u64>,
    place: Route,
    text: Text,
    body: Body,
}

/// How far a request was read.
#[derive(Drop)]
enum AskProgress {
    Reads(Opened),
    /// The fault of its head.
    Faulty(RouteFault),
    /// There was no memory for its body.
    Failed,
}

/// A request that is read as its body comes. Contracts see how many bytes of the body were fed, and
/// what is kept of it.
pub struct AskReader {
    alloc: Global,
    progress: AskProgress,
    fed: usize,
}

impl Model for AskReader {
    ghost use Rattle.routes.specs.AskReading.AskStates.{AskFed, IsSound};

    ghost Value = { AskFed };

    ghost view = { λ reader. record { fed = reader.fed; progress = reader.progress } };

    ghost invariant = { λ reader. IsSound reader.fed reader.progress };
}

// a call of its own, so that no caller's proof takes a reader apart
impl Drop for AskReader {
    fn drop(self) {
        let AskReader {
            alloc: _,
            progress: _,
            fed: _,
        } = self;
    }
}

/// What is kept of a body of which nothing came so far: nothing of a GET.
fn begin_body(alloc: Global, place: Route) -> Result<Body, Memory>
    ensures { IfOk result (BeginsBody place) }
{
    match place.method {
        Method::Get => Ok(Body::Passed),
        Method::Post => begin_posted(alloc, place),
    }
}

/// The same at a POST: a run's body goes to its reader, and another one is gathered.
fn begin_posted(alloc: Global, place: Route) -> Result<Body, Memory>
    ensures { IfOk result (BeginsBody place) }
{
    if let Question::Submit = place.question {
        Ok(Body::Run(begin_run(alloc)?))
    } else {
        Ok(Body::Gathered(Vec::new(alloc)))
    }
}

/// The reader of a run of which nothing came so far.
#[inline(never)]
fn begin_run(alloc: Global) -> Result<Box<RunReader>, Memory>
    ensures after { IfOk result (λ reader. IsAfter [] reader.value) }
    ensures fed { IfOk result (λ reader. reader.value.fed ≡ 0) }
{
    Ok(Box::new(alloc, RunReader::new(alloc))?)
}

fn begin_opened(alloc: Global, opening: &Opening, path: &[u8]) -> Result<Opened, Memory>
    requires named { IsTrue (is_name opening.now.caller.now.name) }
    requires role { IsTrue (may_ask opening.now.caller.now.role opening.now.place.askers) }
    requires fitting { IsTrue (fits opening.now.place.parameter (parameter path.now)) }
    requires known { IsRow opening.now.place }
    requires number { IsTrue (is_number opening.now.number) }
    ensures opened { IfOk result (IsAskOpened (opening_shown opening.now) path.now []) }
    ensures addressable { IfOk result IsAddressable }
    ensures few { IfOk result (λ opened. IsFew 0 opened.body) }
{
    Ok(Opened {
        who: opening.caller.without_key()?,
        number: opening.number,
        place: opening.place,
        text: Text::from_slice(alloc, parameter(path))?,
        body: begin_body(alloc, opening.place)?,
    })
}

/// What a head comes to.
fn begin<'a>(
    alloc: Global,
    paths: &'a Paths,
    method: &'a [u8],
    path: &'a [u8],
    fields: &'a [HttpField],
    keys: &'a Keys,
) -> Result<AskProgress, Memory>
    ensures at { IfOk result
        (IsAskAt (opening_of method.now path.now fields.now keys.now) path.now []) }
    ensures held { IfOk result (IsAskHeld 0) }
{
    match read_opening(paths, method, path, fields, keys) {
        Ok(opening) => Ok(AskProgress::Reads(begin_opened(alloc, &opening, path)?)),
        Err(RouteFault::Memory) => Err(Memory),
        Err(fault) => Ok(AskProgress::Faulty(fault)),
    }
}

/// Keeps a piece of a body.
fn keep(body: &mut Body, piece: &[u8]) -> Result<(), Memory>
    requires { BodyHasRoom body.old (length piece.now) }
    ensures kept { OnOk result ((told : List ℕ) → KeepsBody told body.old
        → KeepsBody (told ++ piece.now) body.new) }
    ensures suits { OnOk result ((place : Route) → SuitsBody place body.old
        → SuitsBody place body.new) }
    ensures few { OnOk result ((fed : ℕ) → IsFew fed body.old
        → IsFew (fed + length piece.now) body.new) }
{
    match body {
        Body::Passed => Ok(()),
        Body::Run(reader) => reader.feed(piece),
        Body::Gathered(bytes) => {
            bytes.extend_from_slice(piece)?;
            Ok(())
        }
    }
}

/// Reads a piece of the body, where the head has no fault.
fn read_on(progress: &mut AskProgress, piece: &[u8]) -> Result<(), Memory>
    requires { MayGo progress.old (length piece.now) }
    ensures ok { OnOk result ((opening : Result SeenOpening RouteFault) (path body : List ℕ)
        → IsAskAt opening path body progress.old
        → IsAskAt opening path (body ++ piece.now) progress.new) }
    ensures err { OnErr result (progress.new ≡ AskProgress.Failed) }
    ensures stays { progress.old ≡ AskProgress.Failed → IsErr result }
    ensures held { (fed : ℕ) → IsAskHeld fed progress.old
        → IsAskHeld (fed + length piece.now) progress.new }
{
    match progress {
        AskProgress::Reads(opened) => match keep(&mut opened.body, piece) {
            Ok(()) => Ok(()),
            Err(Memory) => {
                *progress = AskProgress::Failed;
                Err(Memory)
            }
        },
        AskProgress::Faulty(_) => Ok(()),
        AskProgress::Failed => Err(Memory),
    }
}

/// What is asked at a row, by what is kept of the body.
fn ask_of(alloc: Global, place: Route, text: &[u8], body: Body) -> Result<Ask, RouteFault>
    requires known { IsRow place }
    requires fitting { IsTrue (fits place.parameter text.now) }
    requires suits { SuitsBody place body }
    requires few { IsFew most_body body }
    ensures ask { (told : List ℕ) → KeepsBody told body
        → IsRead (Asks place.question text.now told) result }
    ensures sound { place.question ≡ question.Topics → IfOk result HasSoundTopics }
{
    match body {
        Body::Passed => ask_at(alloc, place, text, &[]),
        Body::Run(reader) => ask_run(alloc, text, Box::into_inner(reader)),
        Body::Gathered(bytes) => ask_at(alloc, place, text, bytes.as_slice()),
    }
}

/// What a request is read as whose body is whole.
fn end_opened(alloc: Global, opened: Opened) -> Result<(Caller, Option<u64>, Ask), RouteFault>
    requires addressable { IsAddressable opened }
    requires few { IsFew most_body opened.body }
    ensures reading { (opening : SeenOpening) (head : HttpHead) (body : List ℕ)
        → IsAskOpened opening head.path body opened
        → IsRead (ReadsBehind (Ok opening) (request_with head body)) result }
    ensures addressed { IfOk result (λ asked. (moment : ℕ) → moment ≤ max_moment
        → IsTrue (is_well_addressed asked.0 asked.1 asked.2 moment)) }
{
    let Opened {
        who,
        number,
        place,
        text,
        body,
    } = opened;
    match ask_of(alloc, place, text.bytes(), body) {
        Ok(ask) => Ok((who, number, ask)),
        Err(fault) => Err(fault),
    }
}

impl AskReader {
    /// The reader of the request that this head begins.
    pub fn new(alloc: Global, head: &HttpHead, keys: &Keys) -> Result<AskReader, Memory>
        ensures asking { IfOk result (IsAsking head.now keys.now []) }
        ensures fed { IfOk result (λ reader. reader.fed ≡ 0) }
    {
        let paths = Paths::new(alloc)?;
        AskReader::new_by(alloc, &paths, head, keys)
    }

    /// The same by a table of the paths that was made before.
    pub fn new_by(
        alloc: Global,
        paths: &Paths,
        head: &HttpHead,
        keys: &Keys,
    ) -> Result<AskReader, Memory>
        ensures asking { IfOk result (IsAsking head.now keys.now []) }
        ensures fed { IfOk result (λ reader. reader.fed ≡ 0) }
    {
        let progress = begin(
            alloc,
            paths,
            head.method.bytes(),
            head.path.bytes(),
            head.fields.items(),
            keys,
        )?;
        Ok(AskReader {
            alloc,
            progress,
            fed: 0,
        })
    }

    /// The next bytes of the body. After `Memory` each later call answers `Memory`.
    pub fn feed(&mut self, piece: &[u8]) -> Result<(), Memory>
        requires { self.old.fed + length piece.now ≤ most_body }
        ensures ok { OnOk result ((head : HttpHead) (keys : List KeyRow) (body : List ℕ)
            → IsAsking head keys body self.old → IsAsking head keys (body ++ piece.now) self.new) }
        ensures err { OnErr result (HasAskFailed self.new) }
        ensures stays { HasAskFailed self.old → IsErr result }
        ensures fed { self.new.fed ≡ self.old.fed + length piece.now }
    {
        self.fed += piece.len();
        read_on(&mut self.progress, piece)
    }

    /// What is read of the request of the head and the pieces.
    pub fn finish(self) -> Result<(Caller, Option<u64>, Ask), RouteFault>
        ensures reading { (head : HttpHead) (keys : List KeyRow) (body : List ℕ)
            → IsAsking head keys body self → IsRead (Reads (request_with head body) keys) result }
        ensures addressed { IfOk result (λ asked. (moment : ℕ) → moment ≤ max_moment
            → IsTrue (is_well_addressed asked.0 asked.1 asked.2 moment)) }
        ensures failed { HasAskFailed self → result ≡ Err RouteFault.Memory }
    {
        let AskReader {
            alloc,
            progress,
            fed: _,
        } = self;
        match progress {
            AskProgress::Reads(opened) => end_opened(alloc, opened),
            AskProgress::Faulty(fault) => Err(fault),
            AskProgress::Failed => Err(RouteFault::Memory),
        }
    }
}
