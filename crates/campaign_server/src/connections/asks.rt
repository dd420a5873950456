//! The requests of a connection's bytes, as what they ask. A head begins a reader, the pieces of
//! the body go to it as they come, and where the body is whole its reading is given. How bytes are
//! kept is known here alone.
//!
//! # The way of a body, piece by piece
//!
//!     link         at most 8,192 bytes a read                        connections.rt
//!     Wire         Head, then Piece by Piece, then Whole             http_wire/src/fronts.rt
//!     AskStream    the present request: its reader, or none          campaign_server/src/connections/asks.rt
//!     AskReader    of the head: who asks and where, or its fault     routes/src/ask_reader.rt
//!       a run        to `RunReader`: whole lines, and of the present field at most 401 bytes
//!       a query      passed over
//!       another      gathered
//!     Whole        what is asked, or its first fault; then its moment and its answer
//!
//! A run's text goes to the `RunReader` as it comes, and is gathered nowhere: a line that stands
//! whole in a piece is read in place (`trec_formats/src/runs/run_views.rt`), and only one that is
//! cut between pieces is kept field by field (`run_fields.rt`). Of a line the reader keeps its
//! number, its score and where its topic and docno stand in one vector of bytes
//! (`trec_formats/src/runs/packed_runs.rt`); the ranked lists are made from these, and the lines
//! are let go of meanwhile (`drop_done` in `lists.rt`), so that lines and lists aren't held twice.
//! Behind a fault of the head, and behind the first fault of a run, the rest of the body is taken
//! and passed over. Where there is no memory for a reader or for what it has to keep, the rest of
//! the body is taken too, and the answer is 507 (`Present::Starved`).
//!
//! What is known of a stream is said of any bytes that it may have been fed from behind the last
//! whole request on (`WasFed` in `campaign_server/specs/ConnectionLoop/FedRequests.antt`): the wire
//! stands behind their head and the bytes given (`StandsOn` in `http_wire/specs/Pieces.antt`), and
//! the reader was made of this head and fed these bytes (`IsAsking` in
//! `routes/specs/AskReading/AskStates.antt`). At Whole the two make one request and its reading,
//! and from there on the loop knows messages and readings alone.
ghost use Rattle.std.specs.Prelude.{◌≡◌, ◌+◌, ◌≤◌, IfOk, OnOk, OnErr, length};
ghost use Rattle.http_wire.specs.Pieces.{BodyFits, Shortens, Steps};
ghost use Rattle.campaign_server.specs.ConnectionLoop.FedRequests.{AsksNext, Begins, EndsWith, Goes, GoesFit, GoesShorter, IsAskable, IsBegun, IsShorter, PieceFits, PieceOn, RestFits, fed_on, fresh, stream_at};

use decimal_rank::Memory;
use http_wire::{HttpHead, Step, Wire, WireFault, pieces_go_on};
use routes::{AskReader, Keys, Paths, RouteFault};
use rulebook::{Ask, Caller};
use std::alloc::Global;
use std::marker::Model;
use std::mem::replace;

/// What a request asks and who asks it, or its first fault.
pub(crate) type ReadRequest = Result<(Caller, Option<u64>, Ask), RouteFault>;

/// What comes next of the bytes that were fed.
#[derive(Drop)]
pub(crate) enum AskStep {
    /// A whole request; `close` says that no other follows.
    Whole { reading: ReadRequest, close: bool },
    /// More bytes are needed; `clean` says that nothing but CR and LF is left.
    Need { clean: bool },
    Refused(WireFault),
}

/// The request whose head was given.
#[derive(Drop)]
enum Present {
    /// None was begun.
    Nothing,
    Reads { reader: AskReader, close: bool },
    /// There was no memory to read it. The rest of its body is taken.
    Starved { close: bool },
}

/// What one step of the wire comes to. It is small, so that a step that only goes on moves nothing
/// large.
#[derive(Clone, Copy)]
enum WireStep {
    /// The present request was begun or goes on.
    GoesOn,
    /// The body of the present request is whole.
    Ends,
    Needs { clean: bool },
    Refused(WireFault),
}

/// The bytes of a connection that were fed and not yet given, and the request that they began,
/// which contracts see. The table of the paths is lent.
pub(crate) struct AskStream<'a> {
    wire: Wire,
    present: Present,
    paths: &'a Paths,
}

impl<'a> Model for AskStream<'a> {
    ghost use Rattle.campaign_server.specs.ConnectionLoop.FedRequests.{RestFits, StreamState};

    ghost Value = { StreamState };

    ghost view = { λ stream. record { wire = stream.wire; present = stream.present } };

    ghost invariant = { λ stream. RestFits stream.present stream.wire };
}

// a call of its own, so that no caller's proof takes a stream apart
impl<'a> Drop for AskStream<'a> {
    fn drop(self) {
        let AskStream {
            wire: _,
            present: _,
            paths: _,
        } = self;
    }
}

/// Begins the request of a head.
fn begin(alloc: Global, paths: &Paths, keys: &Keys, head: &HttpHead, present: &mut Present)
    ensures { Begins keys.now head.now present.new }
{
    let close = head.close;
    *present = match AskReader::new_by(alloc, paths, head, keys) {
        Ok(reader) => Present::Reads { reader, close },
        Err(Memory) => Present::Starved { close },
    };
}

/// Reads a piece of the body.
fn take_piece(present: &mut Present, piece: &[u8])
    requires { PieceFits present.old (length piece.now) }
    ensures { PieceOn present.old piece.now present.new }
{
    match present {
        Present::Nothing | Present::Starved { .. } => {}
        Present::Reads { reader, close } => {
            let close = *close;
            match reader.feed(piece) {
                Ok(()) => {}
                Err(Memory) => *present = Present::Starved { close },
            }
        }
    }
}

/// What a request is read as whose body is whole. None is begun behind it.
fn end(present: &mut Present) -> AskStep
    requires { IsBegun present.old }
    ensures reading { EndsWith present.old result }
    ensures askable { IsAskable result }
    ensures after { present.new ≡ Present.Nothing }
{
    match replace(present, Present::Nothing) {
        Present::Nothing => unreachable!(),
        Present::Reads { reader, close } => AskStep::Whole {
            reading: reader.finish(),
            close,
        },
        Present::Starved { close } => AskStep::Whole {
            reading: Err(RouteFault::Memory),
            close,
        },
    }
}

/// One step of the wire.
fn take_step(
    alloc: Global,
    paths: &Paths,
    keys: &Keys,
    wire: &mut Wire,
    present: &mut Present,
) -> Result<WireStep, Memory>
    requires { RestFits present.old wire.old }
    ensures goes { IfOk result (λ turn. Goes keys.now (stream_at wire.old present.old) turn
        (stream_at wire.new present.new)) }
    ensures shorter { IfOk result (λ turn. GoesShorter (stream_at wire.old present.old) turn
        (stream_at wire.new present.new)) }
    ensures fits { IfOk result (λ turn. GoesFit turn present.new wire.new) }
    ensures memory { OnErr result (RestFits present.new wire.new) }
{
    pieces_go_on();
    match wire.next() {
        Ok(Step::Head(head)) => {
            begin(alloc, paths, keys, &head, present);
            Ok(WireStep::GoesOn)
        }
        Ok(Step::Piece(text)) => {
            take_piece(present, text.bytes());
            Ok(WireStep::GoesOn)
        }
        Ok(Step::Whole) => Ok(WireStep::Ends),
        Ok(Step::Need { clean }) => Ok(WireStep::Needs { clean }),
        Ok(Step::Refused(fault)) => Ok(WireStep::Refused(fault)),
        Err(memory) => Err(memory),
    }
}

/// Steps on up to a whole request, or for as long as bytes are there.
fn step_on(
    alloc: Global,
    paths: &Paths,
    keys: &Keys,
    wire: &mut Wire,
    present: &mut Present,
) -> Result<AskStep, Memory>
    requires { RestFits present.old wire.old }
    ensures asks { IfOk result (λ step. AsksNext keys.now (stream_at wire.old present.old) step
        (stream_at wire.new present.new)) }
    ensures askable { IfOk result IsAskable }
    ensures shorter { IfOk result (λ step. IsShorter (stream_at wire.old present.old) step
        (stream_at wire.new present.new)) }
    ensures fits { RestFits present.new wire.new }
{
    'steps: loop {
        match take_step(alloc, paths, keys, wire, present) {
            Ok(WireStep::GoesOn) => {}
            Ok(WireStep::Ends) => return Ok(end(present)),
            Ok(WireStep::Needs { clean }) => return Ok(AskStep::Need { clean }),
            Ok(WireStep::Refused(fault)) => return Ok(AskStep::Refused(fault)),
            Err(memory) => return Err(memory),
        }
    }
}

impl<'a> AskStream<'a> {
    pub(crate) fn new(alloc: Global, paths: &'a Paths) -> AskStream<'a>
        ensures { result ≡ fresh }
    {
        AskStream {
            wire: Wire::new(alloc),
            present: Present::Nothing,
            paths,
        }
    }

    /// Adds the bytes that came next.
    pub(crate) fn feed(&mut self, piece: &[u8]) -> Result<(), Memory>
        ensures ok { OnOk result (self.new ≡ fed_on self.old piece.now) }
        ensures err { OnErr result (self.new ≡ self.old) }
    {
        self.wire.feed(piece)
    }

    /// What comes next of the bytes that were fed.
    pub(crate) fn next(&mut self, alloc: Global, keys: &Keys) -> Result<AskStep, Memory>
        ensures asks { IfOk result (λ step. AsksNext keys.now self.old step self.new) }
        ensures askable { IfOk result IsAskable }
        ensures shorter { IfOk result (λ step. IsShorter self.old step self.new) }
    {
        step_on(alloc, self.paths, keys, &mut self.wire, &mut self.present)
    }
}
