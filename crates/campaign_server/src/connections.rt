//! The loop of a connection: a piece is read, every whole request of the bytes so far is answered
//! in order, and then more is read.
ghost use Rattle.std.specs.Prelude.{◌≡◌, ◌<◌, ◌≤◌, ◌^◌, IfOk, IfErr};
ghost use Rattle.campaign_server.specs.ConnectionLoop.FedRequests.{fresh};
ghost use Rattle.campaign_server.specs.Connections.{Converses};
ghost use Rattle.campaign_server.specs.ConnectionLoop.LoopParts.{EndsFrom, Pauses, ReadsPiece, at_end, last_end};

mod answers;
mod asks;
mod book_tellers;
mod buffers;
pub(crate) mod hall_connections;
pub(crate) mod tellers;

use crate::connections::answers::{answer, refuse};
use crate::connections::asks::{AskStep, AskStream};
use crate::connections::buffers::Buffer;
use crate::connections::tellers::Teller;
use crate::ends::End;
use crate::links::Link;
use decimal_rank::{Failed, Memory};
use http_wire::{fronts_are_messages, pieces_go_on, readings_go_on};
use routes::{Keys, Paths};
use std::alloc::Global;

/// The most bytes that a connection takes.
const MOST_TAKEN: usize = 1 << 40;

/// The most bytes of one read.
const CHUNK: usize = 8192;

/// Answers the whole requests that the stream has. True is that nothing but line ends is left.
fn answer_all<T: Teller, I: Link>(
    alloc: Global,
    teller: &mut T,
    link: &mut I,
    keys: &Keys,
    stream: &mut AskStream,
    buffer: &mut Buffer,
) -> Result<bool, End>
    ensures pause { IfOk result (λ clean. Pauses T.tells keys.now teller.old (I.seen link.old)
        stream.old clean teller.new (I.seen link.new) stream.new) }
    ensures ends { IfErr result (λ end. EndsFrom T.tells keys.now teller.old (I.seen link.old)
        stream.old end teller.new (I.seen link.new)) }
    ensures reading_kept { (I.seen link.new).reading ≡ (I.seen link.old).reading }
{
    readings_go_on();
    fronts_are_messages();
    'requests: loop {
        match stream.next(alloc, keys) {
            Err(Memory) => return Err(End::Memory),
            Ok(AskStep::Need { clean }) => return Ok(clean),
            Ok(AskStep::Refused(fault)) => {
                return match refuse(link, buffer, fault) {
                    Ok(()) => Err(End::Refused(fault)),
                    Err(Failed) => Err(End::WriteFault),
                };
            }
            Ok(AskStep::Whole { reading, close }) => {
                match answer(teller, link, buffer, reading, close) {
                    Ok(()) => {
                        if close {
                            return Err(End::Ended);
                        }
                    }
                    Err(Failed) => return Err(End::WriteFault),
                }
            }
        }
    }
}

/// Why no piece was read.
#[derive(Clone, Copy)]
enum ReadFault {
    Failed,
    Memory,
}

/// Reads a piece into the stream, by way of the chunk, and returns how many bytes it has: none at
/// the end.
fn read_piece<I: Link>(
    link: &mut I,
    stream: &mut AskStream,
    chunk: &mut [u8; CHUNK],
    taken: usize,
) -> Result<usize, ReadFault>
    requires { taken < 2 ^ 40 }
    ensures piece { ReadsPiece (I.seen link.old) (I.seen link.new) stream.old taken result
        stream.new }
    ensures later { (I.seen link.old).reading.faults ≤ (I.seen link.new).reading.faults }
    ensures writing_kept { (I.seen link.new).writing ≡ (I.seen link.old).writing }
    ensures clock_kept { (I.seen link.new).clock ≡ (I.seen link.old).clock }
{
    let room = (MOST_TAKEN - taken).min(CHUNK);
    match link.read(&mut chunk[..room]) {
        Ok(count) => match stream.feed(&chunk[..count]) {
            Ok(()) => Ok(count),
            Err(Memory) => Err(ReadFault::Memory),
        },
        Err(Failed) => Err(ReadFault::Failed),
    }
}

/// The end where so many bytes were taken: at as many as may be, Worn stands for Ended, Cut and
/// Refused.
fn last_end(end: End, taken: usize) -> End
    ensures { result ≡ last_end end taken }
{
    if taken < MOST_TAKEN {
        return end;
    }
    match end {
        End::Ended | End::Cut | End::Refused(_) | End::Worn => End::Worn,
        End::ReadFault => End::ReadFault,
        End::WriteFault => End::WriteFault,
        End::Memory => End::Memory,
    }
}

fn at_end(clean: bool) -> End
    ensures { result ≡ at_end clean }
{
    if clean { End::Ended } else { End::Cut }
}

/// Reads and answers to the end of the connection.
fn converse_by<T: Teller, I: Link>(
    alloc: Global,
    teller: &mut T,
    link: &mut I,
    keys: &Keys,
    stream: &mut AskStream,
    buffer: &mut Buffer,
) -> End
    requires { stream.old ≡ fresh }
    ensures { Converses T.tells keys.now teller.old (I.seen link.old) teller.new (I.seen link.new)
        result }
{
    pieces_go_on();
    readings_go_on();
    let mut chunk = [0; CHUNK];
    let mut taken = 0;
    let mut clean = true;
    'pieces: while taken < MOST_TAKEN {
        match read_piece(link, stream, &mut chunk, taken) {
            Err(ReadFault::Failed) => return End::ReadFault,
            Err(ReadFault::Memory) => return End::Memory,
            Ok(0) => return at_end(clean),
            Ok(count) => taken += count,
        }
        match answer_all(alloc, teller, link, keys, stream, buffer) {
            Ok(now) => clean = now,
            Err(end) => return last_end(end, taken),
        }
    }
    End::Worn
}

/// Answers the requests of a link as they come. An answer is written before more is read.
#[tactic(auto, using(crate::proofs::ReadPieces::ConnectionBytes::ends_before))]
pub fn converse<T: Teller, I: Link>(alloc: Global, teller: &mut T, link: &mut I, keys: &Keys) -> End
    ensures { Converses T.tells keys.now teller.old (I.seen link.old) teller.new (I.seen link.new)
        result }
{
    let Ok(paths) = Paths::new(alloc) else {
        return End::Memory;
    };
    converse_with(alloc, teller, link, &paths, keys)
}

/// The same by a table of the paths that was made before.
#[tactic(auto, using(crate::proofs::ReadPieces::ConnectionBytes::ends_before))]
pub(crate) fn converse_with<T: Teller, I: Link>(
    alloc: Global,
    teller: &mut T,
    link: &mut I,
    paths: &Paths,
    keys: &Keys,
) -> End
    ensures { Converses T.tells keys.now teller.old (I.seen link.old) teller.new (I.seen link.new)
        result }
{
    let Ok(mut buffer) = Buffer::new(alloc) else {
        return End::Memory;
    };
    let mut stream = AskStream::new(alloc, paths);
    converse_by(alloc, teller, link, keys, &mut stream, &mut buffer)
}
