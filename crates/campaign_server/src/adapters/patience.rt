//! The patience with a peer. It has a minute to send a request whole, and another to take the
//! answers. A call on its socket waits for a second at most, and then the machine's steady clock is
//! looked at.
ghost use Rattle.std.specs.Prelude.{◌≤◌, IfOk, length};
ghost use Rattle.std.specs.Io.{ReadsAtMost};

use std::io;
use std::io::{ErrorKind, Read, Write};
use std::net::TcpStream;
use std::rt::Clock;
use std::time::Duration;

/// How long a peer may take over one turn, in seconds.
const MOST_SECONDS: u64 = 60;

/// How many calls on a socket may come back with nothing in one turn: more than the turn has
/// seconds, since a signal ends a call too.
const MOST_CALLS: u32 = 1_000;

/// What a peer is at.
#[derive(Clone, Copy, Debug, PartialEq, Eq)]
pub(crate) enum PeerTask {
    /// It sends a request.
    Sends,
    /// It takes answers.
    Takes,
}

/// A peer's turn, and the moment at which it began.
#[derive(Clone, Copy)]
pub(crate) struct Patience {
    turn: PeerTask,
    since: Duration,
}

impl Patience {
    /// The patience with a peer that was taken now.
    pub(crate) fn new<R: Clock>(runtime: &R) -> Patience {
        Patience {
            turn: PeerTask::Sends,
            since: now(runtime),
        }
    }

    /// The peer is at this turn, which began now where it was at another one.
    pub(crate) fn turn_to<R: Clock>(&mut self, runtime: &R, turn: PeerTask) {
        if self.turn != turn {
            self.turn = turn;
            self.since = now(runtime);
        }
    }

    /// Reads what the peer sends while the patience lasts, which is looked at before each read: no
    /// bytes are lost.
    pub(crate) fn read<R: Clock>(
        self,
        runtime: &R,
        stream: &mut TcpStream,
        out: &mut [u8],
    ) -> io::Result<usize>
        ensures { ReadsAtMost result out.new }
    {
        for _ in 0..MOST_CALLS {
            if self.is_over(runtime) {
                break;
            }
            match stream.read(out) {
                Err(error) if is_passing(&error) => {}
                told => return told,
            }
        }
        Err(ErrorKind::TimedOut.into())
    }

    /// Writes what the peer takes while the patience lasts.
    pub(crate) fn write<R: Clock>(
        self,
        runtime: &R,
        stream: &mut TcpStream,
        piece: &[u8],
    ) -> io::Result<usize>
        ensures { IfOk result (λ count. count ≤ length piece.now) }
    {
        for _ in 0..MOST_CALLS {
            if self.is_over(runtime) {
                break;
            }
            match stream.write(piece) {
                Err(error) if is_passing(&error) => {}
                told => return told,
            }
        }
        Err(ErrorKind::TimedOut.into())
    }

    /// Whether the peer took too long.
    fn is_over<R: Clock>(self, runtime: &R) -> bool {
        has_passed(runtime, self.since, MOST_SECONDS)
    }
}

/// The steady clock's time. One that fails stands still, and then the count of calls alone ends a
/// turn.
pub(crate) fn now<R: Clock>(runtime: &R) -> Duration {
    match runtime.monotonic() {
        Ok(now) => now,
        Err(_) => Duration::from_secs(0),
    }
}

/// Whether so many seconds have passed since.
pub(crate) fn has_passed<R: Clock>(runtime: &R, since: Duration, seconds: u64) -> bool {
    now(runtime).saturating_sub(since).as_secs() >= seconds
}

/// Has each call on a socket wait for a second at most, and each write go out at once.
pub(crate) fn hasten(stream: &TcpStream) -> io::Result<()> {
    let second = Some(Duration::from_secs(1));
    stream.set_read_timeout(second)?;
    stream.set_write_timeout(second)?;
    stream.set_nodelay(true)
}

/// Whether a call came back since it waited long enough, or since a signal came: it may be made
/// again.
pub(crate) fn is_passing(error: &io::Error) -> bool {
    matches!(error.kind(), ErrorKind::WouldBlock | ErrorKind::Interrupted)
}
