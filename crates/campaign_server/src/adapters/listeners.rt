//! The next connection of a listener. A failure of the peer's own is passed over; where descriptors
//! or memory are short, it waits for them a while.
use crate::adapters::patience::hasten;
use std::io;
use std::io::ErrorKind;
use std::net::{TcpListener, TcpStream};
use std::rt::Clock;
use std::time::Duration;

/// How many peers in a row that went away before they were taken are passed over.
const MOST_PASSED: u32 = 1_000_000;

/// How often a shortage is waited for: some five minutes.
const MOST_WAITS: u32 = 3_000;

/// How long each time, in milliseconds.
const WAIT: u64 = 100;

/// The system's numbers of the errors of a connection that went wrong before it was taken, which
/// accept(2) has a server pass over: EPERM, ENONET, EPROTO, ENOPROTOOPT, EOPNOTSUPP, ENETDOWN,
/// ENETUNREACH, ECONNABORTED, EHOSTDOWN and EHOSTUNREACH.
const OF_A_PEER: [i32; 10] = [1, 64, 71, 92, 95, 100, 101, 103, 112, 113];

/// Those of a want of memory or descriptors: ENOMEM, ENFILE, EMFILE and ENOBUFS.
const OF_A_SHORTAGE: [i32; 4] = [12, 23, 24, 105];

/// What failed where a connection couldn't be taken.
enum Failure {
    Peer,
    Shortage,
    Listener,
}

fn failure_of(error: &io::Error) -> Failure {
    match error.raw_os_error() {
        Some(code) if OF_A_PEER.contains(&code) => Failure::Peer,
        Some(code) if OF_A_SHORTAGE.contains(&code) => Failure::Shortage,
        _ if error.kind() == ErrorKind::Interrupted => Failure::Peer,
        _ => Failure::Listener,
    }
}

/// The next connection that could be set up. None where the listener itself failed, or a shortage
/// lasts.
pub(crate) fn next_stream<R: Clock>(runtime: &R, listener: &TcpListener) -> Option<TcpStream> {
    let mut waits = 0;
    for _ in 0..MOST_PASSED {
        match taken(listener) {
            Ok(stream) => return Some(stream),
            Err(Failure::Peer) => {}
            Err(Failure::Shortage) if waits < MOST_WAITS => {
                waits += 1;
                runtime.sleep(Duration::from_millis(WAIT));
            }
            Err(Failure::Shortage | Failure::Listener) => return None,
        }
    }
    None
}

/// One connection, set up. One that can't be is closed.
fn taken(listener: &TcpListener) -> Result<TcpStream, Failure> {
    match listener.accept() {
        Ok((stream, _)) => match hasten(&stream) {
            Ok(()) => Ok(stream),
            Err(_) => Err(Failure::Peer),
        },
        Err(error) => Err(failure_of(&error)),
    }
}
