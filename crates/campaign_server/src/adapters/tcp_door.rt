//! The door on the network: a listener on 127.0.0.1. It tells its counts of faults alone, and so do
//! its links. A peer that goes away, or takes too long, is a fault of its own link, and none of the
//! door.
ghost use Rattle.std.specs.Prelude.{◌≡◌, None};
ghost use Rattle.campaign_server.specs.Links.{counts_of};

use crate::adapters::listeners::next_stream;
use crate::adapters::patience::{Patience, PeerTask, has_passed, is_passing, now};
use crate::adapters::system_calls::{given_by, taken_by};
use crate::adapters::watches::Watch;
use crate::doors::Door;
use crate::ends::End;
use crate::links::Link;
use decimal_rank::{Failed, Memory, count_more};
use std::io::Read;
use std::marker::Send;
use std::net::{Ipv4Addr, Net, Shutdown, SocketAddr, TcpListener, TcpStream};
use std::rt::Clock;

/// How many pieces that a peer still sends are dropped at the end of its connection, each of at
/// most 8,192 bytes.
const MOST_DROPPED: u32 = 4_096;

/// A connection of the network. A write goes out at once.
#[derive(Drop)]
pub struct TcpLink<R: Clock> {
    runtime: R,
    stream: TcpStream,
    read_faults: u64,
    write_faults: u64,
    watch: Watch,
    patience: Patience,
    /// The peer sends nothing more: its end was read.
    ended: bool,
}

impl<R: Clock + Drop> Link for TcpLink<R> {
    ghost use Rattle.std.proofs.Common.{refl};

    ghost seen = { λ link. counts_of link.read_faults link.write_faults link.watch.asked };

    fn read(&mut self, out: &mut [u8]) -> Result<usize, Failed> {
        self.patience.turn_to(&self.runtime, PeerTask::Sends);
        let told = self.patience.read(&self.runtime, &mut self.stream, out);
        self.ended = matches!(told, Ok(0));
        given_by(told, &mut self.read_faults)
    }

    fn write(&mut self, piece: &[u8]) -> Result<usize, Failed> {
        self.patience.turn_to(&self.runtime, PeerTask::Takes);
        let told = self.patience.write(&self.runtime, &mut self.stream, piece);
        taken_by(told, piece, &mut self.write_faults)
    }

    fn moment(&mut self) -> u64 {
        self.watch.moment(&self.runtime)
    }

    ghost tells_alike = { λ _ _.
        record { taken = refl; left = refl; last = refl; written = refl; moments = refl } };
}

/// Ends the sending side, and drops what the peer still sends, for two seconds at most, since each
/// read waits for one: a connection that is closed with bytes unread is reset, and its peer may
/// then lose the last answer.
fn close<R: Clock>(runtime: &R, stream: &mut TcpStream) {
    let _ = stream.shutdown(Shutdown::Write);
    let since = now(runtime);
    let mut dropped = [0u8; 8192];
    for _ in 0..MOST_DROPPED {
        if has_passed(runtime, since, 1) {
            return;
        }
        match stream.read(&mut dropped) {
            Ok(0) => return,
            Err(error) if !is_passing(&error) => return,
            Ok(_) | Err(_) => {}
        }
    }
}

/// A listener on 127.0.0.1, once it is opened. Its records keep nothing.
#[derive(Drop)]
pub struct TcpDoor<R: Net<Listener = TcpListener, Stream = TcpStream> + Clock + Copy> {
    runtime: R,
    listener: Option<TcpListener>,
    faults: u64,
}

impl<R: Net<Listener = TcpListener, Stream = TcpStream> + Clock + Copy> TcpDoor<R> {
    /// A door that isn't open.
    pub fn new(runtime: R) -> TcpDoor<R>
        ensures { result.faults ≡ 0 }
    {
        TcpDoor {
            runtime,
            listener: None,
            faults: 0,
        }
    }
}

impl<R: Net<Listener = TcpListener, Stream = TcpStream> + Clock + Copy + Send + Drop> Door
    for TcpDoor<R> {
    type Line = TcpLink<R>;

    type Record = ();

    ghost seen = { λ door. record { told = None; faults = door.faults } };

    ghost kept = { λ _. None };

    fn open(&mut self, port: u16) -> Result<(), Failed> {
        match TcpListener::bind(&self.runtime, (Ipv4Addr::LOCALHOST, port)) {
            Ok(listener) => {
                self.listener = Some(listener);
                Ok(())
            }
            Err(_) => {
                self.faults = count_more(self.faults);
                Err(Failed)
            }
        }
    }

    fn accept(&mut self) -> Result<Option<TcpLink<R>>, Failed> {
        let next = match &self.listener {
            Some(listener) => next_stream(&self.runtime, listener),
            None => None,
        };
        match next {
            Some(stream) => Ok(Some(TcpLink {
                runtime: self.runtime,
                stream,
                read_faults: 0,
                write_faults: 0,
                watch: Watch::new(),
                patience: Patience::new(&self.runtime),
                ended: false,
            })),
            None => {
                self.faults = count_more(self.faults);
                Err(Failed)
            }
        }
    }

    /// (a link that failed, or whose peer sends nothing more, is closed at once)
    fn finish(mut link: TcpLink<R>) {
        if !link.ended && link.read_faults == 0 && link.write_faults == 0 {
            close(&link.runtime, &mut link.stream);
        }
    }

    fn done(&mut self, _ended: (), _end: End) -> Result<(), Memory> {
        Ok(())
    }

    fn faults(&self) -> u64 {
        self.faults
    }
}
