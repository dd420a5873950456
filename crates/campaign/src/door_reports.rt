//! The door on the network, which tells on standard error where it listens, and which call of it
//! failed.
use campaign_server::{Door, End, Failed, TcpDoor};
use decimal_rank::Memory;
use std::marker::Send;
use std::net::{Net, TcpListener, TcpStream};
use std::rt::Clock;

/// The door on the network, and standard error.
#[derive(Drop)]
pub struct ReportingDoor<
    R: Net<Listener = TcpListener, Stream = TcpStream> + Clock + Copy + Eprint,
> {
    door: TcpDoor<R>,
    errors: R,
}

impl<R: Net<Listener = TcpListener, Stream = TcpStream> + Clock + Copy + Eprint> ReportingDoor<R> {
    /// A door that isn't open.
    pub fn new(runtime: R) -> ReportingDoor<R> {
        ReportingDoor {
            door: TcpDoor::new(runtime),
            errors: runtime,
        }
    }
}

impl<R: Net<Listener = TcpListener, Stream = TcpStream> + Clock + Copy + Eprint + Send + Drop> Door
    for ReportingDoor<R> {
    type Line = <TcpDoor<R> as Door>::Line;

    type Record = <TcpDoor<R> as Door>::Record;

    ghost seen = { λ it. ⟦<TcpDoor<R> as Door>⟧.seen it.door };

    ghost kept = { ⟦<TcpDoor<R> as Door>⟧.kept };

    fn open(&mut self, port: u16) -> Result<(), Failed> {
        let opened = self.door.open(port);
        let _ = match opened {
            Ok(()) => eprintln!(self.errors; "campaign: listening on 127.0.0.1:{port}"),
            Err(Failed) => eprintln!(self.errors;
                "campaign: 127.0.0.1:{port} can't be opened: take another port, or end what listens there (`ss -ltnp` names it)"
            ),
        };
        opened
    }

    fn accept(&mut self) -> Result<Option<Self::Line>, Failed> {
        let taken = self.door.accept();
        if taken.is_err() {
            let _ = self.errors.eprintln(
                "campaign: no connection can be taken any more: look at the limit of open files (`ulimit -n`), and start again",
            );
        }
        taken
    }

    fn finish(link: Self::Line) -> Self::Record {
        TcpDoor::<R>::finish(link)
    }

    fn done(&mut self, ended: Self::Record, end: End) -> Result<(), Memory> {
        self.door.done(ended, end)
    }

    fn faults(&self) -> u64 {
        self.door.faults()
    }
}
