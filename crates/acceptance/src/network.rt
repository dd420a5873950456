//! The door on the network, over the machine's own.
ghost use Rattle.campaign_server.specs.Doors.{IsOpen};

use campaign_server::{Door, End, Failed, Link, TcpDoor, write_all};
use decimal_rank::Memory;
use std::io::{Read, Write};
use std::net::{Ipv4Addr, Net, OpenListener, OpenStream, Shutdown, TcpListener, TcpStream};
use std::test::Fail;

/// A port that nobody listens on.
fn free_port(rt: &HostRuntime) -> Result<u16, Fail> {
    let listener = TcpListener::bind(rt, (Ipv4Addr::LOCALHOST, 0))?;
    Ok(listener.local_addr()?.port())
}

/// Whether a link reads what its peer asks, writes what it is told, and knows the moment, and the
/// end of its peer's side.
fn talk(link: &mut impl Link, peer: &mut TcpStream) -> Result<[bool; 4], Fail> {
    peer.write_all(b"ask")?;
    let asked = reads(link, b"ask");
    let told = write_all(link, b"told").is_ok() && is_sent(peer, b"told")?;
    let is_late = link.moment() > 1_700_000_000;
    peer.shutdown(Shutdown::Write)?;
    Ok([asked, told, is_late, reads(link, b"")])
}

fn reads(link: &mut impl Link, wanted: &[u8]) -> bool {
    let mut out = [0; 8];
    link.read(&mut out) == Ok(wanted.len()) && out.starts_with(wanted)
}

fn is_sent(peer: &mut TcpStream, wanted: &[u8]) -> Result<bool, Fail> {
    let mut out = [0; 8];
    Ok(peer.read(&mut out)? == wanted.len() && out.starts_with(wanted))
}

/// How a door serves its next link: what the two say, whether the peer reads to the end once the
/// link is finished, and what the door says of it.
fn served<R: Door>(
    door: &mut R,
    peer: &mut TcpStream,
) -> Result<([bool; 4], bool, Result<(), Memory>, u64), Fail>
    requires { IsOpen (R.seen door.old) }
{
    let Ok(Some(mut link)) = door.accept() else {
        return Err(Fail::from("no link was taken"));
    };
    let talked = talk(&mut link, peer);
    let record = R::finish(link);
    let done = door.done(record, End::Ended);
    Ok((talked?, is_sent(peer, b"")?, done, door.faults()))
}

/// What a door says of a port that is taken.
fn refused(rt: &HostRuntime, port: u16) -> (Result<(), Failed>, u64) {
    let mut door = TcpDoor::new(rt);
    (door.open(port), door.faults())
}

#[test]
fn a_door_on_the_network(rt: HostRuntime) -> Result<(), Fail> {
    let port = free_port(&rt)?;
    let mut door = TcpDoor::new(&rt);
    assert!(rt; door.open(port) == Ok(()));
    let mut peer = TcpStream::connect(&rt, (Ipv4Addr::LOCALHOST, port))?;
    assert!(rt; served(&mut door, &mut peer)? == ([true; 4], true, Ok(()), 0));
    assert!(rt; refused(&rt, port) == (Err(Failed), 1));
    Ok(())
}
