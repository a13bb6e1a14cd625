//! A gate that makes room ends the oldest link whose client isn't ready, and no other.
ghost use Rattle.std.specs.Prelude.{IsSome};

use edge_io::{Gate, Got, Link, Next, Source};
use std::alloc::Global;
use std::io::Write;
use std::net::{Ipv4Addr, Net, SocketAddr, SocketAddrV4, TcpListener, TcpStream};
use std::process::Abort;
use std::test::Fail;
use std::thread;
use std::time::Clock;
use tcp_edge::{TcpGate, TcpLink};

/// The port that lets the system choose one.
const ANY_PORT: u16 = 0;

/// A gate that is open for three links.
fn open<'a, R: Net<Listener = TcpListener, Stream = TcpStream> + Clock + Alloc<A = Global> + Abort>(
    rt: &'a R,
) -> TcpGate<'a, R>
    ensures { IsSome result.asked }
{
    let gate = TcpGate::new(rt, rt.alloc());
    let mut gate = gate.expect(rt, "ample memory");
    assert!(rt; gate.listen(ANY_PORT, 3));
    gate
}

/// A client of a port of this machine, which has sent a byte, and its link.
fn linked<R: Net<Listener = TcpListener, Stream = TcpStream> + Clock + Abort>(
    rt: &R,
    gate: &mut TcpGate<'_, R>,
) -> (TcpStream, TcpLink)
    requires { IsSome gate.old.asked }
    ensures { IsSome gate.new.asked }
{
    let address = SocketAddr::V4(SocketAddrV4::new(Ipv4Addr::LOCALHOST, gate.port()));
    let mut client = TcpStream::connect(rt, address).expect(rt, "an open port");
    client.write_all(b"x").expect(rt, "an open connection");
    match gate.next() {
        Next::Link(link) => (client, link),
        Next::End => panic!(rt; "no link"),
        Next::Failed => panic!(rt; "a fault"),
    }
}

#[test]
fn the_oldest_link_whose_client_is_not_ready_is_ended(rt: HostRuntime) -> Result<(), Fail> {
    let mut gate = open(&rt);
    let (_ready, first) = linked(&rt, &mut gate);
    let (_oldest, second) = linked(&rt, &mut gate);
    let (_youngest, third) = linked(&rt, &mut gate);
    let (mut first, _) = first.split();
    let (mut second, _) = second.split();
    let (mut third, _) = third.split();
    first.lift_limit();
    gate.make_room();
    let mut buf = [0u8; 8];
    assert_eq!(rt; first.read(&mut buf), Got::Bytes(1));
    assert_eq!(rt; second.read(&mut buf), Got::Failed);
    assert_eq!(rt; third.read(&mut buf), Got::Bytes(1));
    Ok(())
}

/// The last link is the one that waits.
#[test]
fn the_last_link_is_not_ended(rt: HostRuntime) -> Result<(), Fail> {
    let mut gate = open(&rt);
    let (_client, only) = linked(&rt, &mut gate);
    let (mut only, _) = only.split();
    gate.make_room();
    let mut buf = [0u8; 8];
    assert_eq!(rt; only.read(&mut buf), Got::Bytes(1));
    Ok(())
}

/// The reader waits in a thread of its own, for a client that says no more.
#[test]
fn a_read_that_waits_is_ended(rt: HostRuntime) -> Result<(), Fail> {
    let mut gate = open(&rt);
    let (_oldest, first) = linked(&rt, &mut gate);
    let (_youngest, _second) = linked(&rt, &mut gate);
    let (mut first, _) = first.split();
    let mut buf = [0u8; 8];
    assert_eq!(rt; first.read(&mut buf), Got::Bytes(1));
    let (got, _) = thread::join(
        &rt,
        || {
            let mut buf = [0u8; 8];
            first.read(&mut buf)
        },
        || gate.make_room(),
    );
    assert_eq!(rt; got, Got::Failed);
    Ok(())
}

/// The first link was closed, so it makes no room any more.
#[test]
fn a_link_that_was_closed_is_passed_over(rt: HostRuntime) -> Result<(), Fail> {
    let mut gate = open(&rt);
    let (client, first) = linked(&rt, &mut gate);
    let (_oldest, second) = linked(&rt, &mut gate);
    let (_youngest, _third) = linked(&rt, &mut gate);
    drop(client);
    let (reader, writer) = first.split();
    let _spent = TcpLink::close(reader, writer);
    let (mut second, _) = second.split();
    gate.make_room();
    let mut buf = [0u8; 8];
    assert_eq!(rt; second.read(&mut buf), Got::Failed);
    Ok(())
}
