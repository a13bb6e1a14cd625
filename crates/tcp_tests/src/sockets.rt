//! One gate and one client each.
ghost use Rattle.std.specs.Prelude.{IsSome};

use edge_io::{Dial, Gate, Got, Link, Next, Sink, Source, Wrote};
use std::alloc::Global;
use std::io::{Read, Write};
use std::net::{Ipv4Addr, Net, SocketAddr, SocketAddrV4, TcpListener, TcpStream};
use std::process::Abort;
use std::test::Fail;
use std::thread;
use std::time::{Clock, Duration};
use tcp_edge::{Limits, TcpDial, TcpGate, TcpLink};

/// Limits that a test can wait for.
const SHORT: Limits = Limits {
    first_read: 300,
    sequence: Some(600),
    write: 300,
};

/// How many milliseconds a client waits before it reads,
const A_WHILE: u64 = 200;

/// before it says another byte,
const A_MOMENT: u64 = 50;

/// and before it says something when it needs no longer hurry.
const LONG: u64 = 1_000;

/// The port that lets the system choose one.
const ANY_PORT: u16 = 0;

/// A gate with short limits that is open for one link.
fn open<'a, R: Net<Listener = TcpListener, Stream = TcpStream> + Clock + Alloc<A = Global> + Abort>(
    rt: &'a R,
) -> TcpGate<'a, R>
    ensures { IsSome result.asked }
{
    let gate = TcpGate::with_limits(rt, rt.alloc(), SHORT);
    let mut gate = gate.expect(rt, "ample memory");
    assert!(rt; gate.listen(ANY_PORT, 1));
    gate
}

/// A client of a port of this machine.
fn connected<R: Net<Listener = TcpListener, Stream = TcpStream> + Abort>(
    rt: &R,
    port: u16,
) -> TcpStream {
    let address = SocketAddr::V4(SocketAddrV4::new(Ipv4Addr::LOCALHOST, port));
    TcpStream::connect(rt, address).expect(rt, "an open port")
}

/// The next link of a gate, which has one.
fn next_link<R: Net<Listener = TcpListener, Stream = TcpStream> + Clock + Abort>(
    rt: &R,
    gate: &mut TcpGate<'_, R>,
) -> TcpLink
    requires { IsSome gate.old.asked }
{
    match gate.next() {
        Next::Link(link) => link,
        Next::End => panic!(rt; "no link"),
        Next::Failed => panic!(rt; "a fault"),
    }
}

#[test]
fn who_says_nothing_at_first_is_a_fault(rt: HostRuntime) -> Result<(), Fail> {
    let mut gate = open(&rt);
    let client = connected(&rt, gate.port());
    let (mut reader, mut writer) = next_link(&rt, &mut gate).split();
    let mut buf = [0u8; 8];
    assert_eq!(rt; reader.read(&mut buf), Got::Failed);
    assert_eq!(rt; writer.write_all(b"ultimatum"), Wrote::All);
    drop(client);
    Ok(())
}

/// A client says a byte, and another, and isn't ready.
#[test]
fn who_says_a_byte_now_and_then_is_a_fault(rt: HostRuntime) -> Result<(), Fail> {
    let mut gate = open(&rt);
    let mut client = connected(&rt, gate.port());
    let (mut reader, _writer) = next_link(&rt, &mut gate).split();
    let mut buf = [0u8; 8];
    let mut got = Got::Bytes(1);
    for _ in 0..100u32 {
        if got != Got::Bytes(1) {
            break;
        }
        client.write_all(b"a")?;
        thread::sleep(&rt, Duration::from_millis(A_MOMENT));
        got = reader.read(&mut buf);
    }
    assert_eq!(rt; got, Got::Failed);
    drop(client);
    Ok(())
}

/// A client that is ready says nothing for longer than a client has that isn't.
#[test]
fn who_is_ready_may_be_silent(rt: HostRuntime) -> Result<(), Fail> {
    let mut gate = open(&rt);
    let mut client = connected(&rt, gate.port());
    let (mut reader, _writer) = next_link(&rt, &mut gate).split();
    client.write_all(b"hello")?;
    let mut buf = [0u8; 8];
    assert_eq!(rt; reader.read(&mut buf), Got::Bytes(5));
    reader.lift_limit();
    let (got, said) = thread::join(
        &rt,
        || {
            let mut buf = [0u8; 8];
            reader.read(&mut buf)
        },
        || {
            thread::sleep(&rt, Duration::from_millis(LONG));
            client.write_all(b"a")
        },
    );
    said?;
    assert_eq!(rt; got, Got::Bytes(1));
    drop(client);
    Ok(())
}

/// The reader waits in a thread of its own, for a client that is ready and takes nothing.
#[test]
fn who_takes_nothing_is_a_fault_that_ends_the_reads(rt: HostRuntime) -> Result<(), Fail> {
    let mut gate = open(&rt);
    let mut client = connected(&rt, gate.port());
    let (mut reader, mut writer) = next_link(&rt, &mut gate).split();
    client.write_all(b"hello")?;
    let mut buf = [0u8; 8];
    assert_eq!(rt; reader.read(&mut buf), Got::Bytes(5));
    reader.lift_limit();
    let frame = vec![in rt.alloc(); 0u8; 1_048_576]?;
    let (got, wrote) = thread::join(
        &rt,
        || {
            let mut buf = [0u8; 8];
            reader.read(&mut buf)
        },
        || {
            let mut wrote = Wrote::All;
            for _ in 0..64u32 {
                wrote = writer.write_all(&frame);
                if wrote != Wrote::All {
                    break;
                }
            }
            wrote
        },
    );
    assert_eq!(rt; wrote, Wrote::Failed);
    assert_eq!(rt; got, Got::End);
    drop(client);
    Ok(())
}

/// The client has sent bytes that nobody reads; what was written last reaches it all the same.
#[test]
fn the_last_words_reach_a_client_that_went_on_sending(rt: HostRuntime) -> Result<(), Fail> {
    let mut gate = open(&rt);
    let mut client = connected(&rt, gate.port());
    let (reader, mut writer) = next_link(&rt, &mut gate).split();
    client.write_all(&[7u8; 100_000])?;
    let mut told = [0u8; 16];
    let (_, count) = thread::join(
        &rt,
        || {
            writer.write_all(b"ultimatum");
            TcpLink::close(reader, writer)
        },
        || {
            thread::sleep(&rt, Duration::from_millis(A_WHILE));
            let count = client.read(&mut told).unwrap_or(0);
            drop(client);
            count
        },
    );
    assert_eq!(rt; count, 9);
    assert_eq!(rt; told[..9], b"ultimatum"[..]);
    Ok(())
}

#[test]
fn a_gate_ends_after_its_links_and_refuses_who_comes_later(rt: HostRuntime) -> Result<(), Fail> {
    let mut gate = TcpGate::new(&rt, rt.alloc())?;
    assert!(rt; gate.listen(ANY_PORT, 1));
    let port = gate.port();
    let client = connected(&rt, port);
    let Next::Link(link) = gate.next() else {
        panic!(rt; "no link");
    };
    drop(client);
    let (reader, writer) = link.split();
    gate.done(TcpLink::close(reader, writer));
    assert!(rt; matches!(gate.next(), Next::End));
    assert_eq!(rt; gate.port(), 0);
    let address = SocketAddr::V4(SocketAddrV4::new(Ipv4Addr::LOCALHOST, port));
    assert!(rt; TcpStream::connect(&rt, address).is_err());
    Ok(())
}

/// A link that a dial with short limits has dialled at a gate.
fn dialled<R: Net<Listener = TcpListener, Stream = TcpStream> + Alloc<A = Global> + Abort>(
    rt: &R,
    port: u16,
) -> TcpLink {
    let dial = TcpDial::with_limits(rt, rt.alloc(), SHORT);
    let mut dial = dial.expect(rt, "ample memory");
    dial.dial(port).expect(rt, "an open port")
}

#[test]
fn a_host_that_says_nothing_at_first_is_a_fault(rt: HostRuntime) -> Result<(), Fail> {
    let mut gate = open(&rt);
    let (mut near, _out) = dialled(&rt, gate.port()).split();
    let link = next_link(&rt, &mut gate);
    let mut buf = [0u8; 8];
    assert_eq!(rt; near.read(&mut buf), Got::Failed);
    drop(link);
    Ok(())
}

/// A host says one packet and nothing more; its viewer isn't shown a mark.
#[test]
fn a_host_that_stops_before_the_first_mark_is_a_fault(rt: HostRuntime) -> Result<(), Fail> {
    let mut gate = open(&rt);
    let (mut near, _out) = dialled(&rt, gate.port()).split();
    let (reader, mut writer) = next_link(&rt, &mut gate).split();
    assert_eq!(rt; writer.write_all(b"confirm"), Wrote::All);
    let mut buf = [0u8; 8];
    assert_eq!(rt; near.read(&mut buf), Got::Bytes(7));
    assert_eq!(rt; near.read(&mut buf), Got::Failed);
    drop(reader);
    Ok(())
}

/// The viewer's last words are small and its host has said what it doesn't read; they arrive before the end all the same.
#[test]
fn a_dialled_link_reaches_the_gate_and_comes_back(rt: HostRuntime) -> Result<(), Fail> {
    let mut gate = open(&rt);
    let mut dial = TcpDial::new(&rt, rt.alloc())?;
    let Some(dialled) = dial.dial(gate.port()) else {
        panic!(rt; "an open port");
    };
    let (mut reader, mut writer) = next_link(&rt, &mut gate).split();
    let (near, mut out) = dialled.split();
    assert_eq!(rt; out.write_all(b"request"), Wrote::All);
    let mut buf = [0u8; 16];
    assert_eq!(rt; reader.read(&mut buf), Got::Bytes(7));
    assert_eq!(rt; writer.write_all(&[7u8; 100_000]), Wrote::All);
    let ((), got) = thread::join(
        &rt,
        || {
            out.write_all(b"ultimatum");
            dial.done(TcpLink::close(near, out));
        },
        || reader.read(&mut buf),
    );
    assert_eq!(rt; got, Got::Bytes(9));
    assert_eq!(rt; buf[..9], b"ultimatum"[..]);
    assert_eq!(rt; reader.read(&mut buf), Got::End);
    Ok(())
}

/// The port was open a moment before.
#[test]
fn a_port_that_nobody_has_is_a_fault_and_the_next_may_be_dialled(
    rt: HostRuntime,
) -> Result<(), Fail> {
    let gate = open(&rt);
    let gone = open(&rt);
    let port = gone.port();
    drop(gone);
    let mut dial = TcpDial::new(&rt, rt.alloc())?;
    assert!(rt; dial.dial(port).is_none());
    assert!(rt; dial.dial(gate.port()).is_some());
    Ok(())
}
