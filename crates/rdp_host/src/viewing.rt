//! The network viewer beside a host that serves one link, over the loopback interface.
ghost use Rattle.std.specs.Prelude.{◌≡◌, [], false, IfOk};

use capture_show::show_capture;
use edge_io::{Bytes, Keep, OutOfMemory};
use host_program::top;
use look_net::view_top;
use script_run::run_script;
use std::alloc::Global;
use std::net::{Ipv4Addr, Net, SocketAddr, SocketAddrV4, TcpListener, TcpStream};
use std::sync::Wait;
use std::test::Fail;
use std::thread;
use std::thread::Threads;
use std::time::{Clock, Duration};
use tcp_edge::{TcpDial, TcpGate};

/// How often the viewer dials, and how many milliseconds it waits after each call that nobody took.
const TRIES: u32 = 1_000;

const PAUSE: u64 = 10;

/// The status of a call that nobody took.
const PORT_FAULT: u8 = 7;

/// The same steps as a script: one viewer is invited, joins and takes.
const STEPS: &[u8] = b"size 64 48\ninvite ann owner\njoin ann full\ntake\n";

/// The port that lets the system choose one.
const ANY_PORT: u16 = 0;

/// A port of this machine that was free a moment ago.
fn free_port<R: Net<Listener = TcpListener, Stream = TcpStream>>(rt: &R) -> Result<u16, Fail> {
    let any = SocketAddr::V4(SocketAddrV4::new(Ipv4Addr::LOCALHOST, ANY_PORT));
    let listener = TcpListener::bind(rt, any)?;
    Ok(listener.local_addr()?.port())
}

/// The words of a command line, the program's name first.
fn words(alloc: Global, behind: &[&str]) -> Result<Vec<String>, OutOfMemory> {
    let mut words = Vec::new(alloc);
    words.push(String::from_str(alloc, "program")?)?;
    for word in behind {
        words.push(String::from_str(alloc, word)?)?;
    }
    Ok(words)
}

/// The status of a host that serves one link at this port, and what it writes.
fn served<R: Net<Listener = TcpListener, Stream = TcpStream> + Clock + Threads + Wait + Sync>(
    rt: &R,
    alloc: Global,
    port: &str,
) -> Result<(u8, Vec<u8>), OutOfMemory> {
    let words = words(alloc, &["serve", port, "64", "48", "1", "ann"])?;
    let mut input = Bytes::new(Vec::new(alloc), Vec::new(alloc));
    let mut output = Keep::new(alloc);
    let mut gate = TcpGate::new(rt, alloc)?;
    let status = top(rt, alloc, &words, &mut input, &mut output, &mut gate);
    Ok((status, Vec::from_slice(alloc, output.bytes())?))
}

/// The status of a viewer that watches until one mark, and what it prints; it calls until somebody takes the call.
fn viewed<R: Net<Listener = TcpListener, Stream = TcpStream> + Clock + Wait>(
    rt: &R,
    alloc: Global,
    port: &str,
) -> Result<(u8, Vec<u8>), OutOfMemory> {
    let words = words(alloc, &[port, "ann", "1", "full"])?;
    let mut dial = TcpDial::new(rt, alloc)?;
    for _ in 0..TRIES {
        let mut output = Keep::new(alloc);
        let status = view_top(rt, alloc, &words, &mut dial, &mut output);
        if status != PORT_FAULT {
            return Ok((status, Vec::from_slice(alloc, output.bytes())?));
        }
        thread::sleep(rt, Duration::from_millis(PAUSE));
    }
    Ok((PORT_FAULT, Vec::new(alloc)))
}

/// What `rdp_look` prints of the script's capture for its viewer.
fn looked_at<R: Wait>(rt: &R, alloc: Global) -> Result<Vec<u8>, Fail> {
    let mut script = Bytes::new(Vec::from_slice(alloc, STEPS)?, Vec::new(alloc));
    let mut capture = Keep::new(alloc);
    run_script(alloc, &mut script, &mut capture)?;
    let mut input = Bytes::new(Vec::from_slice(alloc, capture.bytes())?, Vec::new(alloc));
    let mut output = Keep::new(alloc);
    match show_capture(rt, alloc, 1, &mut input, &mut output) {
        Ok(true) => Ok(Vec::from_slice(alloc, output.bytes())?),
        _ => Err("the capture isn't shown".into()),
    }
}

#[test]
fn a_viewer_prints_what_a_look_at_the_same_steps_prints(rt: HostRuntime) -> Result<(), Fail> {
    let alloc = rt.alloc();
    let port = format!(in alloc; "{}", free_port(&rt)?)?;
    let (host, viewer) = thread::join(
        &rt,
        || served(&rt, alloc, port.as_str()),
        || viewed(&rt, alloc, port.as_str()),
    );
    let (status, lines) = host?;
    assert_eq!(rt; (status, lines.as_slice()), (0, b"1 1 0 0\n".as_slice()));
    let (status, printed) = viewer?;
    assert_eq!(rt; status, 0);
    assert_eq!(rt; printed, looked_at(&rt, alloc)?);
    Ok(())
}
