//! Two clients over the loopback interface.

use crate::checks::{SIZE, WHITE, X, Y, must_have_left, new_session, owner, viewer};
use crate::client::{ANSWER, FAST, PLAIN, PLAIN_AT_16_BITS, PRESS, packets, whole_of};
use caps_sets::preset;
use client_view::Client;
use gate_run::{OutOfMemory, Served, serve_gate};
use std::alloc::Global;
use std::io::{Read, Write};
use std::net::{Ipv4Addr, Net, Shutdown, SocketAddr, SocketAddrV4, TcpListener, TcpStream};
use std::process::Abort;
use std::sync::Wait;
use std::test::Fail;
use std::thread;
use std::thread::Threads;
use std::time::{Clock, Duration};
use tcp_edge::TcpGate;

/// The port that lets the system choose one.
const ANY_PORT: u16 = 0;

/// How often a client tries to connect,
const TRIES: u32 = 1_000;

/// and how many milliseconds it waits after each try.
const PAUSE: u64 = 10;

/// How many milliseconds a client waits for what comes next.
const PATIENCE: u64 = 30_000;

/// How many reads a client makes.
const MOST_READS: u32 = 10_000;

/// The board before it is drawn on.
pub const BLACK: u32 = 0;

/// The ink of the board as a client at 16 bits shows it: of its five, six and five bits the rest is 0.
const WHITE_AT_16_BITS: u32 = 0xF8FCF8;

/// An address of this machine.
fn local(port: u16) -> SocketAddr {
    SocketAddr::V4(SocketAddrV4::new(Ipv4Addr::LOCALHOST, port))
}

/// A port that was free a moment ago.
fn free_port<R: Net<Listener = TcpListener, Stream = TcpStream>>(rt: &R) -> Result<u16, Fail> {
    let listener = TcpListener::bind(rt, local(ANY_PORT))?;
    Ok(listener.local_addr()?.port())
}

/// What a client confirms and sends, and as what it shows the ink of the board.
#[derive(Clone, Copy, Drop)]
struct Guest<'a> {
    words: &'a [u8],
    bytes: &'a [u8],
    ink: u32,
}

/// A client, as what it shows the ink of the board, and how much of the answer to its connection sequence is still to come.
#[derive(Drop)]
struct Watcher {
    stream: TcpStream,
    answer: usize,
    client: Client,
    ink: u32,
}

impl Watcher {
    /// A client that has connected to a port, perhaps after some time, and sent its bytes.
    fn new<R: Net<Listener = TcpListener, Stream = TcpStream> + Clock>(
        rt: &R,
        alloc: Global,
        port: u16,
        guest: &Guest<'_>,
    ) -> Option<Watcher> {
        let mut stream = connected(rt, port)?;
        stream
            .set_read_timeout(Some(Duration::from_millis(PATIENCE)))
            .ok()?;
        stream.write_all(guest.bytes).ok()?;
        let client = Client::new(alloc, preset(guest.words)?, SIZE).ok()?;
        Some(Watcher {
            stream,
            answer: ANSWER,
            client,
            ink: guest.ink,
        })
    }

    /// Reads what comes next; how many bytes these are. None where they aren't what a client is to be sent.
    fn read(&mut self) -> Option<usize> {
        let mut buf = [0u8; 4_096];
        let count = self.stream.read(&mut buf).ok()?;
        let passed = count.min(self.answer);
        self.answer -= passed;
        self.client.feed(&buf[passed..count]).ok()?;
        Some(count)
    }

    /// Reads until the last mark shows the board's ink where the mouse was pressed.
    fn watch(&mut self) -> Option<()> {
        for _ in 0..MOST_READS {
            if pixel(&self.client, X, Y) == Some(self.ink) {
                return Some(());
            }
            if self.read()? == 0 {
                return None;
            }
        }
        None
    }

    /// Sends no more, and reads what is left.
    fn leave(&mut self) -> Option<()> {
        self.stream.shutdown(Shutdown::Write).ok()?;
        for _ in 0..MOST_READS {
            if self.read()? == 0 {
                return Some(());
            }
        }
        None
    }
}

/// A connection to a port, which may not be open yet.
fn connected<R: Net<Listener = TcpListener, Stream = TcpStream> + Clock>(
    rt: &R,
    port: u16,
) -> Option<TcpStream> {
    for _ in 0..TRIES {
        if let Ok(stream) = TcpStream::connect(rt, local(port)) {
            return Some(stream);
        }
        thread::sleep(rt, Duration::from_millis(PAUSE));
    }
    None
}

/// The colour of a pixel at the last mark.
pub fn pixel(client: &Client, x: u32, y: u32) -> Option<u32> {
    let size = client.size();
    if x < size.w && y < size.h {
        client.marked(x, y)
    } else {
        None
    }
}

/// A gate at a port, which was served to two clients.
fn served<R: Net<Listener = TcpListener, Stream = TcpStream> + Clock + Threads + Wait + Sync>(
    rt: &R,
    alloc: Global,
    port: u16,
) -> Result<Served, OutOfMemory> {
    let mut gate = TcpGate::new(rt, alloc)?;
    serve_gate(rt, alloc, new_session(alloc)?, port, 2, &mut gate)
}

/// A client that watches until the mouse was pressed, and leaves.
fn attend<R: Net<Listener = TcpListener, Stream = TcpStream> + Clock>(
    rt: &R,
    alloc: Global,
    port: u16,
    guest: &Guest<'_>,
) -> Option<Client> {
    let mut watcher = Watcher::new(rt, alloc, port, guest)?;
    watcher.watch()?;
    watcher.leave()?;
    let Watcher {
        stream: _,
        answer: _,
        client,
        ink: _,
    } = watcher;
    Some(client)
}

/// Whether a row of two pictures is the same.
fn is_same_row(one: &Client, other: &Client, y: u32) -> bool {
    (0..SIZE.w).all(|x| pixel(one, x, y) == pixel(other, x, y))
}

/// Whether a row of two pictures is black at the same pixels, the other one of a client at 16 bits, and else white at both.
fn is_cut_row(one: &Client, other: &Client, y: u32) -> bool {
    (0..SIZE.w).all(|x| match pixel(one, x, y) {
        Some(WHITE) => pixel(other, x, y) == Some(WHITE_AT_16_BITS),
        color => color == Some(BLACK) && pixel(other, x, y) == color,
    })
}

/// A client at 16 bits was shown at last what one at 24 was, each colour cut.
fn must_show_what_is_cut(rt: &impl Abort, one: &Client, other: &Client) {
    assert_eq!(rt; pixel(one, X, Y), Some(WHITE));
    assert!(rt; (0..SIZE.h).all(|y| is_cut_row(one, other, y)));
}

/// Two clients were shown the same picture at last: white where the mouse was pressed, and black where not.
fn must_show_the_same(rt: &impl Abort, one: &Client, other: &Client) {
    assert_eq!(rt; pixel(one, X, Y), Some(WHITE));
    assert_eq!(rt; pixel(one, 0, 0), Some(BLACK));
    assert!(rt; (0..SIZE.h).all(|y| is_same_row(one, other, y)));
}

/// The owner, who presses the mouse, and a viewer who confirms what these words say and shows the ink so, each as it left.
fn two_clients<
    R: Net<Listener = TcpListener, Stream = TcpStream>
        + Abort
        + AllocGlobal
        + Clock
        + Threads
        + Wait
        + Sync,
>(rt: &R, words: &[u8], ink: u32) -> Result<(Client, Client), Fail> {
    let alloc = rt.alloc();
    let port = free_port(rt)?;
    let mut pressing = whole_of(alloc, &owner(), PLAIN)?;
    pressing.extend_from_slice(&packets(alloc, &[PRESS])?)?;
    let first = Guest {
        words: PLAIN,
        bytes: &pressing,
        ink: WHITE,
    };
    let watching = whole_of(alloc, &viewer(), words)?;
    let second = Guest {
        words,
        bytes: &watching,
        ink,
    };
    let ((one, other), served) = thread::join(
        rt,
        || {
            thread::join(
                rt,
                || attend(rt, alloc, port, &first),
                || attend(rt, alloc, port, &second),
            )
        },
        || served(rt, alloc, port),
    );
    must_have_left(rt, &served?, 2);
    Ok(one.zip(other).ok_or("a client wasn't served")?)
}

#[test]
fn two_clients_are_shown_what_the_owner_draws(rt: HostRuntime) -> Result<(), Fail> {
    let (one, other) = two_clients(&rt, PLAIN, WHITE)?;
    must_show_the_same(&rt, &one, &other);
    Ok(())
}

#[test]
fn a_client_at_16_bits_is_shown_what_one_at_24_draws(rt: HostRuntime) -> Result<(), Fail> {
    let (one, other) = two_clients(&rt, PLAIN_AT_16_BITS, WHITE_AT_16_BITS)?;
    must_show_what_is_cut(&rt, &one, &other);
    Ok(())
}

#[test]
fn a_client_of_the_fast_path_is_shown_what_one_of_the_slow_path_draws(
    rt: HostRuntime,
) -> Result<(), Fail> {
    let (one, other) = two_clients(&rt, FAST, WHITE)?;
    must_show_the_same(&rt, &one, &other);
    Ok(())
}
