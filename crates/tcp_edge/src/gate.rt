ghost use Rattle.std.specs.Prelude.{◌≡◌, IfOk, IfSome};
ghost use Rattle.edge_io.specs.Gate.{asked_of, has_room};
ghost use Rattle.tcp_edge.specs.Counts.{fresh, closed_gate};

use crate::limits::{LIMITS, Limits};
use crate::link::{TcpLink, TcpSpent};
use crate::open::Open;
use crate::refusal::{Patience, Refusal};
use edge_io::{Gate, Next, OutOfMemory};
use libc::net as c;
use std::alloc::Global;
use std::marker::Model;
use std::net::{Ipv4Addr, Net, SocketAddr, SocketAddrV4, TcpListener, TcpStream};
use std::os::fd::AsRawFd;
use std::time::Clock;

/// The most links that a gate can be asked for.
const MOST_LINKS: usize = 65_535;

/// How many connections may wait to be accepted, if the system allows it (profile). Who comes while so many wait isn't heard, and tries again.
const MOST_WAITING: i32 = 4_096;

/// A port of all of this machine's IPv4 addresses, and the connections that clients make to it.
#[derive(Drop)]
pub struct TcpGate<'a, R: Net<Listener = TcpListener, Stream = TcpStream> + Clock> {
    rt: &'a R,
    limits: Limits,
    listener: Option<TcpListener>,
    asked: Option<(u16, u16)>,
    given: u16,
    open: Open,
    // With room for each link.
    finished: Vec<TcpSpent>,
    ended: bool,
    faults: u64,
}

impl<'a, R: Net<Listener = TcpListener, Stream = TcpStream> + Clock> Model for TcpGate<'a, R> {
    ghost use Rattle.std.specs.Prelude.{◌≤◌, vec_len, vec_capacity};
    ghost use Rattle.edge_io.specs.Gate.{asked_of};
    ghost use Rattle.tcp_edge.specs.Counts.{GateCounts, all_fresh};

    ghost Value = { GateCounts };

    ghost view = { λ g. record { given = all_fresh g.given; finished = g.finished.items; asked = asked_of g.asked; ended = g.ended; faults = g.faults } };

    ghost invariant = { λ g. (65535 ≤ vec_capacity g.finished) × (vec_len g.finished ≤ g.given) };
}

impl<'a, R: Net<Listener = TcpListener, Stream = TcpStream> + Clock> TcpGate<'a, R> {
    /// A gate that isn't open, with room for what is left of 65,535 links, and the limits `LIMITS`.
    pub fn new(rt: &'a R, alloc: Global) -> Result<TcpGate<'a, R>, OutOfMemory>
        ensures { IfOk result (λ g. g ≡ closed_gate) }
    {
        TcpGate::with_limits(rt, alloc, LIMITS)
    }

    /// The same with these limits.
    pub fn with_limits(
        rt: &'a R,
        alloc: Global,
        limits: Limits,
    ) -> Result<TcpGate<'a, R>, OutOfMemory>
        ensures { IfOk result (λ g. g ≡ closed_gate) }
    {
        Ok(TcpGate {
            rt,
            limits,
            listener: None,
            asked: None,
            given: 0,
            open: Open::new(alloc),
            finished: Vec::with_capacity(alloc, MOST_LINKS)?,
            ended: false,
            faults: 0,
        })
    }

    /// The port that is open, which the system chose where 0 was asked for; 0 where none is.
    pub fn port(&self) -> u16 {
        match &self.listener {
            Some(listener) => listener.local_addr().map_or(0, |address| address.port()),
            None => 0,
        }
    }
}

impl<'a, R: Net<Listener = TcpListener, Stream = TcpStream> + Clock> Gate for TcpGate<'a, R> {
    type Link = TcpLink;

    ghost faults = { λ g. g.faults };

    ghost given = { λ g. g.given };

    ghost finished = { λ g. g.finished };

    ghost asked = { λ g. g.asked };

    ghost ended = { λ g. g.ended };

    fn listen(&mut self, port: u16, links: u16) -> bool {
        let address = SocketAddr::V4(SocketAddrV4::new(Ipv4Addr::UNSPECIFIED, port));
        match TcpListener::bind(self.rt, address) {
            Ok(listener) => {
                c::listen(listener.as_raw_fd(), MOST_WAITING);
                self.listener = Some(listener);
                self.asked = Some((port, links));
                true
            }
            Err(_) => {
                self.faults = self.faults.saturating_add(1);
                false
            }
        }
    }

    /// Where no link comes the port is closed: who connects from now on is refused, and doesn't wait for ever.
    fn next(&mut self) -> Next<TcpLink> {
        if self.ended || !has_room(&self.asked, self.given) {
            self.ended = true;
            self.listener = None;
            return Next::End;
        }
        match next_link(self.rt, &self.listener, &self.limits, &mut self.open) {
            Some(link) => {
                self.given += 1;
                Next::Link(link)
            }
            None => {
                self.faults = self.faults.saturating_add(1);
                self.listener = None;
                Next::Failed
            }
        }
    }

    fn done(&mut self, spent: TcpSpent) {
        self.finished.push_reserved(spent);
    }

    /// Ends the oldest link whose client isn't ready, once that has had a second, unless one was closed meanwhile.
    fn make_room(&mut self) {
        self.open.make_room(self.rt);
    }
}

/// Whether fewer links were given than were asked for.
fn has_room(asked: &Option<(u16, u16)>, given: u16) -> bool
    ensures { result ≡ has_room (asked_of asked.now) given }
{
    match asked {
        Some((_, links)) => given < *links,
        None => false,
    }
}

/// The link of the next client that connects; None where the port is of no use, or the system gives no handle for a minute
/// in which no link is open.
fn next_link<R: Clock>(
    rt: &R,
    listener: &Option<TcpListener>,
    limits: &Limits,
    open: &mut Open,
) -> Option<TcpLink>
    ensures { IfSome result (λ l. l ≡ fresh) }
{
    let listener = listener.as_ref()?;
    let mut patience = Patience::new(rt, open);
    let stream = accepted(listener, &mut patience)?;
    let other = second_handle(&stream, &mut patience)?;
    let share = open.add(&stream);
    Some(TcpLink::new(stream, other, limits, share))
}

/// The next connection. Clients that have given up are passed over.
fn accepted<R: Clock>(listener: &TcpListener, patience: &mut Patience<'_, R>) -> Option<TcpStream> {
    for _ in 0..u64::MAX {
        match listener.accept() {
            Ok((stream, _)) => return Some(stream),
            Err(e) => match Refusal::of(&e) {
                Refusal::Gone => {}
                Refusal::Wanting if patience.wait() => {}
                Refusal::Wanting | Refusal::Broken => return None,
            },
        }
    }
    None
}

/// A further handle of a connection, which is kept while the system has no descriptor for one.
fn second_handle<R: Clock>(
    stream: &TcpStream,
    patience: &mut Patience<'_, R>,
) -> Option<TcpStream> {
    for _ in 0..u64::MAX {
        match stream.try_clone() {
            Ok(other) => return Some(other),
            Err(_) if patience.wait() => {}
            Err(_) => return None,
        }
    }
    None
}
