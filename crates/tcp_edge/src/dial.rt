ghost use Rattle.std.specs.Prelude.{◌≡◌, ◌<◌, ◌≤◌, vec_len, vec_capacity, true, IfOk, IfSome};
ghost use Rattle.tcp_edge.specs.Counts.{fresh, new_dial};

use crate::limits::{LIMITS, Limits};
use crate::link::{TcpLink, TcpSpent};
use edge_io::{Dial, OutOfMemory};
use std::alloc::Global;
use std::marker::Model;
use std::net::{Ipv4Addr, Net, SocketAddr, SocketAddrV4, TcpStream};

/// Ports of this machine, over its loopback interface. Before a link is handed out there is room for what is left of it, so taking
/// it back needs no memory.
#[derive(Drop)]
pub struct TcpDial<'a, R: Net<Stream = TcpStream>> {
    rt: &'a R,
    limits: Limits,
    asked: Option<u16>,
    given: usize,
    // With room for each link that was given.
    finished: Vec<TcpSpent>,
    faults: u64,
}

impl<'a, R: Net<Stream = TcpStream>> Model for TcpDial<'a, R> {
    ghost use Rattle.std.specs.Prelude.{◌≤◌, vec_len, vec_capacity};
    ghost use Rattle.tcp_edge.specs.Counts.{DialCounts, all_fresh};

    ghost Value = { DialCounts };

    ghost view = { λ d. record { given = all_fresh d.given; finished = d.finished.items; asked = d.asked; faults = d.faults } };

    ghost invariant = { λ d. (d.given ≤ vec_capacity d.finished) × (vec_len d.finished ≤ d.given) };
}

impl<'a, R: Net<Stream = TcpStream>> TcpDial<'a, R> {
    /// Before any call, with the limits `LIMITS`, and room for what is left of one link.
    pub fn new(rt: &'a R, alloc: Global) -> Result<TcpDial<'a, R>, OutOfMemory>
        ensures { IfOk result (λ d. d ≡ new_dial) }
    {
        TcpDial::with_limits(rt, alloc, LIMITS)
    }

    /// The same with these limits.
    pub fn with_limits(
        rt: &'a R,
        alloc: Global,
        limits: Limits,
    ) -> Result<TcpDial<'a, R>, OutOfMemory>
        ensures { IfOk result (λ d. d ≡ new_dial) }
    {
        Ok(TcpDial {
            rt,
            limits,
            asked: None,
            given: 0,
            finished: Vec::with_capacity(alloc, 1)?,
            faults: 0,
        })
    }
}

impl<'a, R: Net<Stream = TcpStream>> Dial for TcpDial<'a, R> {
    type Link = TcpLink;

    ghost faults = { λ d. d.faults };

    ghost given = { λ d. d.given };

    ghost finished = { λ d. d.finished };

    ghost asked = { λ d. d.asked };

    fn dial(&mut self, port: u16) -> Option<TcpLink> {
        self.asked = Some(port);
        if makes_room(&mut self.finished, self.given) {
            if let Some(link) = link_to(self.rt, port, &self.limits) {
                self.given += 1;
                return Some(link);
            }
        }
        self.faults = self.faults.saturating_add(1);
        None
    }

    fn done(&mut self, spent: TcpSpent) {
        self.finished.push_reserved(spent);
    }
}

/// Makes room for what is left of one more than `given` links, and says whether there is.
fn makes_room(finished: &mut Vec<TcpSpent>, given: usize) -> bool
    requires { vec_len finished.old ≤ given }
    ensures items { finished.new.items ≡ finished.old.items }
    ensures kept { vec_capacity finished.old ≤ vec_capacity finished.new }
    ensures room { result ≡ true → given < vec_capacity finished.new }
{
    if given < finished.capacity() {
        return true;
    }
    match (given - finished.len()).checked_add(1) {
        Some(more) => finished.reserve(more).is_ok(),
        None => false,
    }
}

/// A connection to a port of this machine; `None` where nobody takes it, or the system has no handle for it.
fn link_to<R: Net<Stream = TcpStream>>(rt: &R, port: u16, limits: &Limits) -> Option<TcpLink>
    ensures { IfSome result (λ l. l ≡ fresh) }
{
    let address = SocketAddr::V4(SocketAddrV4::new(Ipv4Addr::LOCALHOST, port));
    let stream = TcpStream::connect(rt, address).ok()?;
    let other = stream.try_clone().ok()?;
    Some(TcpLink::new(stream, other, limits, None))
}
