//! What is done where the system gives no handle of a new connection, by the errors that Linux lists for accept(2).
//!
//! | error | number | what it says | what is done |
//! |---|---|---|---|
//! | `ENONET`, `EPROTO`, `ENOPROTOOPT`, `EOPNOTSUPP`, `ENETDOWN`, `ENETUNREACH`, `EHOSTDOWN`, `EHOSTUNREACH` | 64, 71, 92, 95, 100, 101, 112, 113 | an error of the network that waited for the new connection | the next is accepted |
//! | `ECONNABORTED`, `ETIMEDOUT` | 103, 110 | the client gave up before it was accepted | the next is accepted |
//! | `ENOMEM`, `ENFILE`, `EMFILE`, `ENOBUFS` | 12, 23, 24, 105 | the system has no descriptor or memory left | it is tried again after a while, as long as links are open |
//! | all others | | the port is of no use any more | a fault of the gate |
use crate::open::Open;
use libc::{ECONNABORTED, EMFILE, ENOMEM, ETIMEDOUT};
use std::time::{Clock, Duration};
use std::{io, thread};

const ENFILE: i32 = 23;

const ENONET: i32 = 64;

const EPROTO: i32 = 71;

const ENOPROTOOPT: i32 = 92;

const EOPNOTSUPP: i32 = 95;

const ENETDOWN: i32 = 100;

const ENETUNREACH: i32 = 101;

const ENOBUFS: i32 = 105;

const EHOSTDOWN: i32 = 112;

const EHOSTUNREACH: i32 = 113;

/// How often a gate that has no open link waits for descriptors or memory before that is a fault (profile),
const MOST_WAITS: u32 = 600;

/// how many milliseconds each time,
const WAIT: u64 = 100;

/// and how many where it has ended a link for that.
const SHORT_WAIT: u64 = 10;

/// What an error says of a connection that wasn't made.
pub enum Refusal {
    /// That client is gone: the next is accepted.
    Gone,
    /// The system has no descriptor or memory left: some time may help.
    Wanting,
    /// The port is of no use any more.
    Broken,
}

impl Refusal {
    pub fn of(e: &io::Error) -> Refusal {
        match e.raw_os_error() {
            Some(
                ENONET
                | EPROTO
                | ENOPROTOOPT
                | EOPNOTSUPP
                | ENETDOWN
                | ENETUNREACH
                | EHOSTDOWN
                | EHOSTUNREACH
                | ECONNABORTED
                | ETIMEDOUT,
            ) => Refusal::Gone,
            Some(ENOMEM | ENFILE | EMFILE | ENOBUFS) => Refusal::Wanting,
            _ => Refusal::Broken,
        }
    }
}

/// How often a gate has waited for one connection since it had an open link.
#[derive(Drop)]
pub struct Patience<'a, R: Clock> {
    rt: &'a R,
    open: &'a Open,
    waits: u32,
}

impl<'a, R: Clock> Patience<'a, R> {
    pub fn new(rt: &'a R, open: &'a Open) -> Patience<'a, R> {
        Patience { rt, open, waits: 0 }
    }

    /// Waits a while: a link that is open gives its descriptors back when it ends, and one whose client isn't ready is ended for that.
    /// Without any it doesn't wait where it has waited long enough. Whether it has waited.
    pub fn wait(&mut self) -> bool {
        let mut pause = WAIT;
        if self.open.has_any() {
            if self.open.end_oldest() {
                pause = SHORT_WAIT;
            }
            self.waits = 0;
        } else if self.waits >= MOST_WAITS {
            return false;
        } else {
            self.waits += 1;
        }
        thread::sleep(self.rt, Duration::from_millis(pause));
        true
    }
}
