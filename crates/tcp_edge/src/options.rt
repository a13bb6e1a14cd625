//! The options of a connection by which the system finds out that its client's machine is gone (profile).
//!
//! | option | value | what the system does |
//! |---|---|---|
//! | `SO_KEEPALIVE` | 1 | asks a silent client's machine whether it is there |
//! | `TCP_KEEPIDLE` | 60 s | asks after so much silence |
//! | `TCP_KEEPINTVL` | 15 s | asks again after so much more |
//! | `TCP_KEEPCNT` | 4 | gives the connection up after so many questions without an answer |
//! | `TCP_USER_TIMEOUT` | 120 s | gives the connection up where what was sent stays unanswered for so long |
ghost use Rattle.libc.specs.Net.{SockOption};

use libc::net as c;
use std::net::TcpStream;
use std::os::fd::AsRawFd;

const KEEP_IDLE_SECONDS: i32 = 60;

const KEEP_INTERVAL_SECONDS: i32 = 15;

const KEEP_COUNT: i32 = 4;

/// As long as the system's questions take: 60 s, and 4 times 15 s.
const UNANSWERED_MILLISECONDS: i32 = 120_000;

/// How many bytes a number takes as an option's value.
const NUMBER_LENGTH: usize = 4;

/// Has the system find out whether the client's machine is gone.
pub fn watch(stream: &TcpStream) {
    let fd = stream.as_raw_fd();
    let tcp = c::IPPROTO_TCP;
    set(fd, c::SOL_SOCKET, c::SO_KEEPALIVE, 1);
    set(fd, tcp, c::TCP_KEEPIDLE, KEEP_IDLE_SECONDS);
    set(fd, tcp, c::TCP_KEEPINTVL, KEEP_INTERVAL_SECONDS);
    set(fd, tcp, c::TCP_KEEPCNT, KEEP_COUNT);
    set(fd, tcp, c::TCP_USER_TIMEOUT, UNANSWERED_MILLISECONDS);
}

/// Sets an option whose value is a number. Where the system doesn't take it, the connection goes without it.
fn set(fd: i32, level: i32, option: i32, number: i32)
    requires { SockOption level option }
{
    let mut value = [0u8; 16];
    value[..NUMBER_LENGTH].copy_from_slice(&number.to_ne_bytes());
    unsafe {
        c::setsockopt(fd, level, option, &value, NUMBER_LENGTH as u32);
    }
}
