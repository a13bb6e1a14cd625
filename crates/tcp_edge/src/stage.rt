//! How long the reads of a connection wait, by how far its client has come.
ghost use Rattle.std.specs.Prelude.{◌≡◌, false};
ghost use Rattle.tcp_edge.specs.Limits.{is_limited};

use libc::CLOCK_MONOTONIC;
use libc::types::timespec;
use std::net::TcpStream;
use std::time::Duration;

/// How far a client has come.
#[derive(Clone, Copy)]
pub enum Stage {
    /// It has said nothing. A read waits for as long as the system was told when the connection was made; from the first
    /// bytes on the client has so many milliseconds, if that is limited.
    Silent { sequence: Option<u64> },
    /// It has said something. A read waits until the clock says so.
    Heard { until: u64 },
    /// A read waits for as long as it takes.
    Free,
}

impl Stage {
    /// From now on a read waits for as long as it takes.
    pub fn free(stream: &TcpStream) -> Stage
        ensures { is_limited result ≡ false }
    {
        let _ = stream.set_read_timeout(None);
        Stage::Free
    }

    /// Has the next read wait for no longer than is left; whether anything is. A limit that the system doesn't take is left out.
    pub fn limit(self, stream: &TcpStream) -> bool {
        let Stage::Heard { until } = self else {
            return true;
        };
        let left = until.saturating_sub(milliseconds());
        let _ = stream.set_read_timeout(Some(Duration::from_millis(left)));
        left > 0
    }

    /// The stage after some bytes.
    pub fn after_bytes(self, stream: &TcpStream) -> Stage
        ensures { is_limited self ≡ false → is_limited result ≡ false }
    {
        match self {
            Stage::Silent {
                sequence: Some(time),
            } => Stage::Heard {
                until: milliseconds().saturating_add(time),
            },
            Stage::Silent { sequence: None } => Stage::free(stream),
            Stage::Heard { .. } | Stage::Free => self,
        }
    }
}

/// The milliseconds of a clock that never goes back; 0 where the system has none, so that each read has the whole limit.
pub fn milliseconds() -> u64 {
    let mut time = timespec {
        tv_sec: 0,
        tv_nsec: 0,
    };
    if libc::clock_gettime(CLOCK_MONOTONIC, &mut time) != 0 {
        return 0;
    }
    let seconds = Duration::from_secs(time.tv_sec.unsigned_abs());
    let more = Duration::from_nanos(time.tv_nsec.unsigned_abs());
    u64::try_from(seconds.saturating_add(more).as_millis()).unwrap_or(u64::MAX)
}
