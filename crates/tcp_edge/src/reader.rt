ghost use Rattle.std.specs.Prelude.{◌≡◌, false};
ghost use Rattle.std.specs.Io.{ReadsAtMost};
ghost use Rattle.std.specs.declared.option.Option.TheVariants.{None};
ghost use Rattle.tcp_edge.specs.Limits.{is_limited};

use crate::open::Share;
use crate::stage::Stage;
use edge_io::{Got, Source};
use std::io;
use std::io::{ErrorKind, Read};
use std::net::TcpStream;

/// The half of a connection that is read. It tells no content.
#[derive(Drop)]
pub struct TcpReader {
    // Of the gate that gave the connection, if one did. It is dropped before the stream.
    pub(crate) share: Option<Share>,
    pub(crate) stream: TcpStream,
    pub(crate) stage: Stage,
    pub(crate) faults: u64,
}

impl Source for TcpReader {
    ghost left = { λ _. None };

    ghost faults = { λ s. s.faults };

    ghost limited = { λ s. is_limited s.stage };

    fn read(&mut self, buf: &mut [u8]) -> Got {
        match self.read_in_time(buf) {
            Ok(0) => Got::End,
            Ok(count) => Got::Bytes(count),
            Err(_) => {
                self.faults = self.faults.saturating_add(1);
                Got::Failed
            }
        }
    }

    /// The client is ready: its gate may not end the link for another one any more.
    fn lift_limit(&mut self) {
        self.stage = Stage::free(&self.stream);
        if let Some(share) = &self.share {
            share.keep();
        }
    }
}

impl TcpReader {
    /// Reads within the time that the client has, and as long as its gate hasn't ended the link.
    fn read_in_time(&mut self, buf: &mut [u8]) -> io::Result<usize>
        ensures count { ReadsAtMost result buf.new }
        ensures faults { self.new.faults ≡ self.old.faults }
        ensures free { is_limited self.old.stage ≡ false → is_limited self.new.stage ≡ false }
    {
        if self.is_ended() || !self.stage.limit(&self.stream) {
            return Err(io::Error::from(ErrorKind::TimedOut));
        }
        let got = read_some(&mut self.stream, buf);
        if self.is_ended() {
            return Err(io::Error::from(ErrorKind::TimedOut));
        }
        if let Ok(1..) = got {
            self.stage = self.stage.after_bytes(&self.stream);
        }
        got
    }

    fn is_ended(&self) -> bool {
        match &self.share {
            Some(share) => share.is_ended(),
            None => false,
        }
    }
}

/// Reads, and again where a signal came.
fn read_some(stream: &mut TcpStream, buf: &mut [u8]) -> io::Result<usize>
    ensures { ReadsAtMost result buf.new }
{
    for _ in 0..u64::MAX {
        match stream.read(buf) {
            Err(e) if e.kind() == ErrorKind::Interrupted => {}
            got => return got,
        }
    }
    Err(io::Error::from(ErrorKind::Interrupted))
}
