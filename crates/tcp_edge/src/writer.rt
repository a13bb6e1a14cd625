ghost use Rattle.std.specs.Prelude.{◌≡◌, false};
ghost use Rattle.std.specs.declared.option.Option.TheVariants.{None};

use edge_io::{FrameSink, Sink, Wrote};
use std::io::Write;
use std::net::{Shutdown, TcpStream};

/// The half of a connection that is written. A fault shuts the connection both ways, which ends a read that waits in
/// the other half. It tells no content.
#[derive(Drop)]
pub struct TcpWriter {
    pub(crate) stream: TcpStream,
    pub(crate) faults: u64,
}

impl Sink for TcpWriter {
    ghost told = { λ _. None };

    ghost faults = { λ s. s.faults };

    fn write_all(&mut self, bytes: &[u8]) -> Wrote {
        match self.stream.write_all(bytes) {
            Ok(()) => Wrote::All,
            Err(_) => {
                let _ = self.stream.shutdown(Shutdown::Both);
                self.faults = self.faults.saturating_add(1);
                Wrote::Failed
            }
        }
    }
}

impl FrameSink for TcpWriter {
    ghost keeps = { false };

    ghost kept = { λ _. 0 };

    fn keep(&mut self, _number: u64) -> Wrote {
        Wrote::All
    }
}
