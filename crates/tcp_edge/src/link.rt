ghost use Rattle.std.specs.Prelude.{◌≡◌};
ghost use Rattle.std.specs.declared.option.Option.TheVariants.{None};
ghost use Rattle.tcp_edge.specs.Counts.{fresh};

use crate::limits::Limits;
use crate::open::Share;
use crate::options;
use crate::reader::TcpReader;
use crate::stage::Stage;
use crate::writer::TcpWriter;
use edge_io::Link;
use std::io::Read;
use std::marker::Model;
use std::net::{Shutdown, TcpStream};
use std::time::Duration;

/// How many milliseconds the end of a connection waits for each of the client's last bytes (profile),
const LAST_READ: u64 = 500;

/// and how many reads it makes of them.
const LAST_READS: u32 = 64;

/// A connection: two handles of one stream. Contracts see how often its halves have failed.
#[derive(Drop)]
pub struct TcpLink {
    reader: TcpReader,
    writer: TcpWriter,
}

/// What is left of a connection: how often its halves have failed.
#[derive(Drop)]
pub struct TcpSpent {
    read_faults: u64,
    write_faults: u64,
}

impl Model for TcpLink {
    ghost use Rattle.tcp_edge.specs.Counts.{LinkCounts};

    ghost Value = { LinkCounts };

    ghost view = { λ l. record { read_faults = l.reader.faults; write_faults = l.writer.faults } };
}

impl Model for TcpSpent {
    ghost use Rattle.tcp_edge.specs.Counts.{LinkCounts};

    ghost Value = { LinkCounts };

    ghost view = { λ s. record { read_faults = s.read_faults; write_faults = s.write_faults } };
}

impl TcpLink {
    /// A link of two handles of one stream. A limit or an option that the system doesn't take is left out.
    pub(crate) fn new(
        stream: TcpStream,
        other: TcpStream,
        limits: &Limits,
        share: Option<Share>,
    ) -> TcpLink
        ensures { result ≡ fresh }
    {
        let _ = stream.set_nodelay(true);
        let _ = stream.set_read_timeout(Some(Duration::from_millis(limits.first_read)));
        let _ = stream.set_write_timeout(Some(Duration::from_millis(limits.write)));
        options::watch(&stream);
        TcpLink {
            reader: TcpReader {
                share,
                stream,
                stage: Stage::Silent {
                    sequence: limits.sequence,
                },
                faults: 0,
            },
            writer: TcpWriter {
                stream: other,
                faults: 0,
            },
        }
    }
}

impl Link for TcpLink {
    type Reader = TcpReader;

    type Writer = TcpWriter;

    type Spent = TcpSpent;

    ghost left = { λ _. None };

    ghost told = { λ _. None };

    ghost reader_faults = { λ l. l.read_faults };

    ghost writer_faults = { λ l. l.write_faults };

    ghost spent_left = { λ _. None };

    ghost spent_told = { λ _. None };

    ghost spent_reader_faults = { λ s. s.read_faults };

    ghost spent_writer_faults = { λ s. s.write_faults };

    fn split(self) -> (TcpReader, TcpWriter) {
        let TcpLink { reader, writer } = self;
        (reader, writer)
    }

    fn close(reader: TcpReader, writer: TcpWriter) -> TcpSpent {
        let TcpReader {
            share,
            stream: mut rest,
            stage: _,
            faults: read_faults,
        } = reader;
        let TcpWriter {
            stream,
            faults: write_faults,
        } = writer;
        if let Some(share) = &share {
            share.free();
        }
        if stream.shutdown(Shutdown::Write).is_ok() {
            drain(&mut rest);
        }
        drop(share);
        TcpSpent {
            read_faults,
            write_faults,
        }
    }
}

/// Reads what the client still sends, for a while, unless its gate ends that. Bytes that nobody read would make the system reset the connection,
/// and a reset can overtake what was written last.
fn drain(stream: &mut TcpStream) {
    let each = Duration::from_millis(LAST_READ);
    if stream.set_read_timeout(Some(each)).is_err() {
        return;
    }
    let mut buf = [0u8; 4_096];
    for _ in 0..LAST_READS {
        match stream.read(&mut buf) {
            Ok(0) | Err(_) => return,
            Ok(_) => {}
        }
    }
}
