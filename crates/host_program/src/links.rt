//! The lines of the links that were served (profile): `LINK VIEWER CODE PLACE`.
//!
//! | word | what it is |
//! |---|---|
//! | LINK | the link's number: 1 for the first that came |
//! | VIEWER | the viewer's number, 0 where none joined |
//! | CODE | how the connection ended |
//! | PLACE | of a refused stream, the place in bytes of the field that breaks its rule, else 0 |

ghost use Rattle.std.specs.Prelude.{◌≡◌, ◌++◌, IfOk, OnOk, OnErr, IfErr};
ghost use Rattle.std.specs.Io.KnownBytes.{Appends};
ghost use Rattle.edge_io.specs.Sink.{WritesFront};
ghost use Rattle.script_run.specs.Run.{WritesCause};
ghost use Rattle.script_run.specs.Steps.{IsWriteFault};
ghost use Rattle.host_program.specs.Links.{end_code, end_place, link_line, served_text};

use command_words::OutOfMemory;
use edge_io::Sink;
use script_run::{ScriptFault, put};
use serve_rules::{ConnEnd, ConnReport};
use std::alloc::Global;

/// What the number of a refusal, 1 to 14, is added to.
const REFUSED: u32 = 20;

/// Writes the line of each link, in their order. An `Err` leaves a front of the lines there.
pub(crate) fn put_links<K: Sink>(
    alloc: Global,
    output: &mut K,
    reports: &[ConnReport],
) -> Result<(), ScriptFault>
    ensures written { OnOk result (Appends (K.told output.old) (K.told output.new) (served_text reports.now)) }
    ensures front { OnErr result (WritesFront (K.told output.old) (K.told output.new) (served_text reports.now)) }
    ensures fault { IfErr result IsWriteFault }
    ensures cause { WritesCause result (K.faults output.old) (K.faults output.new) }
{
    let text = served_text(alloc, reports)?;
    put(output, &text)
}

/// The line of each link.
fn served_text(alloc: Global, reports: &[ConnReport]) -> Result<Vec<u8>, OutOfMemory>
    ensures { IfOk result (λ text. text.items ≡ served_text reports.now) }
{
    let mut text = Vec::new(alloc);
    for i in 0..reports.len() {
        write_link(alloc, &mut text, i as u64 + 1, &reports[i])?;
    }
    Ok(text)
}

/// Appends the line of a link.
fn write_link(
    alloc: Global,
    text: &mut Vec<u8>,
    number: u64,
    report: &ConnReport,
) -> Result<(), OutOfMemory>
    ensures { OnOk result (text.new.items ≡ text.old.items ++ link_line number report.now) }
{
    let viewer = report.viewer;
    let code = end_code(report.end);
    let place = end_place(report.end);
    let line = format!(in alloc; "{number} {viewer} {code} {place}\n")?;
    text.extend_from_slice(line.as_bytes())?;
    Ok(())
}

/// The code of a connection's end.
fn end_code(end: ConnEnd) -> u32
    ensures { result ≡ end_code end }
{
    match end {
        ConnEnd::Left => 0,
        ConnEnd::Refused { k, .. } => REFUSED + u32::from(k),
        ConnEnd::Truncated => 35,
        ConnEnd::NotInvited => 36,
        ConnEnd::RoomFull => 37,
        ConnEnd::JoinsSpent => 38,
        ConnEnd::ReadFault => 4,
        ConnEnd::WriteFault => 5,
        ConnEnd::NotStored => 8,
        ConnEnd::OutOfMemory => 6,
    }
}

/// The place of a refusal; 0 where there is none.
fn end_place(end: ConnEnd) -> u64
    ensures { result ≡ end_place end }
{
    match end {
        ConnEnd::Refused { at, .. } => at,
        ConnEnd::Left => 0,
        ConnEnd::Truncated => 0,
        ConnEnd::NotInvited => 0,
        ConnEnd::RoomFull => 0,
        ConnEnd::JoinsSpent => 0,
        ConnEnd::ReadFault => 0,
        ConnEnd::WriteFault => 0,
        ConnEnd::NotStored => 0,
        ConnEnd::OutOfMemory => 0,
    }
}
