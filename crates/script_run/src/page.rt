ghost use Rattle.std.specs.Prelude.{◌≡◌, ◌+◌, ◌++◌, ◌<◌, ◌≤◌, [], length, take, IfOk, IfErr, OnOk, OnErr};
ghost use Rattle.std.specs.Io.KnownBytes.{Appends};
ghost use Rattle.std.specs.Bool.{MatchBool};
ghost use Rattle.edge_io.specs.Sink.{WritesFront};
ghost use Rattle.script_run.specs.Held.{Holds};
ghost use Rattle.script_run.specs.Run.{WritesCause};
ghost use Rattle.script_run.specs.Steps.{IsWriteFault};
ghost use Rattle.script_run.specs.declared.page.TheConstants.{ROOM};

use crate::OutOfMemory;
use crate::fault::ScriptFault;
use crate::found::put;
use edge_io::Sink;
use std::alloc::Global;
use std::marker::Model;

/// The most bytes that are held back (profile).
const ROOM: usize = 65_536;

/// What is held back for an output, in a buffer that doesn't grow.
#[derive(Drop)]
pub(crate) struct Page {
    buffer: Vec<u8>,
    count: usize,
}

impl Model for Page {
    ghost use Rattle.std.specs.Prelude.{◌≡◌, ◌≤◌, ℕ, List, take, vec_len};
    ghost use Rattle.script_run.specs.declared.page.TheConstants.{ROOM};

    ghost Value = { List ℕ };

    ghost view = { λ p. take p.count p.buffer.items };

    ghost invariant = { λ p. (vec_len p.buffer ≡ ROOM) × (p.count ≤ ROOM) };
}

impl Page {
    /// Nothing is held back.
    pub(crate) fn new(alloc: Global) -> Result<Page, OutOfMemory>
        ensures { IfOk result (λ page. page ≡ []) }
    {
        Ok(Page {
            buffer: vec![in alloc; 0; ROOM]?,
            count: 0,
        })
    }

    /// The bytes that are held back.
    fn bytes(&self) -> &[u8]
        ensures { result.now ≡ self.now }
    {
        &self.buffer[..self.count]
    }

    /// Whether a text can be held back, too.
    fn has_room(&self, text: &[u8]) -> bool
        ensures { MatchBool result (length self.now + length text.now ≤ ROOM) (ROOM < length self.now + length text.now) }
    {
        text.len() <= ROOM - self.count
    }

    /// Holds back a text, too.
    fn append(&mut self, text: &[u8])
        requires { length self.old + length text.now ≤ ROOM }
        ensures { self.new ≡ self.old ++ text.now }
    {
        put_behind(&mut self.buffer, self.count, text);
        self.count += text.len();
    }

    /// Holds nothing back any more.
    fn clear(&mut self)
        ensures { self.new ≡ [] }
    {
        self.count = 0;
    }
}

/// Puts a text into a buffer, behind its first bytes.
fn put_behind(buffer: &mut [u8], count: usize, text: &[u8])
    requires { count + length text.now ≤ length buffer.old }
    ensures text { take (count + length text.now) buffer.new ≡ take count buffer.old ++ text.now }
    ensures size { length buffer.new ≡ length buffer.old }
{
    buffer[count..count + text.len()].copy_from_slice(text);
}

/// Holds back a text for the output; where there is no room for it, what was held back is written first. An `Err` holds nothing back, and
/// leaves a front of all that in the output.
pub(crate) fn hold<K: Sink>(output: &mut K, page: &mut Page, text: &[u8]) -> Result<(), ScriptFault>
    ensures held { OnOk result (Holds (K.told output.old) (K.told output.new) page.old page.new text.now) }
    ensures front { OnErr result (WritesFront (K.told output.old) (K.told output.new) (page.old ++ text.now)) }
    ensures empty { OnErr result (page.new ≡ []) }
    ensures fault { IfErr result IsWriteFault }
    ensures cause { WritesCause result (K.faults output.old) (K.faults output.new) }
{
    if page.has_room(text) {
        page.append(text);
        return Ok(());
    }
    flush(output, page)?;
    if page.has_room(text) {
        page.append(text);
        return Ok(());
    }
    put(output, text)
}

/// Writes what was held back; where nothing was the output isn't called. An `Err` leaves a front of it there, and holds nothing back.
pub(crate) fn flush<K: Sink>(output: &mut K, page: &mut Page) -> Result<(), ScriptFault>
    ensures written { OnOk result (Appends (K.told output.old) (K.told output.new) page.old) }
    ensures front { OnErr result (WritesFront (K.told output.old) (K.told output.new) page.old) }
    ensures empty { page.new ≡ [] }
    ensures some { OnErr result (0 < length page.old) }
    ensures fault { IfErr result IsWriteFault }
    ensures cause { WritesCause result (K.faults output.old) (K.faults output.new) }
{
    let written = put(output, page.bytes());
    page.clear();
    written
}
