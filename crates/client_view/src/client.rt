//! A client: a host's stream in any pieces, or packet by packet, and what it shows at its marks.

ghost use Rattle.std.specs.Prelude.{◌≡◌, ◌<◌, Some, None, Err, length, IfOk, IfSome, OnErr};
ghost use Rattle.px_core.specs.Picture.{pixel_at};
ghost use Rattle.order_means.specs.FrameMarks.{ClientReading, first_reading, read_on};
ghost use Rattle.update_read.specs.Wholes.{IsWholePacket};
ghost use Rattle.client_picture.specs.Pictures.{unknown_picture};
ghost use Rattle.client_view.specs.Views.{capped, last_picture, SameViewer};
ghost use Rattle.client_view.specs.Clients.{IsReading, Feeds};
ghost use Rattle.client_view.specs.OnTheWay.{Stops, ComesTo};
ghost use Rattle.client_view.specs.Widened.{widened_picture};

use crate::reading::{read_bytes, read_whole};
use crate::viewer::Viewer;
use crate::wide::widened;
use crate::{ClientFault, OutOfMemory};
use caps_sets::Confirmed;
use px_core::Size;
use std::alloc::Global;
use std::marker::Model;
use update_read::Cutter;

/// What a viewer is shown: it reads the host's bytes from the first update on, in packets of the fast path too where it takes them, and keeps
/// the picture of its last mark.
#[derive(Drop)]
pub struct Client {
    alloc: Global,
    viewer: Viewer,
    cutter: Cutter,
    end: Option<ClientFault>,
}

impl Model for Client {
    ghost use Rattle.client_view.specs.Clients.{ClientOf};

    ghost Value = { ClientOf };

    ghost view = { λ c. record { viewer = c.viewer; cutter = c.cutter; end = c.end } };
}

impl Client {
    /// A client before the first byte, of a viewer that confirmed this, with a picture of this size. There is no memory for a side above 65,535.
    pub fn new(alloc: Global, confirmed: Confirmed, size: Size) -> Result<Client, OutOfMemory>
        ensures reading { IfOk result (IsReading (first_reading confirmed size)) }
        ensures confirmed { IfOk result (λ client. client.viewer.confirmed ≡ confirmed) }
        ensures size { IfOk result (λ client. client.viewer.pictures.size ≡ size) }
    {
        let fast = confirmed.fast;
        let viewer = Viewer::new(alloc, confirmed, size)?;
        let cutter = Cutter::new(alloc, fast)?;
        Ok(Client {
            alloc,
            viewer,
            cutter,
            end: None,
        })
    }

    /// Reads the next bytes of the stream, and refuses it where it is to be refused, then and from then on. After want of memory the client
    /// is spent, and answers it again. After an `Err` nothing changes any more: the marks, the picture of the last one and the counts are
    /// those of a view that the reading came to: before an update, also behind others of its packet, or behind some of its orders or rectangles.
    pub fn feed(&mut self, bytes: &[u8]) -> Result<(), ClientFault>
        ensures read { (r : ClientReading) → IsReading r self.old
            → Feeds result (read_on self.old.viewer.confirmed self.old.viewer.pictures.size r bytes.now) self.new }
        ensures same { SameViewer self.old.viewer self.new.viewer }
        ensures stopped { (r : ClientReading) → IsReading r self.old
            → OnErr result (Stops (ComesTo self.old.viewer.confirmed self.old.viewer.pictures.size r bytes.now) self.new.viewer) }
        ensures ended { IfSome self.old.end (λ fault. (result ≡ Err fault) × (self.new ≡ self.old)) }
    {
        if let Some(fault) = self.end {
            return Err(fault);
        }
        match read_bytes(&mut self.viewer, &mut self.cutter, self.alloc, bytes) {
            Ok(()) => Ok(()),
            Err(fault) => Err(self.stop(fault)),
        }
    }

    /// Reads one whole packet of the stream, of either kind, as `feed` reads its bytes, but without copying it or looking for its end again.
    pub fn feed_packet(&mut self, packet: &[u8]) -> Result<(), ClientFault>
        requires { IsWholePacket packet.now }
        ensures read { (r : ClientReading) → IsReading r self.old
            → Feeds result (read_on self.old.viewer.confirmed self.old.viewer.pictures.size r packet.now) self.new }
        ensures same { SameViewer self.old.viewer self.new.viewer }
        ensures stopped { (r : ClientReading) → IsReading r self.old
            → OnErr result (Stops (ComesTo self.old.viewer.confirmed self.old.viewer.pictures.size r packet.now) self.new.viewer) }
        ensures ended { IfSome self.old.end (λ fault. (result ≡ Err fault) × (self.new ≡ self.old)) }
    {
        if let Some(fault) = self.end {
            return Err(fault);
        }
        match read_whole(&mut self.viewer, &mut self.cutter, self.alloc, packet) {
            Ok(()) => Ok(()),
            Err(fault) => Err(self.stop(fault)),
        }
    }

    /// Nothing is read behind a fault.
    fn stop(&mut self, fault: ClientFault) -> ClientFault
        ensures fault { result ≡ fault }
        ensures ends { self.new ≡ record self.old { end = Some fault } }
    {
        self.end = Some(fault);
        fault
    }

    /// How many marks there were, at most 2^64 - 1.
    pub fn marks(&self) -> u64
        ensures value { result ≡ self.now.viewer.marks }
        ensures shown { (r : ClientReading) → IsReading r self.now → result ≡ capped (length r.view.pictures) }
    {
        self.viewer.marks
    }

    /// How many primary orders were obeyed, also after the last mark, at most 2^64 - 1.
    pub fn orders(&self) -> u64
        ensures value { result ≡ self.now.viewer.orders }
        ensures shown { (r : ClientReading) → IsReading r self.now → result ≡ capped r.view.orders }
    {
        self.viewer.orders
    }

    /// How many rectangles of Bitmap updates were written, also after the last mark, at most 2^64 - 1.
    pub fn tiles(&self) -> u64
        ensures value { result ≡ self.now.viewer.tiles }
        ensures shown { (r : ClientReading) → IsReading r self.now → result ≡ capped r.view.tiles }
    {
        self.viewer.tiles
    }

    /// The sides of the picture in pixels.
    pub fn size(&self) -> Size
        ensures { result ≡ self.now.viewer.pictures.size }
    {
        self.viewer.pictures.size()
    }

    /// The colour that pixel (x, y) had at the last mark, as `65536 * red + 256 * green + blue`, of which a viewer of 16 bits has the highest 5, 6
    /// and 5 bits and the others are 0; `None` where it was unknown or there was no mark.
    pub fn marked(&self, x: u32, y: u32) -> Option<u32>
        requires column { x < self.now.viewer.pictures.size.w }
        requires row { y < self.now.viewer.pictures.size.h }
        ensures value { result ≡ pixel_at self.now.viewer.pictures.size (widened_picture self.now.viewer.pictures.depth self.now.viewer.pictures.marked) None x y }
        ensures shown { (r : ClientReading) → IsReading r self.now
            → result ≡ pixel_at self.now.viewer.pictures.size (widened_picture r.view.client.depth (last_picture (unknown_picture self.now.viewer.pictures.size) r.view.pictures)) None x y }
    {
        match self.viewer.pictures.marked(x, y) {
            None => None,
            Some(color) => Some(widened(color, self.viewer.pictures.depth())),
        }
    }
}
