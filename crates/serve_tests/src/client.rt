//! The clients of these tests: what a viewer of `look_net` says in its connection sequence, which confirms opaque rectangles alone, at 24 bits
//! or at 16, or the fast path besides, and what a client may send behind that.

use crate::checks::SIZE;
use caps_sets::preset;
use conn_core::Conn;
use info_lic::Name;
use look_net::Look;
use session_core::OutOfMemory;
use std::alloc::{AllocError, Global};

/// How many bytes answer its connection sequence.
pub const ANSWER: usize = 706;

/// What such a viewer confirms, at each depth.
pub const PLAIN: &[u8] = b"plain";

pub const PLAIN_AT_16_BITS: &[u8] = b"plain bpp=16";

/// What a viewer confirms that takes the fast path.
pub const FAST: &[u8] = b"plain fast";

/// More turns than a connection sequence takes.
const MOST_TURNS: u32 = 100;

/// What a viewer says in its connection sequence: up to Client Info, and from Confirm Active to Font List, all of which answers Demand
/// Active.
#[derive(Drop)]
struct Said {
    hello: Vec<u8>,
    ready: Vec<u8>,
}

/// A share data PDU: its type, and what stands behind its header of 18 bytes, at most 200 bytes.
pub struct Data {
    kind: u8,
    body: &'static [u8],
}

/// An Input PDU with one event: the first button of the mouse is pressed at (20, 20) ([MS-RDPBCGR] 2.2.8.1.1.3).
pub const PRESS: Data = Data {
    kind: 0x1C,
    body: &[
        0x01, 0x00, 0x00, 0x00, // one event
        0x00, 0x00, 0x00, 0x00, 0x01, 0x80, // its time, and its type
        0x00, 0x90, 0x14, 0x00, 0x14, 0x00, // PTRFLAGS_DOWN and PTRFLAGS_BUTTON1, x, y
    ],
};

/// A Refresh Rect PDU: all of 64 by 48 pixels ([MS-RDPBCGR] 2.2.11.2).
pub const REFRESH_ALL: Data = Data {
    kind: 0x21,
    body: &[
        0x01, 0x00, 0x00, 0x00, // one area
        0x00, 0x00, 0x00, 0x00, 0x3F, 0x00, 0x2F, 0x00, // from (0, 0) to (63, 47)
    ],
};

/// A Suppress Output PDU: SUPPRESS_DISPLAY_UPDATES ([MS-RDPBCGR] 2.2.11.3).
pub const STOP_OUTPUT: Data = Data {
    kind: 0x23,
    body: &[0x00, 0x00, 0x00, 0x00],
};

/// Puts a share data PDU in its packet behind bytes.
fn put_data(out: &mut Vec<u8>, data: &Data) -> Result<(), AllocError> {
    let length = u8::try_from(data.body.len()).unwrap_or(0);
    let user_data = length.wrapping_add(18);
    out.extend_from_slice(&[0x03, 0x00, 0x00, length.wrapping_add(32)])?; // TPKT
    out.extend_from_slice(&[0x02, 0xF0, 0x80])?; // X.224
    out.extend_from_slice(&[0x64, 0x00, 0x06, 0x03, 0xEB, 0x70, user_data])?; // MCS Send Data
    out.extend_from_slice(&[user_data, 0x00, 0x17, 0x00, 0xEF, 0x03])?; // share control
    out.extend_from_slice(&[0xEA, 0x03, 0x01, 0x00, 0x00, 0x01])?; // share id, stream
    out.extend_from_slice(&[length.wrapping_add(4), 0x00, data.kind, 0x00, 0x00, 0x00])?;
    out.extend_from_slice(data.body)?;
    Ok(())
}

/// What a viewer of this name, which confirms what these words say, says to a host.
fn viewer_says(alloc: Global, name: &Name, words: &[u8]) -> Result<Said, OutOfMemory> {
    let mut hello = Vec::new(alloc);
    let mut ready = Vec::new(alloc);
    let Some(confirmed) = preset(words) else {
        return Ok(Said { hello, ready });
    };
    let mut conn = Conn::new(alloc, SIZE)?;
    let mut look = Look::new(alloc, *name, confirmed)?;
    let mut heard = Vec::new(alloc);
    let mut steps = Vec::new(alloc);
    look.start(&mut ready)?;
    for _ in 0..MOST_TURNS {
        heard.clear();
        if conn.feed(&ready, &mut heard, &mut steps).is_err() {
            return Err(OutOfMemory);
        }
        let mut text = Vec::new(alloc);
        if look.feed(&heard, &mut text).is_err() {
            return Err(OutOfMemory);
        }
        if text.is_empty() {
            break;
        }
        hello.extend_from_slice(&ready)?;
        ready = text;
    }
    Ok(Said { hello, ready })
}

/// Its packets up to Client Info.
pub fn hello(alloc: Global, name: &Name) -> Result<Vec<u8>, OutOfMemory> {
    Ok(viewer_says(alloc, name, PLAIN)?.hello)
}

/// Its packets from Confirm Active to Font List.
pub fn ready(alloc: Global, name: &Name) -> Result<Vec<u8>, OutOfMemory> {
    Ok(viewer_says(alloc, name, PLAIN)?.ready)
}

/// All of its packets.
pub fn whole(alloc: Global, name: &Name) -> Result<Vec<u8>, OutOfMemory> {
    whole_of(alloc, name, PLAIN)
}

/// All packets of a viewer that confirms what these words say.
pub fn whole_of(alloc: Global, name: &Name, words: &[u8]) -> Result<Vec<u8>, OutOfMemory> {
    let Said {
        hello: mut whole,
        ready,
    } = viewer_says(alloc, name, words)?;
    whole.extend_from_slice(&ready)?;
    Ok(whole)
}

/// The packets of share data PDUs.
pub fn packets(alloc: Global, list: &[Data]) -> Result<Vec<u8>, AllocError> {
    let mut out = Vec::new(alloc);
    for data in list {
        put_data(&mut out, data)?;
    }
    Ok(out)
}
