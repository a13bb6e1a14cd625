//! Packets of the fast path ([MS-RDPBCGR] 2.2.8.1.2 and 2.2.9.1.2): an update is written, and events are read.

use crate::checks::are_written;
use fast_path::{read_fast, write_fast};
use input_pdu::Event;
use std::process::Abort;
use std::test::Fail;

/// The code of an update of orders.
const ORDERS: u8 = 0;

/// One order, a black fill of a picture, behind the number of orders.
const FILL: [u8; 7] = [0x01, 0x00, 0x19, 0x0A, 0x0C, 0x40, 0x30];

/// The mouse with button 1 down at (20, 20), and the press of a key.
const CLICK_AND_KEY: [u8; 11] = [
    0x08, 0x0B, 0x20, 0x00, 0x90, 0x14, 0x00, 0x14, 0x00, 0x00, 0x1E,
];

/// The events that were read are the expected ones.
fn are_read(rt: &impl Abort, events: &[Event], wanted: &[Event]) {
    assert_eq!(rt; events, wanted);
}

#[test]
#[tactic(auto, unfolding(fast_path::specs::Written::fast_headers))]
fn a_fast_update_is_written_and_fast_events_are_read(rt: HostRuntime) -> Result<(), Fail> {
    let mut out = Vec::new(rt.alloc());
    write_fast(&mut out, ORDERS, &FILL)?;
    let wanted: &[u8] = &[
        0x00, 0x0C, // fpOutputHeader, length
        0x00, 0x07, 0x00, // updateHeader, size
        0x01, 0x00, 0x19, 0x0A, 0x0C, 0x40, 0x30, // the data
    ];
    are_written(&rt, out.as_slice(), wanted);
    let mut events = Vec::new(rt.alloc());
    read_fast(&CLICK_AND_KEY, &mut events)?;
    let told: &[Event] = &[
        Event::Mouse {
            flags: 0x9000,
            x: 20,
            y: 20,
        },
        Event::Scan {
            code: 0x1E,
            up: false,
        },
    ];
    are_read(&rt, events.as_slice(), told);
    Ok(())
}
