//! A frame that was taken in one thread and is encoded in another.
ghost use Rattle.std.specs.Prelude.{◌≡◌};
ghost use Rattle.viewer_sender.specs.OwnTakes.{IsOwnTake};

use crate::room::with_two;
use caps_sets::preset;
use std::test::Fail;
use std::thread;
use viewer_sender::{SendFault, Sender, Taken};

/// The packet that a first frame begins with: one order, which fills the picture of 64 by 48 with black.
const BLACK: [u8; 45] = [
    0x03, 0x00, 0x00, 0x2D, 0x02, 0xF0, 0x80, 0x68, 0x00, 0x01, 0x03, 0xEB, 0x70, 0x1F, // TPKT, X.224, MCS
    0x1F, 0x00, 0x17, 0x00, 0xEA, 0x03, 0xEA, 0x03, 0x01, 0x00, 0x00, 0x01, // share control
    0x11, 0x00, 0x02, 0x00, 0x00, 0x00, // share data
    0x00, 0x00, 0x00, 0x00, 0x01, 0x00, 0x00, 0x00, // orders, one
    0x19, 0x0A, 0x0C, 0x40, 0x30, // OpaqueRect, black
];

#[test]
fn a_frame_that_was_taken_here_is_encoded_in_another_thread(rt: HostRuntime) -> Result<(), Fail> {
    let alloc = rt.alloc();
    let mut session = with_two(&rt, alloc)?;
    let confirmed = preset(b"plain").ok_or("no preset words")?;
    let mut sender = Sender::new(alloc, 1, confirmed)?;
    assert!(rt; session.present(1));
    let Taken::Frame(take) = sender.take(alloc, &mut session)? else {
        panic!(rt; "no frame");
    };
    let (packets, _) = thread::join(
        &rt,
        || -> Result<Vec<u8>, SendFault>
            requires { (take.serial ≡ sender.encoded) × IsOwnTake sender.confirmed take }
        { sender.encode(alloc, take) },
        || (),
    );
    assert!(rt; packets?.as_slice().starts_with(&BLACK));
    Ok(())
}
