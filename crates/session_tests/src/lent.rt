//! Takes that are encoded only when the session has gone on.
ghost use Rattle.std.specs.Prelude.{◌≡◌, true, [], ◌∷◌, IfOk};
ghost use Rattle.px_core.specs.Colors.{are_colors};
ghost use Rattle.draw_ops.specs.Ranges.{colors_of};
ghost use Rattle.session_core.specs.Heads.{rows_of};
ghost use Rattle.session_core.specs.SessionModel.{AreInvited};
ghost use Rattle.viewer_sender.specs.OwnTakes.{IsOwnTake};

use caps_sets::preset;
use client_view::Client;
use draw_ops::{Drawing, Shape};
use info_lic::Name;
use px_core::{Rect, Size};
use session_core::{DrawRefusal, Invite, JoinFault, OutOfMemory, Role, Session};
use std::alloc::Global;
use std::process::Abort;
use std::test::Fail;
use viewer_sender::{Sender, Take, Taken};

/// A picture of one tile,
const SIZE: Size = Size { w: 64, h: 64 };

/// and all of it.
const WHOLE: Rect = Rect {
    x: 0,
    y: 0,
    w: 64,
    h: 64,
};

const RED: u32 = 0xFF0000;

const BLUE: u32 = 0x0000FF;

/// An owner, and one who may only view.
fn two_rows() -> [Invite; 2]
    ensures { AreInvited (rows_of result) }
{
    [
        Invite {
            name: Name::new(b"ann"),
            role: Role::Owner,
        },
        Invite {
            name: Name::new(b"eve"),
            role: Role::View,
        },
    ]
}

fn join(session: &mut Session, name: &Name) -> Result<u32, JoinFault> {
    session.join(name)
}

/// A session that ann has joined as viewer 1, and eve as viewer 2. Ann holds control.
fn with_two(rt: &impl Abort, alloc: Global) -> Result<Session, OutOfMemory> {
    let mut session = Session::new(alloc, SIZE, &two_rows())?;
    assert!(rt; join(&mut session, &Name::new(b"ann")) == Ok(1));
    assert!(rt; join(&mut session, &Name::new(b"eve")) == Ok(2));
    Ok(session)
}

/// What a drawing of ann's is answered.
fn draw(rt: &impl Abort, session: &mut Session, shape: Shape) -> Result<(), DrawRefusal>
    requires { are_colors (colors_of shape) ≡ true }
{
    assert!(rt; session.present(1));
    session.draw(1, Drawing { shape, clip: None })
}

/// Ann gives the picture one colour.
fn must_fill(rt: &impl Abort, session: &mut Session, color: u32)
    requires { are_colors (color ∷ []) ≡ true }
{
    assert!(rt; draw(rt, session, Shape::Fill { rect: WHOLE, color }) == Ok(()));
}

/// Ann draws a line in red. No line goes as an order, so its tile goes as a bitmap, and is lent.
fn must_draw_a_line(rt: &impl Abort, session: &mut Session) {
    let line = Shape::Line {
        x0: 0,
        y0: 0,
        x1: 63,
        y1: 10,
        color: RED,
    };
    assert!(rt; draw(rt, session, line) == Ok(()));
}

/// A frame that was taken, and the sender that is to encode it.
#[derive(Drop)]
struct Due {
    sender: Sender,
    take: Take,
}

/// A viewer's first frame, which has the tile.
fn first_take(rt: &impl Abort, alloc: Global, session: &mut Session, v: u32) -> Result<Due, Fail>
    ensures serial { IfOk result (λ due. due.take.serial ≡ due.sender.encoded) }
    ensures own { IfOk result (λ due. IsOwnTake due.sender.confirmed due.take) }
{
    let confirmed = preset(b"plain").ok_or("no preset words")?;
    let mut sender = Sender::new(alloc, v, confirmed)?;
    assert!(rt; session.present(v));
    let Taken::Frame(take) = sender.take(alloc, session)? else {
        panic!(rt; "no frame");
    };
    Ok(Due { sender, take })
}

/// The colours that a client shows at two corners of its last mark.
fn corners(rt: &impl Abort, client: &Client) -> (Option<u32>, Option<u32>) {
    let size = client.size();
    assert!(rt; 63 < size.w && 63 < size.h);
    (client.marked(0, 0), client.marked(63, 63))
}

/// A new client reads some bytes, and shows one mark, in one colour.
fn must_show(rt: &impl Abort, alloc: Global, bytes: &[u8], color: u32) -> Result<(), Fail> {
    let confirmed = preset(b"plain").ok_or("no preset words")?;
    let mut client = Client::new(alloc, confirmed, SIZE)?;
    assert!(rt; client.feed(bytes).is_ok());
    assert!(rt; client.marks() == 1);
    assert!(rt; corners(rt, &client) == (Some(color), Some(color)));
    Ok(())
}

/// The bytes of a frame.
fn encoded(alloc: Global, due: Due) -> Result<Vec<u8>, Fail>
    requires serial { due.take.serial ≡ due.sender.encoded }
    requires own { IsOwnTake due.sender.confirmed due.take }
{
    let Due { sender, take } = due;
    let mut sender = sender;
    let bytes = sender.encode(alloc, take)?;
    Ok(bytes)
}

/// Both takes have the same tile. The first one is encoded only when the picture was drawn over, and the second was taken.
#[test]
fn a_take_keeps_the_tiles_that_it_was_lent(rt: HostRuntime) -> Result<(), Fail> {
    let alloc = rt.alloc();
    let mut session = with_two(&rt, alloc)?;
    must_fill(&rt, &mut session, RED);
    must_draw_a_line(&rt, &mut session);
    let first = first_take(&rt, alloc, &mut session, 1)?;
    must_fill(&rt, &mut session, BLUE);
    let second = first_take(&rt, alloc, &mut session, 2)?;
    let red = encoded(alloc, first)?;
    must_show(&rt, alloc, red.as_slice(), RED)?;
    let blue = encoded(alloc, second)?;
    must_show(&rt, alloc, blue.as_slice(), BLUE)?;
    Ok(())
}
