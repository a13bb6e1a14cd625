//! Places that were worked out by hand.

use save_plan::{Blocks, Place, PlaceFault};
use std::process::Abort;
use std::test::Fail;

/// Gives a slot that has no block one of these sides, and answers where it stands.
fn place(
    rt: &impl Abort,
    blocks: &mut Blocks,
    slot: u8,
    w: u32,
    h: u32,
) -> Result<u32, PlaceFault> {
    assert!(rt; blocks.get(slot).is_none());
    blocks.place(slot, w, h)
}

/// Asserts where a block of these sides stands.
fn stands_at(
    rt: &impl Abort,
    blocks: &mut Blocks,
    slot: u8,
    w: u32,
    h: u32,
    wanted: u32,
) -> Result<(), Fail> {
    let position = place(rt, blocks, slot, w, h)?;
    assert_eq!(rt; position, wanted, "slot {slot}");
    Ok(())
}

/// Asserts that a block of these sides finds no room.
fn has_no_room(rt: &impl Abort, blocks: &mut Blocks, slot: u8, w: u32, h: u32) {
    assert_eq!(rt;
        place(rt, blocks, slot, w, h),
        Err(PlaceFault::NoRoom),
        "{w} by {h}"
    );
}

/// Asserts where blocks stand that are taken, given up and taken.
fn stand_at_the_least(rt: &impl Abort, blocks: &mut Blocks) -> Result<(), Fail> {
    stands_at(rt, blocks, 0, 10, 10, 0)?;
    // 10 by 10 takes 10 * 20 positions, 10 by 21 then 10 * 40.
    stands_at(rt, blocks, 1, 10, 21, 200)?;
    has_no_room(rt, blocks, 2, 240, 240);
    blocks.free(0);
    blocks.free(1);
    stands_at(rt, blocks, 2, 240, 240, 0)
}

#[test]
fn blocks_stand_at_the_least_free_position(rt: HostRuntime) -> Result<(), Fail> {
    let mut blocks = Blocks::new(rt.alloc());
    stand_at_the_least(&rt, &mut blocks)
}

/// Takes two blocks.
fn take_two(rt: &impl Abort, blocks: &mut Blocks) -> Result<(), Fail> {
    place(rt, blocks, 3, 10, 10)?;
    place(rt, blocks, 5, 4, 20)?;
    Ok(())
}

/// Asserts that a copy alone has the second of two blocks.
fn has_the_second(rt: &impl Abort, copy: &Blocks, blocks: &Blocks) {
    // 10 by 10 takes 10 * 20 positions, so the second block stands at 200.
    let second = Place {
        position: 200,
        w: 4,
        h: 20,
    };
    assert!(rt; copy.get(5) == Some(second));
    assert!(rt; blocks.get(5).is_none());
    assert!(rt; copy.get(4).is_none());
}

#[test]
fn a_copy_keeps_its_blocks_where_they_stand(rt: HostRuntime) -> Result<(), Fail> {
    let mut blocks = Blocks::new(rt.alloc());
    take_two(&rt, &mut blocks)?;
    let copy = blocks.copy(rt.alloc())?;
    blocks.free(5);
    has_the_second(&rt, &copy, &blocks);
    Ok(())
}
