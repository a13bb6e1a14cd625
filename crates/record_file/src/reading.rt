//! A record's bytes, replayed as far as they are whole.

ghost use Rattle.std.specs.Prelude.{◌≡◌, ◌≤◌, ◌<◌, ◌++◌, ℕ, List, drop, length, None, OnOk, IfOk, IfSome};
ghost use Rattle.record_file.specs.Told.{IsFirstTold};
ghost use Rattle.record_file.specs.Standing.{IsSound, IsSoundIfAny, IsKept, StandsAt, Replays, ReplaysNext, IsReading, IsBefore, IsBehindHead, ReadsHead, ReadsOn};

use crate::ReplayFault;
use crate::course::Course;
use crate::playing::{Playing, begin, replay_entry};
use crate::put::put_bytes;
use crate::read_entry::read_framed;
use crate::read_fault::ReadFault;
use crate::read_head::read_head;
use crate::told::Told;
use std::alloc::Global;

/// Reads the next bytes of a record, and replays the entries that are whole then.
pub fn read_on(
    alloc: Global,
    course: &mut Course,
    told: &mut Told,
    bytes: &[u8],
) -> Result<(), ReplayFault>
    requires sound { IsSoundIfAny course.old.playing }
    ensures sound { IsSoundIfAny course.new.playing }
    ensures stop { told.new.stop ≡ told.old.stop }
    ensures read { (stream : List ℕ) → IsReading stream course.old told.old → ReadsOn result (stream ++ bytes.now) course.new told.new }
{
    put_bytes(&mut course.part, bytes)?;
    read_first(alloc, course, told)?;
    read_rest(alloc, course, told)
}

/// Reads the head where that is still to be read, and is whole.
fn read_first(alloc: Global, course: &mut Course, told: &mut Told) -> Result<(), ReplayFault>
    requires { IsSoundIfAny course.old.playing }
    ensures sound { IsSoundIfAny course.new.playing }
    ensures stop { told.new.stop ≡ told.old.stop }
    ensures read { (stream : List ℕ) → IsBefore stream course.old told.old → ReadsHead result stream course.new told.new }
{
    match &course.playing {
        Some(_) => Ok(()),
        None => read_new(alloc, course, told),
    }
}

/// Reads the head, where it is whole.
fn read_new(alloc: Global, course: &mut Course, told: &mut Told) -> Result<(), ReplayFault>
    requires { course.old.playing ≡ None }
    ensures sound { IsSoundIfAny course.new.playing }
    ensures stop { told.new.stop ≡ told.old.stop }
    ensures read { IsFirstTold told.old → ReadsHead result course.old.part.items course.new told.new }
{
    match read_head(alloc, &course.part) {
        Ok((head, used)) => {
            let playing = begin(alloc, told, head, used)?;
            drop_front(&mut course.part, used);
            course.playing = Some(playing);
            Ok(())
        }
        Err(ReadFault::Missing { at }) => {
            course.missing = at;
            Ok(())
        }
        Err(ReadFault::Broken { at }) => Err(ReplayFault::BadRecord { at: at as u64 }),
        Err(ReadFault::OutOfMemory) => Err(ReplayFault::OutOfMemory),
    }
}

/// Replays the whole entries behind the head, where that is whole.
fn read_rest(alloc: Global, course: &mut Course, told: &mut Told) -> Result<(), ReplayFault>
    requires { IsSoundIfAny course.old.playing }
    ensures sound { IsSoundIfAny course.new.playing }
    ensures stop { told.new.stop ≡ told.old.stop }
    ensures read { (stream : List ℕ) → IsBehindHead stream course.old told.old → ReadsOn result stream course.new told.new }
{
    let Some(mut playing) = course.playing.take() else {
        return Ok(());
    };
    let used = replay_entries(alloc, &mut playing, told, &course.part)?;
    drop_front(&mut course.part, used);
    course.playing = Some(playing);
    Ok(())
}

/// Replays the whole entries at the front; how many bytes they have.
fn replay_entries(
    alloc: Global,
    playing: &mut Playing,
    told: &mut Told,
    bytes: &[u8],
) -> Result<usize, ReplayFault>
    requires sound { IsSound playing.old }
    ensures sound { OnOk result (IsSound playing.new) }
    ensures stop { told.new.stop ≡ told.old.stop }
    ensures within { IfOk result (λ used. used ≤ length bytes.now) }
    ensures replayed { (stream : List ℕ) → StandsAt stream bytes.now playing.old → IsKept playing.old told.old → Replays result stream bytes.now playing.new told.new }
{
    let mut at = 0;
    while at < bytes.len() {
        let Some(used) = replay_next(alloc, playing, told, &bytes[at..])? else {
            return Ok(at);
        };
        at += used;
    }
    Ok(at)
}

/// Reads the entry at the front and replays it; how many bytes it has, and none where not all of them are there.
fn replay_next(
    alloc: Global,
    playing: &mut Playing,
    told: &mut Told,
    bytes: &[u8],
) -> Result<Option<usize>, ReplayFault>
    requires sound { IsSound playing.old }
    ensures sound { OnOk result (IsSound playing.new) }
    ensures stop { told.new.stop ≡ told.old.stop }
    ensures used { IfOk result (λ used. IfSome used (λ n. (0 < n) × (n ≤ length bytes.now))) }
    ensures replayed { (stream : List ℕ) → StandsAt stream bytes.now playing.old → IsKept playing.old told.old → ReplaysNext result stream bytes.now playing.new told.new }
{
    match read_framed(alloc, bytes) {
        Ok((entry, used)) => {
            replay_entry(playing, told, entry, used)?;
            Ok(Some(used))
        }
        Err(ReadFault::Missing { .. }) => Ok(None),
        Err(ReadFault::Broken { at }) => {
            playing.session.recall_legal();
            let at = playing.place + at as u64;
            Err(ReplayFault::BadRecord { at })
        }
        Err(ReadFault::OutOfMemory) => Err(ReplayFault::OutOfMemory),
    }
}

/// Drops so many bytes at the front.
fn drop_front(bytes: &mut Vec<u8>, count: usize)
    requires { count ≤ length bytes.old.items }
    ensures { bytes.new.items ≡ drop count bytes.old.items }
{
    let all = bytes.len();
    bytes.copy_within(count..all, 0);
    bytes.truncate(all - count);
}
