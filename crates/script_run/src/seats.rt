//! The seats of the viewers that are present, by their numbers.

ghost use Rattle.std.specs.Prelude.{◌≡◌, ◌<◌, length, Some, IsTrue, is_some};
ghost use Rattle.script_run.specs.Hosts.{seat_of, place_of};

use viewer_sender::Seat;

/// The place of a viewer's seat.
fn place_of(seats: &[Seat], v: u32) -> Option<usize>
    ensures { result ≡ place_of v seats.now }
{
    for i in 0..seats.len() {
        if seats[i].viewer() == v {
            return Some(i);
        }
    }
    None
}

/// The place of the seat of a viewer that has one.
pub fn place_here(seats: &[Seat], v: u32) -> usize
    requires { IsTrue (is_some (seat_of v seats.now)) }
    ensures place { place_of v seats.now ≡ Some result }
    ensures within { result < length seats.now }
{
    match place_of(seats, v) {
        Some(i) => i,
        None => unreachable!(),
    }
}
