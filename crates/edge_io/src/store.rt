ghost use Rattle.std.specs.Prelude.{◌≡◌, ◌<◌, ◌≤◌, ℕ, true, List, length};
ghost use Rattle.std.specs.declared.option.Option.{Option};
ghost use Rattle.std.specs.declared.option.Option.TheVariants.{Some};
ghost use Rattle.edge_io.specs.declared.store.Opened.TheVariants.{Open};
ghost use Rattle.edge_io.specs.declared.sink.Wrote.TheVariants.{All};

use crate::{Got, Wrote};

/// How the opening of a store went.
#[derive(Clone, Copy, Debug, PartialEq, Eq)]
pub enum Opened {
    /// It can be read, cut and added to.
    Open,
    /// A fault, which is counted.
    Failed,
}

/// Bytes that outlast the program, as a file on a disk: they are read to their end, cut, and added to at their end. A crash may come at any moment.
pub trait Store {
    ghost use Rattle.edge_io.specs.Source.{FitsRoom, Takes, ReadCause};
    ghost use Rattle.edge_io.specs.Sink.{Appends, WriteCause};
    ghost use Rattle.edge_io.specs.Store.{OpenCause, Cuts, CutCause, IsSettled, Follows, After, AddsFront, CutsOrStays, Elapses};

    // The bytes that stand in it, where it tells them.
    ghost kept: { Self → Option (List ℕ) };

    // Those of them that weren't read yet, where it tells them.
    ghost left: { Self → Option (List ℕ) };

    // The name by which it was opened last, in bytes.
    ghost opened: { Self → Option (List ℕ) };

    // How often it has failed.
    ghost faults: { Self → ℕ };

    // The moment, as a number that doesn't fall.
    ghost moment: { Self → ℕ };

    // What a crash at this moment may leave.
    ghost may_leave: { Self → List ℕ → Type 0 };

    // What a crash at some moment from that one on might have left, within a call or between two.
    ghost left_since: { Self → ℕ → List ℕ → Type 0 };

    /// Opens the store of this name, which is empty where there was none. What stands in it is on the disk then, and no other host has it open.
    fn open(&mut self, name: &str) -> Opened
        ensures name { result ≡ Open → opened self.new ≡ Some name.now }
        ensures left { result ≡ Open → left self.new ≡ kept self.old }
        ensures settled { result ≡ Open → IsSettled (kept self.new) (may_leave self.new) }
        ensures kept { kept self.new ≡ kept self.old }
        ensures crash { (c : List ℕ) → may_leave self.new c → may_leave self.old c }
        ensures time { Elapses (moment self.old) (moment self.new) (left_since self.old) (left_since self.new) (may_leave self.old) }
        ensures cause { OpenCause result (faults self.old) (faults self.new) };

    /// Reads some of the bytes that weren't read yet into the front of a buffer of one byte or more.
    fn read(&mut self, buf: &mut [u8]) -> Got
        requires { 0 < length buf.old }
        ensures count { FitsRoom result (length buf.old) }
        ensures bytes { Takes (left self.old) (left self.new) result buf.new }
        ensures kept { kept self.new ≡ kept self.old }
        ensures opened { opened self.new ≡ opened self.old }
        ensures crash { (c : List ℕ) → may_leave self.new c → may_leave self.old c }
        ensures time { Elapses (moment self.old) (moment self.new) (left_since self.old) (left_since self.new) (may_leave self.old) }
        ensures cause { ReadCause result (faults self.old) (faults self.new) };

    /// Cuts it to so many bytes, unless it has no more, and says whether the disk has it so.
    fn cut(&mut self, length: u64) -> bool
        ensures kept { Cuts result length (kept self.old) (kept self.new) }
        ensures settled { result ≡ true → IsSettled (kept self.new) (may_leave self.new) }
        ensures opened { opened self.new ≡ opened self.old }
        ensures crash { Follows (CutsOrStays length) (may_leave self.old) (may_leave self.new) }
        ensures time { Elapses (moment self.old) (moment self.new) (left_since self.old) (left_since self.new) (After (CutsOrStays length) (may_leave self.old)) }
        ensures cause { CutCause result (faults self.old) (faults self.new) };

    /// Adds bytes behind the others. At `All` the disk has them; else a front of them was added.
    fn append(&mut self, bytes: &[u8]) -> Wrote
        ensures bytes { Appends (kept self.old) (kept self.new) result bytes.now }
        ensures settled { result ≡ All → IsSettled (kept self.new) (may_leave self.new) }
        ensures opened { opened self.new ≡ opened self.old }
        ensures crash { Follows (AddsFront bytes.now) (may_leave self.old) (may_leave self.new) }
        ensures time { Elapses (moment self.old) (moment self.new) (left_since self.old) (left_since self.new) (After (AddsFront bytes.now) (may_leave self.old)) }
        ensures cause { WriteCause result (faults self.old) (faults self.new) };

    // This moment is one of those since an earlier one.
    ghost counts_now: { (s : Self) (t : ℕ) (c : List ℕ) → t ≤ moment s → may_leave s c → left_since s t c };

    ghost only_now: { (s : Self) (c : List ℕ) → left_since s (moment s) c → may_leave s c };
}
