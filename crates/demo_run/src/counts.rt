//! The counts of a run, and their line.

ghost use Rattle.std.specs.Prelude.{◌≡◌, ◌+◌, ◌++◌, ℕ, List, length, decimal, IfOk, OnOk};
ghost use Rattle.script_rules.specs.Script.{Asked};
ghost use Rattle.demo_run.specs.Counts.{counts_of};
ghost use Rattle.demo_run.specs.Standing.{Stands, Watches, AreWatching};
ghost use Rattle.demo_run.specs.Sums.{AreShown, AreCounts, line_of};

use crate::OutOfMemory;
use crate::demo::Demo;
use crate::watcher::Watcher;
use line_text::write_decimal;
use std::alloc::Global;

/// What is counted of a run; no count goes past 2^64 - 1.
#[derive(Clone, Copy)]
pub(crate) struct Counts {
    /// The steps that were drawn.
    pub steps: u32,
    /// The entries of the journal.
    pub entries: u64,
    /// What the viewers were sent.
    pub shown: Shown,
    /// The steps that were refused.
    pub refused: u64,
}

/// What one or more viewers were sent: takes with work, and their bytes; and what their clients read of it.
#[derive(Clone, Copy)]
pub(crate) struct Shown {
    pub takes: u64,
    pub marks: u64,
    pub orders: u64,
    pub tiles: u64,
    pub bytes: u64,
}

/// The counts of a run of so many steps.
pub(crate) fn count_run(demo: &Demo, steps: u32) -> Counts
    ensures { (done : List Asked) → Stands done demo.now → AreCounts result (counts_of steps done) }
{
    Counts {
        steps,
        entries: demo.host.entries(),
        shown: shown_to_all(&demo.watchers),
        refused: demo.refused,
    }
}

/// What all viewers were sent.
fn shown_to_all(watchers: &[Watcher]) -> Shown
    ensures { (done : List Asked) → AreWatching done watchers.now → AreShown done (length watchers.now) result }
{
    let mut all = Shown {
        takes: 0,
        marks: 0,
        orders: 0,
        tiles: 0,
        bytes: 0,
    };
    for watcher in watchers {
        all = with_watcher(all, watcher);
    }
    all
}

/// The same with what one more viewer was sent.
fn with_watcher(others: Shown, watcher: &Watcher) -> Shown
    ensures { (done : List Asked) (n : ℕ) → AreShown done n others → Watches done (n + 1) watcher.now → AreShown done (n + 1) result }
{
    Shown {
        takes: others.takes.saturating_add(watcher.takes),
        marks: others.marks.saturating_add(watcher.client.marks()),
        orders: others.orders.saturating_add(watcher.client.orders()),
        tiles: others.tiles.saturating_add(watcher.client.tiles()),
        bytes: others.bytes.saturating_add(watcher.bytes),
    }
}

impl Counts {
    /// The line of the counts.
    pub(crate) fn line(&self, alloc: Global) -> Result<Vec<u8>, OutOfMemory>
        ensures { IfOk result (λ line. line.items ≡ line_of self.now) }
    {
        let mut line = Vec::new(alloc);
        put_count(alloc, &mut line, b"steps ", u64::from(self.steps))?;
        put_count(alloc, &mut line, b" entries ", self.entries)?;
        put_count(alloc, &mut line, b" takes ", self.shown.takes)?;
        put_count(alloc, &mut line, b" marks ", self.shown.marks)?;
        put_count(alloc, &mut line, b" orders ", self.shown.orders)?;
        put_count(alloc, &mut line, b" tiles ", self.shown.tiles)?;
        put_count(alloc, &mut line, b" bytes ", self.shown.bytes)?;
        put_count(alloc, &mut line, b" refused ", self.refused)?;
        line.push(b'\n')?;
        Ok(line)
    }
}

/// Appends a word and a count.
fn put_count(alloc: Global, line: &mut Vec<u8>, word: &[u8], n: u64) -> Result<(), OutOfMemory>
    ensures { OnOk result (line.new.items ≡ line.old.items ++ (word.now ++ decimal n)) }
{
    line.extend_from_slice(word)?;
    write_decimal(alloc, line, n)
}
