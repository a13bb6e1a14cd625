//! The lines of a manifest.

ghost use Rattle.std.specs.Prelude.{◌≤◌, IfOk};

use crate::streams::Known;
use crate::verdict::Trouble;
use crate::{
    demos, faults, handshake, joins, limits, looks, odd_words, pointers, records, scripts, serves,
    streams, tops, views, words,
};
use line_text::read_number;
use std::rt::Files;
use std::sync::Wait;
use std::thread::Threads;

/// Runs the row of a line: its kind, and its words.
pub fn run<R: Files + AllocGlobal + Threads + Wait + Sync>(
    rt: &R,
    line: &str,
) -> Result<(), Trouble> {
    let words = line.split(' ').collect::<Vec<&str>>(rt.alloc())?;
    let Some((kind, words)) = words.as_slice().split_first() else {
        return Err(Trouble::NoForm);
    };
    match *kind {
        "script" => scripts::run_row(rt, words),
        "joins" => joins::run_row(rt, words),
        "entries" => limits::run_entries(rt, words),
        "images" => limits::run_images(rt, words),
        "stream" => streams::run_row(rt, words, Known::Whole),
        "tail" => streams::run_row(rt, words, Known::Tail),
        "lengths" => streams::run_lengths(rt, words),
        "change" => streams::run_change(rt, words),
        "behind" => streams::run_behind(rt, words),
        "changes" => handshake::run_row(rt, words),
        "serve" => serves::run_row(rt, words),
        "view" => views::run_row(rt, words),
        "view-cut" => views::run_cut(rt, words),
        "view-lengths" => views::run_lengths(rt, words),
        "look" => looks::run_row(rt, words),
        "fronts" => looks::run_fronts(rt, words),
        "points" => pointers::run_row(rt, words),
        "record" => records::run_record(rt, words),
        "replay" => records::run_replay(rt, words),
        "replay-fronts" => records::run_fronts(rt, words),
        "again" => records::run_again(rt, words),
        "demo" => demos::run_row(rt, words),
        "fault-texts" => faults::run_row(rt.alloc(), words),
        "request" => words::run_request(rt.alloc(), words),
        "viewer" => words::run_viewer(rt.alloc(), words),
        "viewing" => words::run_view(rt.alloc(), words),
        "no-words" => words::run_none(rt.alloc(), words),
        "no-text" => odd_words::run_row(rt.alloc(), words),
        "top" => tops::run_host(rt, words),
        "look-top" => tops::run_look(rt, words),
        _ => Err(Trouble::NoForm),
    }
}

/// How many words of a row of this kind are its title.
fn title_words(kind: &str) -> usize {
    match kind {
        "look" | "points" | "demo" | "serve" | "replay" | "view-cut" => 3,
        "request" | "viewer" | "viewing" | "top" | "look-top" => usize::MAX,
        _ => 2,
    }
}

/// The front of a row by which it is known.
pub fn title(line: &str) -> &str {
    let kind = match line.split_once(' ') {
        Some((kind, _)) => kind,
        None => line,
    };
    let mut words = title_words(kind);
    for (at, byte) in line.bytes().enumerate() {
        if byte == b' ' {
            words = words.saturating_sub(1);
            if words == 0 {
                return line.get(..at).unwrap_or(line);
            }
        }
    }
    line
}

/// The number of a word, up to a greatest one.
pub fn number(word: &str, most: u64) -> Result<u64, Trouble>
    ensures { IfOk result (λ number. number ≤ most) }
{
    match read_number(word.as_bytes(), most) {
        Some(number) => Ok(number),
        None => Err(Trouble::NoForm),
    }
}
