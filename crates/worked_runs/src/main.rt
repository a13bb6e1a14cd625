//! Runs worked examples and prints a line for each: scripts with their captures, clients' streams with their answers, and with the lines
//! of the links by which they come, captures with what they show, and with the pointers behind their lines, hosts' streams with what a
//! viewer prints of them, scripts with their records and these with what they show, loads with their counts, and command lines with what
//! they ask for, and with the status and the text of a whole run.
//!
//! The words that the program is run with name manifests. A line of a manifest is a kind of row and its words; the row's files lie beside
//! it. Each row is run whole, byte by byte, cut in two at one place after the other, and with one read or one write failing after the other.
#![tactic(auto)]

mod demos;
mod ending;
mod expected;
mod faults;
mod files;
mod handshake;
mod job;
mod joins;
mod limits;
mod looks;
mod odd_words;
mod pointers;
mod records;
mod row;
mod scripts;
mod serves;
mod streams;
mod tops;
mod turns;
mod verdict;
mod views;
mod words;

use std::rt::Files;
use std::sync::Wait;
use std::thread::Threads;
use std::{env, fs, io};
use verdict::Trouble;

fn main(rt: HostRuntime) -> io::Result<()> {
    for manifest in env::args(&rt)?.skip(1) {
        run_manifest(&rt, manifest.as_str())?;
    }
    Ok(())
}

/// Runs the rows of a manifest.
fn run_manifest<R: Files + AllocGlobal + Print + Threads + Wait + Sync>(
    rt: &R,
    name: &str,
) -> io::Result<()> {
    let manifest = fs::read_to_string(rt, name)?;
    for line in manifest.as_str().lines() {
        if !line.is_empty() && !line.starts_with('#') {
            print_row(rt, line)?;
        }
    }
    Ok(())
}

/// Runs a row, and prints what it comes to.
fn print_row<R: Files + AllocGlobal + Print + Threads + Wait + Sync>(
    rt: &R,
    line: &str,
) -> io::Result<()> {
    let title = row::title(line);
    match row::run(rt, line) {
        Ok(()) => println!(rt; "{title}: as expected"),
        Err(Trouble::OutOfMemory) => println!(rt; "{title}: out of memory"),
        Err(Trouble::NoFile) => println!(rt; "{title}: a file can't be read"),
        Err(Trouble::NoForm) => println!(rt; "{title}: the row has no form"),
        Err(Trouble::Differs { way, found }) => println!(rt; "{title}: {way:?}: {found:?}"),
    }
}
