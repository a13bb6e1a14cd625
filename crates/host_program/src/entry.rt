//! The program over its own words, standard input, standard output and a port.

use crate::ending::Ending;
use command_words::words_given;
use edge_io::{FileIn, FileOut, OutOfMemory};
use std::alloc::Global;
use std::env::Env;
use std::net::{Net, TcpListener, TcpStream};
use std::sync::Wait;
use std::thread::Threads;
use std::time::Clock;
use tcp_edge::TcpGate;

/// Runs the host over what the runtime has. What it ends with is the status of its run.
pub fn run_host<
    R: Env
        + Alloc<A = Global>
        + Input
        + Print
        + Threads
        + Wait
        + Sync
        + Net<Listener = TcpListener, Stream = TcpStream>
        + Clock,
>(rt: &R) -> Ending {
    let alloc = rt.alloc();
    let words = words_given(rt, alloc);
    let mut input = FileIn::new(rt);
    let mut output = FileOut::new(rt);
    match TcpGate::new(rt, alloc) {
        Ok(mut gate) => Ending::of_run(rt, alloc, words, &mut input, &mut output, &mut gate),
        Err(OutOfMemory) => Ending::out_of_memory(),
    }
}
