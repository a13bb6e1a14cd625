//! The program over its own words, the ports of this machine and standard output.

use crate::ending::Ending;
use command_words::words_given;
use edge_io::{FileOut, OutOfMemory};
use std::alloc::Global;
use std::env::Env;
use std::net::{Net, TcpStream};
use std::sync::Wait;
use tcp_edge::TcpDial;

/// Views what the words ask for, over what the runtime has. What it ends with is the status of its run.
pub(crate) fn run_view<R: Env + Alloc<A = Global> + Print + Wait + Net<Stream = TcpStream>>(
    rt: &R,
) -> Ending {
    let alloc = rt.alloc();
    let words = words_given(rt, alloc);
    let mut output = FileOut::new(rt);
    match TcpDial::new(rt, alloc) {
        Ok(mut dial) => Ending::of_run(rt, alloc, words, &mut dial, &mut output),
        Err(OutOfMemory) => Ending::out_of_memory(),
    }
}
