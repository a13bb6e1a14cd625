//! The modes, and which one words ask for.

ghost use Rattle.std.specs.Prelude.{◌≡◌, map, string_bytes, IfOk, IfSome};
ghost use Rattle.host_program.specs.Mode.{mode_of, mode_with, without_args, IsRunnable};

use crate::answering::{Client, client_of_args};
use crate::loading::{Load, load_of_args};
use crate::recording::stop_of_args;
use crate::serving::{Hosting, hosting_of_args};
use command_words::{OutOfMemory, Request};
use line_text::is_same_word;
use std::alloc::Global;

/// The word of the mode that reads a script and writes its capture.
const SCRIPT: &str = "script";

/// The word of the mode that reads a script and writes its journal as a record.
const RECORD: &str = "record";

/// The word of the mode that serves one client.
const ANSWER: &str = "answer";

/// The word of the mode that runs the demonstration load.
const DEMO: &str = "demo";

/// The word of the mode that reads a record and writes a picture.
const REPLAY: &str = "replay";

/// The word of the mode that serves the clients that connect to a port.
const SERVE: &str = "serve";

/// What the words of a command line ask the host to do.
#[derive(Drop)]
pub(crate) enum Mode {
    /// To read a script and to write its capture.
    Script,
    /// To read a script and to write its journal as a record.
    Record,
    /// To serve one client, whose bytes come from the input.
    Answer(Client),
    /// To run a demonstration load.
    Demo(Load),
    /// To read a record and to write the picture after so many of its entries.
    Replay(u64),
    /// To serve the links of a port.
    Serve(Hosting),
}

/// What the words ask for, the program's name first; `None` exactly where they ask for no mode.
pub(crate) fn mode_of(alloc: Global, words: &[String]) -> Result<Option<Mode>, OutOfMemory>
    ensures form { IfOk result (λ mode. mode ≡ mode_of (map string_bytes words.now)) }
    ensures range { IfOk result (λ mode. IfSome mode IsRunnable) }
{
    match Request::read(alloc, words)? {
        Some(request) => mode_with(alloc, request.mode().as_bytes(), request.args()),
        None => Ok(None),
    }
}

/// The mode that a word names, by these arguments.
fn mode_with(alloc: Global, word: &[u8], args: &[&str]) -> Result<Option<Mode>, OutOfMemory>
    ensures form { IfOk result (λ mode. mode ≡ mode_with word.now (map (λ s. s.now) args.now)) }
    ensures range { IfOk result (λ mode. IfSome mode IsRunnable) }
{
    if is_same_word(word, SCRIPT.as_bytes()) {
        Ok(without_args(Mode::Script, args))
    } else if is_same_word(word, RECORD.as_bytes()) {
        Ok(without_args(Mode::Record, args))
    } else if is_same_word(word, ANSWER.as_bytes()) {
        Ok(client_of_args(args).map(Mode::Answer))
    } else if is_same_word(word, DEMO.as_bytes()) {
        Ok(load_of_args(args).map(Mode::Demo))
    } else if is_same_word(word, REPLAY.as_bytes()) {
        Ok(stop_of_args(args).map(Mode::Replay))
    } else if is_same_word(word, SERVE.as_bytes()) {
        Ok(hosting_of_args(alloc, args)?.map(Mode::Serve))
    } else {
        Ok(None)
    }
}

/// A mode that has no argument, where there is none.
fn without_args(mode: Mode, args: &[&str]) -> Option<Mode>
    requires { IsRunnable mode }
    ensures form { result ≡ without_args mode (map (λ s. s.now) args.now) }
    ensures range { IfSome result IsRunnable }
{
    if args.is_empty() { Some(mode) } else { None }
}
