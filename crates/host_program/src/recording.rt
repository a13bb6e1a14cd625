//! The mode `replay`: its arguments, and the status that it ends with.

ghost use Rattle.std.specs.Prelude.{◌≡◌, map};
ghost use Rattle.host_program.specs.Recording.{stop_of_args, replay_status};

use crate::host::status;
use command_words::status::{DONE, REFUSED};
use line_text::read_number;
use script_run::ScriptFault;

/// How many arguments it has: after how many entries.
const ARGS: usize = 1;

/// After how many entries these arguments of the mode `replay` ask for a record's picture.
pub(crate) fn stop_of_args(args: &[&str]) -> Option<u64>
    ensures form { result ≡ stop_of_args (map (λ s. s.now) args.now) }
{
    if args.len() != ARGS {
        return None;
    }
    match args {
        [stop] => read_number(stop.as_bytes(), u64::MAX),
        _ => None,
    }
}

/// The exit status that an answer of a replay is.
pub(crate) fn replay_status(answer: Result<bool, ScriptFault>) -> u8
    ensures { result ≡ replay_status answer }
{
    match answer {
        Ok(true) => DONE,
        Ok(false) => REFUSED,
        Err(fault) => status(Err(fault)),
    }
}
