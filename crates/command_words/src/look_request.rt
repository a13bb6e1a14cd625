ghost use Rattle.std.specs.Prelude.{◌≡◌, false, map, string_bytes, IfOk};
ghost use Rattle.clap.specs.Words.{app_of, rule_of, rows_of, found_of};
ghost use Rattle.script_rules.specs.Capture.{viewer_word};
ghost use Rattle.command_words.specs.LookWords.{look_command, viewer_rule, viewer_in, viewer_of_words};

use crate::refused::refused;
use clap::{Arg, ArgMatches, Command};
use line_text::read_number;
use std::alloc::Global;
use wire_num::OutOfMemory;

/// The name of the argument that is the viewer's number.
const VIEWER: &str = "V";

/// The greatest number of a viewer (profile).
const VIEWER_LIMIT: u64 = 65_535;

/// The number of the viewer that the words name, the program's name first; `None` where they are no command line of the program.
pub fn viewer_of_words(alloc: Global, words: &[String]) -> Result<Option<u16>, OutOfMemory>
    ensures { IfOk result (λ viewer. viewer ≡ viewer_of_words (map string_bytes words.now)) }
{
    match command(alloc)?.try_get_matches_from(words) {
        Ok(matches) => Ok(found(&matches)),
        Err(fault) => refused(&fault),
    }
}

/// The viewer's number, which must be there.
fn viewer_arg<'a>(alloc: Global) -> Arg<'a>
    ensures rule { rule_of result ≡ viewer_rule }
    ensures local { result.global ≡ false }
{
    Arg::new(alloc, VIEWER).required(true)
}

/// The command: the number of a viewer.
fn command<'a>(alloc: Global) -> Result<Command<'a>, OutOfMemory>
    ensures { IfOk result (λ command. app_of command ≡ look_command) }
{
    Ok(Command::new(alloc, "rdp_look").arg(viewer_arg(alloc))?)
}

/// The number that was found, where it is a viewer's.
fn found(matches: &ArgMatches<'_>) -> Option<u16>
    ensures { result ≡ viewer_in (rows_of (found_of matches.now)) }
{
    let word = matches.get_str(VIEWER).unwrap_or("");
    read_viewer(word.as_bytes())
}

/// The number of a viewer.
fn read_viewer(word: &[u8]) -> Option<u16>
    ensures { result ≡ viewer_word word.now }
{
    match read_number(word, VIEWER_LIMIT)? {
        0 => None,
        viewer => Some(viewer as u16),
    }
}
