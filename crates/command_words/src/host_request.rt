ghost use Rattle.std.specs.Prelude.{◌≡◌, false, [], map, codes, string_bytes, unwrap_or, IfOk};
ghost use Rattle.clap.specs.Words.{app_of, rule_of, rows_of, found_of, all_of};
ghost use Rattle.command_words.specs.HostWords.{host_command, mode_rule, args_rule, request_in, request_of};

use crate::refused::refused;
use clap::{Arg, ArgAction, ArgMatches, Command};
use std::alloc::Global;
use std::marker::Model;
use wire_num::OutOfMemory;

/// The name of the argument that is the mode.
const MODE: &str = "MODE";

/// The name of the arguments behind the mode.
const ARGS: &str = "ARGS";

/// How many arguments a mode has at most.
const MOST_ARGS: usize = 68;

/// What a command line asks for: a mode, and the arguments behind it.
#[derive(Drop)]
pub struct Request<'a> {
    mode: &'a str,
    args: Vec<&'a str>,
}

impl<'a> Model for Request<'a> {
    ghost use Rattle.std.specs.Prelude.{map};
    ghost use Rattle.command_words.specs.HostWords.{RequestOf};

    ghost Value = { RequestOf };

    ghost view = { λ r. record { mode = r.mode.now; args = map (λ s. s.now) r.args.items } };
}

impl<'a> Request<'a> {
    /// What the words ask for, the program's name first; `None` where they are no command line of the host.
    pub fn read(alloc: Global, words: &'a [String]) -> Result<Option<Request<'a>>, OutOfMemory>
        ensures { IfOk result (λ request. request ≡ request_of (map string_bytes words.entry.now)) }
    {
        match command(alloc)?.try_get_matches_from(words) {
            Ok(matches) => Ok(Some(found(alloc, &matches)?)),
            Err(fault) => refused(&fault),
        }
    }

    /// The mode.
    pub fn mode(&self) -> &'a str
        ensures { result.now ≡ self.now.mode }
    {
        self.mode
    }

    /// The arguments behind the mode, in their order.
    pub fn args(&self) -> &[&'a str]
        ensures { map (λ s. s.now) result.now ≡ self.now.args }
    {
        &self.args
    }
}

/// The mode, which must be there.
fn mode_arg<'a>(alloc: Global) -> Arg<'a>
    ensures rule { rule_of result ≡ mode_rule }
    ensures local { result.global ≡ false }
{
    Arg::new(alloc, MODE).required(true)
}

/// The arguments behind the mode, at most 68.
fn args_arg<'a>(alloc: Global) -> Arg<'a>
    ensures rule { rule_of result ≡ args_rule }
    ensures local { result.global ≡ false }
{
    Arg::new(alloc, ARGS)
        .action(ArgAction::Set)
        .num_args(0..=MOST_ARGS)
}

/// The command: a mode, and up to 68 arguments behind it.
fn command<'a>(alloc: Global) -> Result<Command<'a>, OutOfMemory>
    ensures { IfOk result (λ command. app_of command ≡ host_command) }
{
    let command = Command::new(alloc, "rdp_host").arg(mode_arg(alloc))?;
    Ok(command.arg(args_arg(alloc))?)
}

/// The mode and the arguments that were found.
fn found<'a>(alloc: Global, matches: &ArgMatches<'a>) -> Result<Request<'a>, OutOfMemory>
    ensures { IfOk result (λ request. request ≡ request_in (rows_of (found_of matches.now))) }
{
    let mode = matches.get_str(MODE).unwrap_or("");
    let args = arguments(alloc, matches)?;
    Ok(Request { mode, args })
}

/// The arguments behind the mode that were found.
fn arguments<'a>(alloc: Global, matches: &ArgMatches<'a>) -> Result<Vec<&'a str>, OutOfMemory>
    ensures { IfOk result (λ args. map (λ s. s.now) args.items ≡ unwrap_or (all_of (codes "ARGS") (rows_of (found_of matches.now))) []) }
{
    let mut args = Vec::new(alloc);
    if let Some(values) = matches.get_strs(ARGS) {
        args.extend_from_slice(values)?;
    }
    Ok(args)
}
