//! The words of the network viewer's command line.
//!
//! | word | what it is |
//! |---|---|
//! | `PORT` | the host's port on this machine, 1 to 65,535 |
//! | `NAME` | the name to join by |
//! | `MARKS` | how many marks are watched, 1 to 65,535 |
//! | `PRESET ..` | what is confirmed: a preset, and then overrides |
ghost use Rattle.std.specs.Prelude.{◌≡◌, false, map, codes, string_bytes, unwrap_or, [], ◌<◌, IfOk, IfSome};
ghost use Rattle.std.specs.Bool.{then_some};
ghost use Rattle.script_rules.specs.Script.{is_name};
ghost use Rattle.clap.specs.Words.{app_of, rule_of, rows_of, found_of, first_of};
ghost use Rattle.command_words.specs.ViewWords.{word_rule, preset_rule, view_command, count_of_word, viewing_of_words, viewing_in, view_of_words};

use crate::presets::confirmed_by_words;
use crate::refused::refused;
use caps_sets::Confirmed;
use clap::{Arg, ArgAction, ArgMatches, Command};
use info_lic::Name;
use line_text::read_number;
use script_lines::is_name;
use std::alloc::Global;
use std::marker::Model;
use wire_num::OutOfMemory;

/// The name of the argument that is the host's port.
const PORT: &str = "PORT";

/// The name of the argument that is the name to join by.
const NAME: &str = "NAME";

/// The name of the argument that is the number of marks.
const MARKS: &str = "MARKS";

/// The name of the argument that is the preset words.
const PRESET: &str = "PRESET";

/// The greatest port, and the most marks (profile).
const MOST: u64 = 65_535;

/// What the words ask for.
#[derive(Drop)]
pub struct Viewing {
    /// The host's port on this machine.
    pub port: u16,
    /// The name to join by.
    pub name: Name,
    /// How many marks are watched.
    pub marks: u16,
    /// What is confirmed.
    pub confirmed: Confirmed,
}

impl Model for Viewing {
    ghost use Rattle.command_words.specs.ViewWords.{ViewingOf};

    ghost Value = { ViewingOf };

    ghost view = { λ v. record { port = v.port; name = v.name; marks = v.marks; confirmed = v.confirmed } };
}

/// What the words ask the network viewer for, the program's name first; `None` where they are no command line of it.
pub fn view_of_words(alloc: Global, words: &[String]) -> Result<Option<Viewing>, OutOfMemory>
    ensures words { IfOk result (λ viewing. viewing ≡ view_of_words (map string_bytes words.now)) }
    ensures some { IfOk result (λ viewing. IfSome viewing (λ v. 0 < v.marks)) }
{
    match command(alloc)?.try_get_matches_from(words) {
        Ok(matches) => found(alloc, &matches),
        Err(fault) => refused(&fault),
    }
}

/// An argument with one value, which must be there.
fn word_arg<'a>(alloc: Global, id: &'a str) -> Arg<'a>
    ensures rule { rule_of result ≡ word_rule id.entry.now }
    ensures local { result.global ≡ false }
{
    Arg::new(alloc, id).required(true)
}

/// The preset words, one at least.
fn preset_arg<'a>(alloc: Global) -> Arg<'a>
    ensures rule { rule_of result ≡ preset_rule }
    ensures local { result.global ≡ false }
{
    Arg::new(alloc, PRESET)
        .required(true)
        .action(ArgAction::Set)
        .num_args(1..=usize::MAX)
}

/// The command: a port, a name, a number of marks and the preset words.
fn command<'a>(alloc: Global) -> Result<Command<'a>, OutOfMemory>
    ensures { IfOk result (λ command. app_of command ≡ view_command) }
{
    let command = Command::new(alloc, "rdp_view").arg(word_arg(alloc, PORT))?;
    let command = command.arg(word_arg(alloc, NAME))?;
    let command = command.arg(word_arg(alloc, MARKS))?;
    Ok(command.arg(preset_arg(alloc))?)
}

/// What the values that were found ask for.
fn found(alloc: Global, matches: &ArgMatches<'_>) -> Result<Option<Viewing>, OutOfMemory>
    ensures words { IfOk result (λ viewing. viewing ≡ viewing_in (rows_of (found_of matches.now))) }
    ensures some { IfOk result (λ viewing. IfSome viewing (λ v. 0 < v.marks)) }
{
    let port = word(matches, PORT);
    let name = word(matches, NAME);
    let marks = word(matches, MARKS);
    match matches.get_strs(PRESET) {
        Some(preset) => viewing_of_words(alloc, port, name, marks, preset),
        None => viewing_of_words(alloc, port, name, marks, &[]),
    }
}

/// The value of an argument, or the empty word.
fn word<'a>(matches: &ArgMatches<'a>, id: &str) -> &'a str
    ensures { result.now ≡ unwrap_or (first_of id.now (rows_of (found_of matches.now))) [] }
{
    matches.get_str(id).unwrap_or("")
}

/// What these words ask for.
fn viewing_of_words(
    alloc: Global,
    port: &str,
    name: &str,
    marks: &str,
    preset: &[&str],
) -> Result<Option<Viewing>, OutOfMemory>
    ensures some { IfOk result (λ viewing. IfSome viewing (λ v. 0 < v.marks)) }
    ensures words { IfOk result (λ viewing. viewing ≡ viewing_of_words port.now name.now marks.now (map (λ s. s.now) preset.now)) }
{
    let Some(port) = read_count(port.as_bytes()) else {
        return Ok(None);
    };
    let Some(name) = read_name(name.as_bytes()) else {
        return Ok(None);
    };
    let Some(marks) = read_count(marks.as_bytes()) else {
        return Ok(None);
    };
    match confirmed_by_words(alloc, preset)? {
        Some(confirmed) => Ok(Some(Viewing {
            port,
            name,
            marks,
            confirmed,
        })),
        None => Ok(None),
    }
}

/// A port, or a number of marks.
fn read_count(word: &[u8]) -> Option<u16>
    ensures value { result ≡ count_of_word word.now }
    ensures some { IfSome result (λ count. 0 < count) }
{
    match read_number(word, MOST)? {
        0 => None,
        count => Some(count as u16),
    }
}

/// The name to join by.
fn read_name(word: &[u8]) -> Option<Name>
    ensures { result ≡ then_some (is_name word.now) word.now }
{
    if is_name(word) {
        Some(Name::new(word))
    } else {
        None
    }
}
