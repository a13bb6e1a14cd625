//! The mode `serve`: its arguments.

ghost use Rattle.std.specs.Prelude.{◌≡◌, map, IfOk, IfSome};
ghost use Rattle.script_rules.specs.Capture.{number_between};
ghost use Rattle.host_program.specs.Serving.{hosting_of_args, IsHostable};

use crate::guests::rows_of_words;
use crate::size::size_of_words;
use command_words::OutOfMemory;
use line_text::read_number;
use px_core::Size;
use session_core::Invite;
use std::alloc::Global;
use std::marker::Model;

/// The greatest port, and the most links (profile).
const MOST: u64 = 65_535;

/// What the words ask to serve: so many links of a port, in a session with a picture of this size, whose viewers join by these rows.
#[derive(Drop)]
pub(crate) struct Hosting {
    pub port: u16,
    pub links: u16,
    pub size: Size,
    pub rows: Vec<Invite>,
}

impl Model for Hosting {
    ghost use Rattle.session_core.specs.Heads.{rows_of};
    ghost use Rattle.host_program.specs.Serving.{HostingOf};

    ghost Value = { HostingOf };

    ghost view = { λ h. record { port = h.port; links = h.links; size = h.size; rows = rows_of h.rows.items } };
}

/// What these arguments ask to serve: a port, columns and rows of pixels, how many links, the owner's name and the guests.
pub(crate) fn hosting_of_args(alloc: Global, args: &[&str]) -> Result<Option<Hosting>, OutOfMemory>
    ensures form { IfOk result (λ hosting. hosting ≡ hosting_of_args (map (λ s. s.now) args.now)) }
    ensures range { IfOk result (λ hosting. IfSome hosting IsHostable) }
{
    let [port, w, h, links, owner, guests @ ..] = args else {
        return Ok(None);
    };
    let Some(port) = read_count(port.as_bytes()) else {
        return Ok(None);
    };
    let Some(size) = size_of_words(w.as_bytes(), h.as_bytes()) else {
        return Ok(None);
    };
    let Some(links) = read_count(links.as_bytes()) else {
        return Ok(None);
    };
    match rows_of_words(alloc, owner.as_bytes(), guests)? {
        Some(rows) => Ok(Some(Hosting {
            port,
            links,
            size,
            rows,
        })),
        None => Ok(None),
    }
}

/// The number of a port, or how many links there are.
fn read_count(word: &[u8]) -> Option<u16>
    ensures { result ≡ number_between 1 65535 word.now }
{
    match read_number(word, MOST)? {
        0 => None,
        n => Some(n as u16),
    }
}
