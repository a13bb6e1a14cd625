//! The mode `answer`: its arguments, and the status that it ends with.

ghost use Rattle.std.specs.Prelude.{◌≡◌, map, IfSome, IfErr};
ghost use Rattle.answer_run.specs.Serves.{IsNumberedFault};
ghost use Rattle.host_program.specs.Answering.{client_of_args, client_of_words, answer_status, IsServable};

use crate::size::size_of_words;
use answer_run::AnswerFault;
use command_words::status::{
    DONE, ENDED_EARLY, NOT_INVITED, OUT_OF_MEMORY, READ_FAULT, WRITE_FAULT,
};
use info_lic::Name;
use px_core::Size;
use script_lines::is_name;

/// How many arguments it has: columns, rows and the owner's name.
const ARGS: usize = 3;

/// What the number of a refusal, 1 to 14, is added to.
const REFUSED: u8 = 20;

/// Whom the words of the mode ask to serve: the owner of a session with a picture of this size.
#[derive(Clone, Copy, Drop)]
pub(crate) struct Client {
    pub size: Size,
    pub owner: Name,
}

/// Whom these arguments of the mode ask to serve.
pub(crate) fn client_of_args(args: &[&str]) -> Option<Client>
    ensures form { result ≡ client_of_args (map (λ s. s.now) args.now) }
    ensures range { IfSome result IsServable }
{
    if args.len() != ARGS {
        return None;
    }
    match args {
        [w, h, owner] => client_of_words(w.as_bytes(), h.as_bytes(), owner.as_bytes()),
        _ => None,
    }
}

/// The client of these words: columns, rows and the owner's name.
fn client_of_words(w: &[u8], h: &[u8], owner: &[u8]) -> Option<Client>
    ensures form { result ≡ client_of_words w.now h.now owner.now }
    ensures range { IfSome result IsServable }
{
    let size = size_of_words(w, h)?;
    if is_name(owner) {
        let owner = Name::new(owner);
        Some(Client { size, owner })
    } else {
        None
    }
}

/// The exit status that an answer of a service is.
pub(crate) fn answer_status(answer: Result<(), AnswerFault>) -> u8
    requires { IfErr answer IsNumberedFault }
    ensures { result ≡ answer_status answer }
{
    match answer {
        Ok(()) => DONE,
        Err(AnswerFault::Refused { k, .. }) => REFUSED + k,
        Err(AnswerFault::Truncated) => ENDED_EARLY,
        Err(AnswerFault::NotInvited) => NOT_INVITED,
        Err(AnswerFault::ReadFault) => READ_FAULT,
        Err(AnswerFault::WriteFault) => WRITE_FAULT,
        Err(AnswerFault::OutOfMemory) => OUT_OF_MEMORY,
    }
}
