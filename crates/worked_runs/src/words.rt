//! Command lines with what they ask for.

use crate::row::number;
use crate::turns::otherwise;
use crate::verdict::{Found, Trouble, Way};
use command_words::{Request, view_of_words, viewer_of_words};
use std::alloc::{AllocError, Global};

/// What stands for words that ask for nothing.
const NONE: &str = "none";

/// The words of a command line, the program's name first.
pub fn command_line(alloc: Global, behind: &[&str]) -> Result<Vec<String>, AllocError> {
    let mut line = Vec::new(alloc);
    line.push(String::from_str(alloc, "program")?)?;
    push_words(alloc, &mut line, behind)?;
    Ok(line)
}

/// Words that are owned.
pub fn strings_of(alloc: Global, words: &[&str]) -> Result<Vec<String>, AllocError> {
    let mut line = Vec::new(alloc);
    push_words(alloc, &mut line, words)?;
    Ok(line)
}

/// Puts words behind those of a command line.
fn push_words(alloc: Global, line: &mut Vec<String>, words: &[&str]) -> Result<(), AllocError> {
    for word in words {
        line.push(String::from_str(alloc, word)?)?;
    }
    Ok(())
}

/// Reads a command line of the host: its mode and the number of its arguments must be those of the row, or there must be none.
pub fn run_request(alloc: Global, words: &[&str]) -> Result<(), Trouble> {
    let [mode, count, behind @ ..] = words else {
        return Err(Trouble::NoForm);
    };
    let count = number(count, u32::MAX.into())?;
    let line = command_line(alloc, behind)?;
    match Request::read(alloc, &line) {
        Ok(Some(request)) => must_ask(&request, mode, count),
        Ok(None) => must_be_none(mode, 0),
        Err(_) => Err(Trouble::OutOfMemory),
    }
}

/// What a command line asks for must be this.
fn must_ask(request: &Request<'_>, mode: &str, count: u64) -> Result<(), Trouble> {
    let found = request.args().len() as u64;
    if request.mode() == mode && found == count {
        Ok(())
    } else {
        otherwise(Way::Whole, Found::Number(found))
    }
}

/// Words that ask for nothing must be expected to.
fn must_be_none(wanted: &str, found: u64) -> Result<(), Trouble> {
    if wanted == NONE {
        Ok(())
    } else {
        otherwise(Way::Whole, Found::Number(found))
    }
}

/// Reads a command line of `rdp_look`: its viewer must be the row's, or there must be none.
pub fn run_viewer(alloc: Global, words: &[&str]) -> Result<(), Trouble> {
    let [wanted, behind @ ..] = words else {
        return Err(Trouble::NoForm);
    };
    let line = command_line(alloc, behind)?;
    match viewer_of_words(alloc, &line) {
        Ok(Some(viewer)) => must_name(viewer, wanted),
        Ok(None) => must_be_none(wanted, 0),
        Err(_) => Err(Trouble::OutOfMemory),
    }
}

/// The number that was found must be this.
fn must_name(viewer: u16, wanted: &str) -> Result<(), Trouble> {
    if number(wanted, u16::MAX.into()) == Ok(u64::from(viewer)) {
        Ok(())
    } else {
        otherwise(Way::Whole, Found::Number(viewer.into()))
    }
}

/// Reads a command line of `rdp_view`: its port and its number of marks must be the row's, or there must be none.
pub fn run_view(alloc: Global, words: &[&str]) -> Result<(), Trouble> {
    let [port, marks, behind @ ..] = words else {
        return Err(Trouble::NoForm);
    };
    let line = command_line(alloc, behind)?;
    match view_of_words(alloc, &line) {
        Ok(Some(viewing)) => {
            must_name(viewing.port, port)?;
            must_name(viewing.marks, marks)
        }
        Ok(None) => must_be_none(port, 0),
        Err(_) => Err(Trouble::OutOfMemory),
    }
}

/// Reads no words at all, which ask no program for anything.
pub fn run_none(alloc: Global, words: &[&str]) -> Result<(), Trouble> {
    if !words.is_empty() {
        return Err(Trouble::NoForm);
    }
    match Request::read(alloc, &[]) {
        Ok(None) => {}
        Ok(Some(_)) => return otherwise(Way::Whole, Found::Number(1)),
        Err(_) => return Err(Trouble::OutOfMemory),
    }
    match viewer_of_words(alloc, &[]) {
        Ok(None) => {}
        Ok(Some(_)) => return otherwise(Way::Whole, Found::Number(2)),
        Err(_) => return Err(Trouble::OutOfMemory),
    }
    match view_of_words(alloc, &[]) {
        Ok(None) => Ok(()),
        Ok(Some(_)) => otherwise(Way::Whole, Found::Number(3)),
        Err(_) => Err(Trouble::OutOfMemory),
    }
}
