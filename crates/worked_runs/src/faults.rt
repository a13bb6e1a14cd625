//! The texts of faults.

use crate::turns::otherwise;
use crate::verdict::{Found, Trouble, Way};
use script_run::ScriptFault;
use std::alloc::Global;

/// Faults of a script's run, with their texts.
const TEXTS: [(ScriptFault, &str); 4] = [
    (ScriptFault::Line { k: 12, rule: 7 }, "line 12 rule 7"),
    (ScriptFault::ReadFault, "read fault"),
    (ScriptFault::WriteFault, "write fault"),
    (ScriptFault::OutOfMemory, "out of memory"),
];

/// Writes each fault, and compares it with its text.
pub fn run_row(alloc: Global, words: &[&str]) -> Result<(), Trouble> {
    if !words.is_empty() {
        return Err(Trouble::NoForm);
    }
    for (fault, text) in &TEXTS {
        let found = format!(in alloc; "{fault}")?;
        if found.as_str() != *text {
            return otherwise(Way::Whole, Found::Byte(found.len()));
        }
    }
    Ok(())
}
