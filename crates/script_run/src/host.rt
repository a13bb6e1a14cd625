//! A script's run in its course does the lines of the script, and writes its capture.
use crate::course::Course;
use crate::found::FIRST;
use crate::{OutOfMemory, ScriptHost};
use caps_sets::Confirmed;
use px_core::Size;
use script_lines::{LineRule, ViewerStep, write_broken};
use session_rules::Role;
use std::alloc::Global;

/// Whose line that of a refused join is.
const NOBODY: u32 = 0;

/// What only the lines of joins have.
const NO_PRESET: &[u8] = b"";

impl Course for ScriptHost {
    ghost use Rattle.script_run.specs.Captures.{captures};
    ghost use Rattle.script_run.specs.Hosted.{seen_of, IsRunOfReading};

    ghost writing = { captures };

    ghost seen = { λ host. seen_of host };

    ghost keeps = { λ host r run. IsRunOfReading host r run };

    fn begin(alloc: Global, size: Size) -> ScriptHost {
        ScriptHost::new(alloc, size)
    }

    fn has_begun(&self) -> bool {
        ScriptHost::has_begun(self)
    }

    fn row_count(&self) -> usize {
        ScriptHost::row_count(self)
    }

    fn is_invited(&self, name: &[u8]) -> bool {
        ScriptHost::is_invited(self, name)
    }

    fn present(&self, viewer: u32) -> bool {
        ScriptHost::present(self, viewer)
    }

    fn invite(&mut self, name: &[u8], role: Role) -> Result<(), OutOfMemory> {
        ScriptHost::invite(self, name, role)?;
        Ok(())
    }

    fn join(
        &mut self,
        alloc: Global,
        out: &mut Vec<u8>,
        name: &[u8],
        preset: &[u8],
        confirmed: Confirmed,
    ) -> Result<Option<Vec<u8>>, OutOfMemory> {
        let answer = ScriptHost::join(self, name, confirmed)?;
        answer.write(alloc, out, self.size(), NOBODY, preset)
    }

    fn step(
        &mut self,
        alloc: Global,
        out: &mut Vec<u8>,
        viewer: u32,
        step: ViewerStep,
    ) -> Result<Option<Vec<u8>>, OutOfMemory> {
        let answer = ScriptHost::step(self, viewer, step)?;
        answer.write(alloc, out, self.size(), viewer, NO_PRESET)
    }

    fn refuse(
        &self,
        alloc: Global,
        out: &mut Vec<u8>,
        k: u32,
        rule: LineRule,
    ) -> Result<(), OutOfMemory> {
        write_broken(alloc, out, k, rule)
    }

    fn end(&self, _: &mut Vec<u8>) -> Result<(), OutOfMemory> {
        Ok(())
    }

    fn refuse_first(alloc: Global, out: &mut Vec<u8>, rule: LineRule) -> Result<(), OutOfMemory> {
        write_broken(alloc, out, FIRST, rule)
    }
}
