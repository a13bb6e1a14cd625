ghost use Rattle.std.specs.Prelude.{◌≡◌, ◌==◌, ◌++◌, [], None, IfOk, IfErr, IsTrue, MatchResult, OnErr, OnOk, position};
ghost use Rattle.std.specs.Io.KnownBytes.{append_known};
ghost use Rattle.edge_io.specs.Finding.{Finds, FindCause};
ghost use Rattle.edge_io.specs.Reading.{ahead};
ghost use Rattle.edge_io.specs.Sink.{WritesFront};
ghost use Rattle.px_core.specs.Rectangle.{is_session_size};
ghost use Rattle.frame_rules.specs.Encoder.{Encoder};
ghost use Rattle.script_rules.specs.Script.{ScriptReading, opened_reading};
ghost use Rattle.script_rules.specs.CaptureText.{Run};
ghost use Rattle.script_run.specs.Held.{Grows, Holds};
ghost use Rattle.script_run.specs.Outcomes.{is_invite_found};
ghost use Rattle.script_run.specs.Run.{ReadsCause, WritesCause};
ghost use Rattle.script_run.specs.Standing.{Stands, IsInCourse};
ghost use Rattle.script_run.specs.Steps.{HoldsNone, IsWriteFault, BeginsLines};
ghost use Rattle.script_run.specs.Solo.{first_run, solo_reading, solo_run};
ghost use Rattle.script_run.specs.Reading.{moment};
ghost use Rattle.script_run.specs.Progress.{NextLineDone, AllLinesDone};
ghost use Rattle.script_run.specs.Texts.{text_of};
ghost use Rattle.script_run.specs.Writing.{IsWriting, joined};

use crate::OutOfMemory;
use crate::course::Course;
use crate::fault::ScriptFault;
use crate::found::{answer, do_found};
use crate::line::{invite, join};
use crate::page::{Page, flush};
use crate::text::{Text, hold_text};
use edge_io::{Found, LineReader, Sink, Source};
use px_core::Size;
use script_lines::is_invite;
use session_rules::Role;
use std::alloc::Global;

/// The number of the line after the one that gives the size.
const SECOND: u32 = 2;

/// The name of the one viewer of a script without invites (profile).
const SOLO_NAME: &[u8] = b"host";

/// Its preset (profile).
const SOLO_PRESET: &[u8] = b"plain";

/// Does the lines after the first, each as it is read.
pub(crate) fn do_lines<C: Course, S: Source, K: Sink>(
    alloc: Global,
    reader: &mut LineReader,
    input: &mut S,
    output: &mut K,
    size: Size,
) -> Result<(), ScriptFault>
    requires size { IsTrue (is_session_size size.w size.h) }
    requires writing { IsWriting C.writing }
    ensures done { AllLinesDone result (C.writing.rest size reader.old.at)
        (moment reader.old (S.left input.old) (K.told output.old)) (moment reader.new (S.left input.new) (K.told output.new)) }
    ensures read { ReadsCause result (S.faults input.old) (S.faults input.new) }
    ensures write { WritesCause result (K.faults output.old) (K.faults output.new) }
{
    let mut page = Page::new(alloc)?;
    let done = hold_lines::<C, S, K>(alloc, reader, input, output, &mut page, size);
    flush(output, &mut page)?;
    done
}

/// Does the lines after the first, each as it is read, and may hold back what they write.
fn hold_lines<C: Course, S: Source, K: Sink>(
    alloc: Global,
    reader: &mut LineReader,
    input: &mut S,
    output: &mut K,
    page: &mut Page,
    size: Size,
) -> Result<(), ScriptFault>
    requires size { IsTrue (is_session_size size.w size.h) }
    requires empty { page.old ≡ [] }
    requires writing { IsWriting C.writing }
    ensures done { AllLinesDone result (C.writing.rest size reader.old.at) (moment reader.old (S.left input.old) (K.told output.old))
        (moment reader.new (S.left input.new) (append_known (K.told output.new) page.new)) }
    ensures grows { Grows (K.told output.old) (K.told output.new) }
    ensures empty { HoldsNone result page.new }
    ensures read { ReadsCause result (S.faults input.old) (S.faults input.new) }
    ensures write { WritesCause result (K.faults output.old) (K.faults output.new) }
{
    let mut course = C::begin(alloc, size);
    let mut k = SECOND;
    let mut goes_on = do_second(alloc, reader, input, output, page, &mut course)?;
    while goes_on {
        k += 1;
        goes_on = do_next(alloc, reader, input, output, page, &mut course, k)?;
    }
    Ok(())
}

/// Does the second line; before any but an invite the one viewer joins.
fn do_second<C: Course, S: Source, K: Sink>(
    alloc: Global,
    reader: &mut LineReader,
    input: &mut S,
    output: &mut K,
    page: &mut Page,
    course: &mut C,
) -> Result<bool, ScriptFault>
    requires begins { Stands (C.seen course.old) (C.keeps course.old) (opened_reading (C.seen course.old).head.size [])
        (first_run (C.seen course.old).head.size) }
    requires writing { IsWriting C.writing }
    ensures done { NextLineDone C.writing result (C.writing.rest (C.seen course.old).head.size reader.old.at) 2
        (Stands (C.seen course.new) (C.keeps course.new)) (K.told output.old)
        (moment reader.old (S.left input.old) (append_known (K.told output.old) page.old))
        (moment reader.new (S.left input.new) (append_known (K.told output.new) page.new)) }
    ensures grows { Grows (K.told output.old) (K.told output.new) }
    ensures empty { HoldsNone result page.new }
    ensures read { ReadsCause result (S.faults input.old) (S.faults input.new) }
    ensures write { WritesCause result (K.faults output.old) (K.faults output.new) }
{
    let found = find_line(reader, input, output, page)?;
    if let Found::Failed = found {
        return Err(ScriptFault::ReadFault);
    }
    let mut out = begin(alloc, course, found, reader.text())?;
    let step = do_found(alloc, &mut out, course, SECOND, found, reader.text())?;
    hold_text(output, page, &out)?;
    answer(SECOND, step)
}

/// Does line `k`, where there is one; says whether there was.
fn do_next<C: Course, S: Source, K: Sink>(
    alloc: Global,
    reader: &mut LineReader,
    input: &mut S,
    output: &mut K,
    page: &mut Page,
    course: &mut C,
    k: u32,
) -> Result<bool, ScriptFault>
    requires course { IsInCourse (C.keeps course.old) }
    requires writing { IsWriting C.writing }
    ensures done { (r : ScriptReading) (run : Run Encoder) → Stands (C.seen course.old) (C.keeps course.old) r run
        → NextLineDone C.writing result (C.writing.from k reader.old.at r run) k (Stands (C.seen course.new) (C.keeps course.new)) (K.told output.old)
        (moment reader.old (S.left input.old) (append_known (K.told output.old) page.old))
        (moment reader.new (S.left input.new) (append_known (K.told output.new) page.new)) }
    ensures grows { Grows (K.told output.old) (K.told output.new) }
    ensures empty { HoldsNone result page.new }
    ensures read { ReadsCause result (S.faults input.old) (S.faults input.new) }
    ensures write { WritesCause result (K.faults output.old) (K.faults output.new) }
{
    let found = find_line(reader, input, output, page)?;
    if let Found::Failed = found {
        return Err(ScriptFault::ReadFault);
    }
    let mut out = Text::new(alloc);
    let step = do_found(alloc, &mut out, course, k, found, reader.text())?;
    hold_text(output, page, &out)?;
    answer(k, step)
}

/// Finds the next line. Where none is held whole, the input is read, and before that what was held back is written.
fn find_line<S: Source, K: Sink>(
    reader: &mut LineReader,
    input: &mut S,
    output: &mut K,
    page: &mut Page,
) -> Result<Found, ScriptFault>
    ensures found { IfOk result (λ found. Finds found reader.old reader.new (ahead reader.old (S.left input.old)) (ahead reader.new (S.left input.new))) }
    ensures part { IfOk result (λ found. found ≡ Found.Failed → position (λ b. b == 10) reader.new.held ≡ None) }
    ensures empty { IfOk result (λ found. found ≡ Found.Failed → page.new ≡ []) }
    ensures held { OnOk result (Holds (K.told output.old) (K.told output.new) page.old page.new []) }
    ensures front { OnErr result (WritesFront (K.told output.old) (K.told output.new) page.old) }
    ensures unheld { OnErr result (page.new ≡ []) }
    ensures fault { IfErr result IsWriteFault }
    ensures read { MatchResult result (λ found. FindCause found (S.faults input.old) (S.faults input.new)) (λ fault. S.faults input.new ≡ S.faults input.old) }
    ensures cause { WritesCause result (K.faults output.old) (K.faults output.new) }
{
    match reader.held_line() {
        Some(found) => Ok(found),
        None => {
            flush(output, page)?;
            Ok(reader.read_line(input))
        }
    }
}

/// Whether what was found is an invite by its form.
fn is_invite_found(found: Found, text: &[u8]) -> bool
    ensures { result ≡ is_invite_found found text.now }
{
    match found {
        Found::Line { .. } => is_invite(text),
        Found::PastLimits | Found::End | Found::Failed => false,
    }
}

/// What a script without invites writes before its second line, of which this was found: what the join of its one viewer does. Nothing where
/// it has invites.
fn begin<C: Course>(
    alloc: Global,
    course: &mut C,
    found: Found,
    text: &[u8],
) -> Result<Text, OutOfMemory>
    requires { Stands (C.seen course.old) (C.keeps course.old) (opened_reading (C.seen course.old).head.size []) (first_run (C.seen course.old).head.size) }
    ensures { IfOk result (λ out. BeginsLines C.writing (is_invite_found found text.now) (C.seen course.old).head.size
        (Stands (C.seen course.new) (C.keeps course.new)) (text_of out)) }
{
    let mut out = Text::new(alloc);
    if !is_invite_found(found, text) {
        join_alone(alloc, &mut out, course)?;
    }
    Ok(out)
}

/// Adds the row of the one viewer, and lets it join; appends what that writes.
fn join_alone<C: Course>(alloc: Global, out: &mut Text, course: &mut C) -> Result<(), OutOfMemory>
    requires { Stands (C.seen course.old) (C.keeps course.old) (opened_reading (C.seen course.old).head.size []) (first_run (C.seen course.old).head.size) }
    ensures standing { OnOk result (Stands (C.seen course.new) (C.keeps course.new)
        (solo_reading (C.seen course.old).head.size) (solo_run (C.seen course.old).head.size)) }
    ensures line { OnOk result (text_of out.new ≡ text_of out.old ++ joined C.writing (C.seen course.old).head.size) }
{
    invite(course, SOLO_NAME, Role::Owner)?;
    join(alloc, out, course, SOLO_NAME, SOLO_PRESET)?;
    Ok(())
}
