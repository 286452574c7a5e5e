// A session of the debugger: lines that are read, and their answers.

ghost use Rattle.std.specs.Prelude.{◌≡◌, Err, IfErr, OnOk, MatchResult, [], false, true};
ghost use Rattle.jm_debug.specs.Answering.{IsSession};
ghost use Rattle.jm_debug.specs.Session.{Session, printed};
ghost use Rattle.jm_execute.specs.Talks.{Answered, AnswersLine, Finishes, IsHeld, TalkLeft, lines_of, memory_refused, shown_for, talk, text_in};
ghost use Rattle.jm_execute.specs.Lines.{IsWithinLine};
ghost use Rattle.jm_execute.specs.Written.{AllWritten, BreaksOff, reads, words};

use crate::lines::{LineFault, NextLine, Unread};
use crate::readable::Readable;
use crate::watchable::Watchable;
use crate::watched::Watched;
use jm_debug::{DebugFault, Debugger};
use jm_explain::Status;
use jm_heap::Heap;
use std::alloc::Global;
use std::sync::Wait;

// A refusal as a line.
fn refusal_line(fault: DebugFault) -> &'static [u8]
    ensures { result.now ≡ printed (Err fault) }
{
    match fault {
        DebugFault::BadCommand => b"? 80 BadCommand\n",
        DebugFault::NoSuch => b"? 81 NoSuch\n",
        DebugFault::OutOfMemory => b"? 61 OutOfMemory\n",
    }
}

// Writes an answer, and hands it on.
fn write_answer<O: Watchable>(answer: &[u8], out: &mut Watched<O>) -> Result<(), Status>
    ensures written { MatchResult result (λ _. AllWritten (words O.contents O.ends) out.old out.new answer.now)
        (λ _. BreaksOff (words O.contents O.ends) out.old out.new answer.now) }
    ensures same { OnOk result (out.new.failed ≡ out.old.failed) }
    ensures status { IfErr result (λ status. status ≡ Status.Files) }
{
    let Ok(()) = out.write_all(answer) else {
        return Err(Status::Files);
    };
    match out.flush() {
        Ok(()) => Ok(()),
        Err(_) => Err(Status::Files),
    }
}

// Ends a session for want of memory.
fn end_for_memory<O: Watchable>(out: &mut Watched<O>) -> Status
    requires { out.old.failed ≡ false }
    ensures { (s : Session) → TalkLeft (words O.contents O.ends) (talk s [] memory_refused) result out.old out.new }
{
    match write_answer(refusal_line(DebugFault::OutOfMemory), out) {
        Ok(()) => Status::OutOfMemory,
        Err(status) => status,
    }
}

// What the debugger says of a line. One that is not UTF-8 is no command.
fn answer_of<H: Heap>(debugger: &mut Debugger<H>, line: &[u8]) -> Result<Vec<u8>, DebugFault>
    ensures { (s : Session) → IsSession debugger.old s
        → AnswersLine (λ answer. answer.items) debugger.new (shown_for s (text_in line.now)) result }
{
    match str::from_utf8(line) {
        Ok(text) => debugger.command(text),
        Err(_) => Err(DebugFault::BadCommand),
    }
}

// Answers a line. The error is the status of the session, which has ended then.
fn answer<H: Heap, O: Watchable>(
    debugger: &mut Debugger<H>,
    line: &[u8],
    out: &mut Watched<O>,
) -> Result<(), Status>
    requires { out.old.failed ≡ false }
    ensures answered { (s : Session) → IsSession debugger.old s
        → Answered (words O.contents O.ends) debugger.new s (text_in line.now) result out.old out.new }
    ensures same { OnOk result (out.new.failed ≡ out.old.failed) }
{
    match answer_of(debugger, line) {
        Ok(answer) => write_answer(&answer, out),
        Err(DebugFault::BadCommand) => write_answer(refusal_line(DebugFault::BadCommand), out),
        Err(DebugFault::NoSuch) => write_answer(refusal_line(DebugFault::NoSuch), out),
        Err(DebugFault::OutOfMemory) => Err(end_for_memory(out)),
    }
}

// Answers what stands behind the last line feed, which is no line if it is empty, and ends the session.
fn answer_last<H: Heap, O: Watchable>(
    debugger: &mut Debugger<H>,
    line: &[u8],
    out: &mut Watched<O>,
) -> Status
    requires line { IsWithinLine line.now }
    requires out { out.old.failed ≡ false }
    ensures { (s : Session) → IsSession debugger.old s → Finishes (words O.contents O.ends) s (lines_of line.now) result out.old out.new }
{
    if line.is_empty() {
        return Status::Done;
    }
    match answer(debugger, line, out) {
        Ok(()) => Status::Done,
        Err(status) => status,
    }
}

/// Answers the lines of a reader, one after the other: each answer is written and handed on before
/// the next line is read. The status is `Done` at the reader's end, `OutOfMemory` behind the line
/// that says so, and `Files` where a call of the reader or of the writer failed. It may wait for a
/// line for ever.
pub fn answer_lines<H: Heap, W: Wait, R: Readable, O: Watchable>(
    rt: &W,
    alloc: Global,
    debugger: &mut Debugger<H>,
    reader: &mut Watched<R>,
    out: &mut Watched<O>,
) -> Status
    requires { out.old.failed ≡ false }
    ensures { (s : Session) → IsSession debugger.old s
        → IsHeld (reads R.remaining R.fails) (words O.contents O.ends) s result reader.old reader.new out.old out.new }
{
    let mut unread = Unread::new(alloc);
    'lines: for _ in rt.forever() {
        match unread.next_line(alloc, reader) {
            Ok(NextLine::Line(line)) => match answer(debugger, &line, out) {
                Ok(()) => {}
                Err(status) => return status,
            },
            Ok(NextLine::End(line)) => return answer_last(debugger, &line, out),
            Err(LineFault::OutOfMemory) => return end_for_memory(out),
            Err(LineFault::ReadFailed) => return Status::Files,
        }
    }
    unreachable!()
}
