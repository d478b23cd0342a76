//! The top call.

ghost use Rattle.std.specs.Prelude.{map, IsTrue};
ghost use Rattle.pws_look.specs.Outcomes.{EndsOn, Writes, UsageIff, LimitOn, ReadCaused, WriteCaused, LooksOn, LookCaused, is_written, WritesText, EndsWith};
ghost use Rattle.pws_look.specs.Words.{command_of};

use crate::lines::{Report, look_at};
use crate::statuses::LookStatus;
use crate::words::{Command, command_of};
use pws_base::memory::Memory;
use pws_base::streams::{Sink, Source};
use pws_base::whole::{ReadError, WriteFault, read_all, write_all};
use std::alloc::Global;

/// Does all that the program `pws-look` does: reads texts from the source, and writes an answer a text to the sink.
///
/// The words are those after the program's name: a kind of text, `event`, `packet`, `envelope`, `soap` or
/// `script`, and then `--lines` or nothing. Each status comes with its text, by docs/FORMATS.md:
///
/// - `Usage` and the usage line, exactly where the words aren't such;
/// - `Good` or `Refused` and the answers, where they are and the source gives at most 64 MiB: with `--lines` to each
///   line, which is to be a text in lower-case hexadecimal, else to the input as it is; `Good` where all are good;
/// - `Limit` and `input: limit`, exactly where the words are such, the source didn't fail, and it gives more;
/// - `ReadFault` and nothing, only where the source's faults rose in this call;
/// - `WriteFault` and a prefix of the text, only where the sink's faults rose in this call;
/// - `Memory` and nothing.
///
/// The first three yield to `WriteFault` and to `Memory`, and `Good`, `Refused` and `Limit` to `ReadFault`. Where the
/// source doesn't tell its bytes, no clause says which text is due.
pub fn look_main<S: Source, K: Sink>(
    alloc: Global,
    words: &[&str],
    source: &mut S,
    sink: &mut K,
) -> LookStatus
    // Over a source that tells its bytes, status and text are those of the words and the bytes.
    ensures told { EndsOn (command_of (map (λ w. w.now) words.now)) (S.left source.old) (K.held sink.old) (K.held sink.new) result }

    // What is written with Usage, Limit, ReadFault and Memory, and when each refusal comes, whatever the source tells.
    ensures written { Writes (K.held sink.old) (K.held sink.new) result }
    ensures usage { UsageIff (command_of (map (λ w. w.now) words.now)) result }
    ensures limit { LimitOn (S.left source.old) result }
    ensures read_fault { ReadCaused result (S.faults source.old) (S.faults source.new) }
    ensures write_fault { WriteCaused result (K.faults sink.old) (K.faults sink.new) }
{
    match command_of(words) {
        Some(command) => end(sink, look(alloc, command, source)),
        None => written(
            sink,
            b"usage: pws-look event, packet, envelope, soap or script, and --lines\n",
            LookStatus::Usage,
        ),
    }
}

/// Why there is no report.
#[derive(Clone, Copy, Debug, PartialEq, Eq)]
enum LookError {
    Limit,
    Fault,
    Memory,
}

/// The report on what the source gives, of which there are to be at most 64 MiB.
fn look<S: Source>(alloc: Global, command: Command, source: &mut S) -> Result<Report, LookError>
    ensures told { LooksOn command (S.left source.old) result }
    ensures cause { LookCaused result (S.faults source.old) (S.faults source.new) }
{
    let input = match read_all(alloc, source, 67108864) {
        Ok(input) => input,
        Err(ReadError::Limit) => return Err(LookError::Limit),
        Err(ReadError::Fault) => return Err(LookError::Fault),
        Err(ReadError::Memory) => return Err(LookError::Memory),
    };
    match look_at(alloc, command, input.as_slice()) {
        Ok(report) => Ok(report),
        Err(Memory) => Err(LookError::Memory),
    }
}

/// Writes a text and ends with this status, or by a fault of the sink.
fn written<K: Sink>(sink: &mut K, text: &[u8], status: LookStatus) -> LookStatus
    requires { IsTrue (is_written status) }
    ensures held { WritesText (K.held sink.old) (K.held sink.new) text.now status result }
    ensures cause { WriteCaused result (K.faults sink.old) (K.faults sink.new) }
{
    match write_all(sink, text) {
        Ok(()) => status,
        Err(WriteFault) => LookStatus::WriteFault,
    }
}

/// Writes what was found and ends.
fn end<K: Sink>(sink: &mut K, found: Result<Report, LookError>) -> LookStatus
    ensures ends { EndsWith (K.held sink.old) (K.held sink.new) found result }
    ensures cause { WriteCaused result (K.faults sink.old) (K.faults sink.new) }
{
    match found {
        Ok(report) if report.good => written(sink, report.text.bytes(), LookStatus::Good),
        Ok(report) => written(sink, report.text.bytes(), LookStatus::Refused),
        Err(LookError::Limit) => written(sink, b"input: limit\n", LookStatus::Limit),
        Err(LookError::Fault) => LookStatus::ReadFault,
        Err(LookError::Memory) => LookStatus::Memory,
    }
}
