//! The answers to a whole input.

ghost use Rattle.std.specs.Prelude.{◌≡◌, ◌++◌, [], ◌∷◌, ◌&&◌, true, IfOk, OnOk};
ghost use Rattle.pws_look.specs.Answers.{Answers};
ghost use Rattle.pws_look.specs.Looks.{not_hexadecimal, LineAnswers, line_of, report_of, with_answer, Reports, ReportsLines, ReportsWhole};

use crate::answers::{Answer, answer_to};
use crate::words::{Command, Kind};
use pws_base::bytes::Bytes;
use pws_base::memory::Memory;
use pws_base::writers::Writer;
use pws_sched::hexadecimal::{HexError, decode_lower};
use pws_script::lines::Lines;
use std::alloc::Global;

/// The answers so far, a line each, and whether all texts were good.
#[derive(Drop)]
pub struct Report {
    pub text: Writer,
    pub good: bool,
}

impl Report {
    /// No answers.
    fn new(alloc: Global) -> Report
        ensures { result ≡ report_of [] }
    {
        Report {
            text: Writer::new(alloc),
            good: true,
        }
    }

    /// One more answer.
    fn add(&mut self, answer: &Answer) -> Result<(), Memory>
        ensures { OnOk result (self.new ≡ with_answer self.old answer.now) }
    {
        self.text.put_bytes(answer.line.as_slice())?;
        self.text.put_bytes(b"\n")?;
        self.good = self.good && answer.good;
        Ok(())
    }
}

/// What is said of a line that isn't lower-case hexadecimal.
fn not_hexadecimal(alloc: Global) -> Result<Answer, Memory>
    ensures { IfOk result (λ a. a ≡ not_hexadecimal) }
{
    Ok(Answer {
        line: Bytes::from_slice(alloc, b"not hexadecimal")?,
        good: false,
    })
}

/// What is said of a line.
fn line_answer(alloc: Global, kind: Kind, line: &[u8]) -> Result<Answer, Memory>
    ensures { IfOk result (LineAnswers kind line.now) }
{
    match decode_lower(alloc, line) {
        Ok(text) => answer_to(alloc, true, kind, text.as_slice()),
        Err(HexError::NotHexadecimal) => not_hexadecimal(alloc),
        Err(HexError::Memory) => Err(Memory),
    }
}

/// The answers to an input of which each line is a text.
fn look_at_lines(alloc: Global, kind: Kind, input: &[u8]) -> Result<Report, Memory>
    ensures { IfOk result (ReportsLines kind input.now) }
{
    let mut report = Report::new(alloc);
    let mut lines = Lines::new(input);
    while let Some(line) = lines.next() {
        let answer = line_answer(alloc, kind, line.bytes)?;
        report.add(&answer)?;
    }
    Ok(report)
}

/// The answer to an input that is one text.
fn look_at_whole(alloc: Global, kind: Kind, input: &[u8]) -> Result<Report, Memory>
    ensures { IfOk result (ReportsWhole kind input.now) }
{
    let mut report = Report::new(alloc);
    let answer = answer_to(alloc, false, kind, input)?;
    report.add(&answer)?;
    Ok(report)
}

/// The answers to an input.
///
/// # Errors
///
/// `Memory` only.
pub fn look_at(alloc: Global, command: Command, input: &[u8]) -> Result<Report, Memory>
    ensures { IfOk result (Reports command input.now) }
{
    if command.lines {
        look_at_lines(alloc, command.kind, input)
    } else {
        look_at_whole(alloc, command.kind, input)
    }
}
