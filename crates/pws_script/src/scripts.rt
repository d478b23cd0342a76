//! Scripts.

ghost use Rattle.std.specs.Prelude.{◌≡◌, ◌∷◌, ◌++◌, [], length, true, IfOk, OnOk};
ghost use Rattle.pws_script.specs.Scripts.{Reads};
ghost use Rattle.pws_script.specs.Spelling.{IsScript, script_text, spelling};
ghost use Rattle.pws_script.specs.Lines.{lines_of};
ghost use Rattle.pws_script.specs.Steps.{GivesLines, at_line, each_line, script_of, line_at};
ghost use Rattle.pws_script.specs.Texts.{is_line};

use crate::faults::{LineError, ReadScriptError, ScriptFault};
use crate::instructions::Instruction;
use crate::lines::{Lines, count_lines, read_line};
use crate::printing::put_instruction;
use pws_base::bytes::Bytes;
use pws_base::lists::{ExactCopy, Sequence};
use pws_base::memory::Memory;
use pws_base::writers::Writer;
use std::alloc::Global;
use std::fmt;
use std::marker::Model;

/// The instruction of the line of this number.
fn read_numbered(
    alloc: Global,
    lines: u32,
    number: u32,
    ended: bool,
    bytes: &[u8],
) -> Result<Instruction, ReadScriptError>
    requires { is_line bytes.now ≡ true }
    ensures { GivesLines (λ i. i) result (at_line number (line_at lines ended bytes.now)) }
{
    match read_line(alloc, lines, ended, bytes) {
        Ok(instruction) => Ok(instruction),
        Err(error) => Err(error.at(number)),
    }
}

/// The instructions of the lines of a text, of which there are so many.
fn read_lines(alloc: Global, count: u32, text: &[u8]) -> Result<Vec<Instruction>, ReadScriptError>
    requires { length (lines_of text.now) ≡ count }
    ensures { GivesLines (λ v. v.items) result (each_line count 1 (lines_of text.now)) }
{
    let mut lines = Lines::new(text);
    let mut instructions = Vec::new(alloc);
    for before in 0..count {
        let Some(line) = lines.next() else {
            break;
        };
        instructions.push(read_numbered(alloc, count, before + 1, line.ended, line.bytes)?)?;
    }
    Ok(instructions)
}

/// The instructions of a text, 1 to 1,000 of them.
#[tactic(auto, unfolding(crate::specs::Steps::script_of_lines))]
fn read_instructions(alloc: Global, text: &[u8]) -> Result<Vec<Instruction>, ReadScriptError>
    ensures { GivesLines (λ v. v.items) result (script_of text.now) }
{
    match count_lines(text) {
        None => Err(LineError::Fault(ScriptFault::Long).at(1001)),
        Some(0) => Err(LineError::Fault(ScriptFault::Count).at(1)),
        Some(count) => read_lines(alloc, count, text),
    }
}

/// A script: 1 to 1,000 instructions, whose jumps go to lines of the script.
///
/// Contracts see it as the list of its instructions.
#[derive(Drop)]
pub struct Script {
    instructions: Sequence<Instruction>,
}

impl Model for Script {
    ghost use Rattle.std.specs.Prelude.{List};
    ghost use Rattle.pws_script.specs.declared.instructions.Instruction.{Instruction};
    ghost use Rattle.pws_script.specs.Spelling.{IsScript};

    ghost Value = { List Instruction };

    ghost view = { λ s. s.instructions };

    ghost invariant = { λ s. IsScript s.instructions };
}

impl Script {
    /// The script that a text spells.
    ///
    /// # Errors
    ///
    /// `Script` with the first line that isn't in the grammar and what is wrong with it, exactly where no script has
    /// this text. `Long` stands at line 1,001; an empty text is `Count` at line 1. Of several faults of a line the
    /// first in the order of `ScriptFault` is answered. `Memory` at any time.
    pub fn read(alloc: Global, text: &[u8]) -> Result<Script, ReadScriptError>
        ensures { Reads result text.now }
    {
        let instructions = read_instructions(alloc, text)?;
        Ok(Script {
            instructions: Sequence::from_vec(instructions),
        })
    }

    /// The instructions, one a line.
    pub fn instructions(&self) -> &[Instruction]
        ensures value { result.now ≡ self.now }
        ensures lawful { IsScript self.now }
    {
        self.instructions.as_slice()
    }

    /// The one text of the script.
    ///
    /// # Errors
    ///
    /// `Memory` only.
    #[tactic(auto, unfolding(crate::specs::Spelling::script_text))]
    pub fn print(&self, alloc: Global) -> Result<Bytes, Memory>
        ensures { IfOk result (λ text. text ≡ script_text self.now) }
    {
        let mut text = Writer::new(alloc);
        for instruction in self.instructions.as_slice() {
            put_line(&mut text, instruction)?;
        }
        Ok(text.into_bytes())
    }
}

fn put_line(text: &mut Writer, instruction: &Instruction) -> Result<(), Memory>
    ensures { OnOk result (text.new ≡ text.old ++ (spelling instruction.now ++ 10 ∷ [])) }
{
    put_instruction(text, instruction)?;
    text.put_u8(b'\n')
}

impl ExactCopy for Script {
    fn copy(&self, alloc: Global) -> Result<Script, Memory> {
        Ok(Script {
            instructions: self.instructions.copy(alloc)?,
        })
    }
}

impl fmt::Debug for Script {
    fn fmt<W: fmt::Write>(&self, f: &mut fmt::Formatter<W>) -> fmt::Result {
        fmt::Debug::fmt(self.instructions.as_slice(), f)
    }
}
