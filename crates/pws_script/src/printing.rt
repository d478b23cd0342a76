//! Printing instructions.

ghost use Rattle.std.specs.Prelude.{◌≡◌, ◌∷◌, ◌++◌, [], map, OnOk, codes, decimal};
ghost use Rattle.std.specs.List.{flat_map};
ghost use Rattle.pws_script.specs.Spelling.{register_text, escape, quoted, literal_text, operation_of, operands_of, spelling, spaced, two, three, three_of};

use crate::instructions::{Instruction, Literal};
use crate::operands::{Calls, Group, Name, Register};
use crate::operations::Operation;
use itoa::Buffer;
use pws_base::memory::Memory;
use pws_base::writers::Writer;

impl Instruction {
    /// What the instruction does, without its operands.
    pub fn operation(&self) -> Operation
        ensures { result ≡ operation_of self.now }
    {
        match self {
            Instruction::Set { .. } => Operation::Set,
            Instruction::Add { .. } => Operation::Add,
            Instruction::Sub { .. } => Operation::Sub,
            Instruction::Less { .. } => Operation::Less,
            Instruction::Same { .. } => Operation::Same,
            Instruction::Jump { .. } => Operation::Jump,
            Instruction::Join { .. } => Operation::Join,
            Instruction::Field { .. } => Operation::Field,
            Instruction::Receive { .. } => Operation::Receive,
            Instruction::Call { .. } => Operation::Call,
            Instruction::Await { .. } => Operation::Await,
            Instruction::AwaitAny { .. } => Operation::AwaitAny,
            Instruction::Next { .. } => Operation::Next,
            Instruction::Reply { .. } => Operation::Reply,
            Instruction::Clock { .. } => Operation::Clock,
            Instruction::Seed => Operation::Seed,
            Instruction::Draw { .. } => Operation::Draw,
            Instruction::Stop => Operation::Stop,
        }
    }
}

fn put_number(text: &mut Writer, number: u64) -> Result<(), Memory>
    ensures { OnOk result (text.new ≡ text.old ++ decimal number) }
{
    let mut buffer = Buffer::new();
    text.put_bytes(buffer.format(number).as_bytes())
}

#[tactic(auto, unfolding(crate::specs::Spelling::register_text))]
fn put_register(text: &mut Writer, register: Register) -> Result<(), Memory>
    ensures { OnOk result (text.new ≡ text.old ++ register_text register) }
{
    text.put_u8(b'r')?;
    put_number(text, u64::from(register.index()))
}

fn put_escaped(text: &mut Writer, byte: u8) -> Result<(), Memory>
    ensures { OnOk result (text.new ≡ text.old ++ escape byte) }
{
    match byte {
        b'"' => text.put_bytes(b"\\\""),
        b'\\' => text.put_bytes(b"\\\\"),
        b'\n' => text.put_bytes(b"\\n"),
        _ => text.put_u8(byte),
    }
}

#[tactic(auto, unfolding(crate::specs::Spelling::quoted))]
fn put_quoted(text: &mut Writer, bytes: &[u8]) -> Result<(), Memory>
    ensures { OnOk result (text.new ≡ text.old ++ quoted bytes.now) }
{
    text.put_u8(b'"')?;
    for byte in bytes {
        put_escaped(text, *byte)?;
    }
    text.put_u8(b'"')
}

fn put_literal(text: &mut Writer, literal: &Literal) -> Result<(), Memory>
    ensures { OnOk result (text.new ≡ text.old ++ literal_text literal.now) }
{
    match literal {
        Literal::Number(number) => put_number(text, *number),
        Literal::Text(literal) => put_quoted(text, literal.as_str().as_bytes()),
    }
}

fn put_operand_register(text: &mut Writer, register: Register) -> Result<(), Memory>
    ensures { OnOk result (text.new ≡ text.old ++ (32 ∷ register_text register)) }
{
    text.put_u8(b' ')?;
    put_register(text, register)
}

fn put_operand_number(text: &mut Writer, number: u64) -> Result<(), Memory>
    ensures { OnOk result (text.new ≡ text.old ++ (32 ∷ decimal number)) }
{
    text.put_u8(b' ')?;
    put_number(text, number)
}

fn put_two(text: &mut Writer, a: Register, b: Register) -> Result<(), Memory>
    ensures { OnOk result (text.new ≡ text.old ++ spaced (two a b)) }
{
    put_operand_register(text, a)?;
    put_operand_register(text, b)
}

fn put_three(text: &mut Writer, a: Register, b: Register, c: Register) -> Result<(), Memory>
    ensures { OnOk result (text.new ≡ text.old ++ spaced (three a b c)) }
{
    put_operand_register(text, a)?;
    put_two(text, b, c)
}

fn put_set(text: &mut Writer, target: Register, literal: &Literal) -> Result<(), Memory>
    ensures { OnOk result (text.new ≡ text.old ++ spaced (register_text target ∷ literal_text literal.now ∷ [])) }
{
    put_operand_register(text, target)?;
    text.put_u8(b' ')?;
    put_literal(text, literal)
}

fn put_field(
    text: &mut Writer,
    target: Register,
    message: Register,
    name: &Name,
) -> Result<(), Memory>
    ensures { OnOk result (text.new ≡ text.old ++ spaced (register_text target ∷ register_text message ∷ name.now ∷ [])) }
{
    put_two(text, target, message)?;
    text.put_u8(b' ')?;
    text.put_bytes(name.as_slice())
}

fn put_jump(text: &mut Writer, line: u32, test: Register) -> Result<(), Memory>
    ensures { OnOk result (text.new ≡ text.old ++ spaced (decimal line ∷ register_text test ∷ [])) }
{
    put_operand_number(text, u64::from(line))?;
    put_operand_register(text, test)
}

fn put_call(
    text: &mut Writer,
    target: Register,
    group: Group,
    request: Register,
    timeout: u32,
) -> Result<(), Memory>
    ensures { OnOk result (text.new ≡ text.old ++ spaced (register_text target ∷ decimal group ∷ register_text request ∷ decimal timeout ∷ [])) }
{
    put_operand_register(text, target)?;
    put_operand_number(text, u64::from(group.number()))?;
    put_operand_register(text, request)?;
    put_operand_number(text, u64::from(timeout))
}

fn put_calls(text: &mut Writer, registers: &[Register]) -> Result<(), Memory>
    ensures { OnOk result (text.new ≡ text.old ++ spaced (map register_text registers.now)) }
{
    for register in registers {
        put_operand_register(text, *register)?;
    }
    Ok(())
}

fn put_await_any(
    text: &mut Writer,
    call: Register,
    message: Register,
    calls: &Calls,
) -> Result<(), Memory>
    ensures { OnOk result (text.new ≡ text.old ++ spaced (register_text call ∷ register_text message ∷ map register_text calls.now)) }
{
    put_two(text, call, message)?;
    put_calls(text, calls.as_slice())
}

fn put_three_of(text: &mut Writer, instruction: &Instruction) -> Result<(), Memory>
    ensures { OnOk result (text.new ≡ text.old ++ spaced (three_of instruction.now)) }
{
    match instruction {
        Instruction::Add {
            target,
            left,
            right,
        }
        | Instruction::Sub {
            target,
            left,
            right,
        }
        | Instruction::Less {
            target,
            left,
            right,
        }
        | Instruction::Same {
            target,
            left,
            right,
        }
        | Instruction::Join {
            target,
            left,
            right,
        } => put_three(text, *target, *left, *right),
        _ => Ok(()),
    }
}

fn put_operands(text: &mut Writer, instruction: &Instruction) -> Result<(), Memory>
    ensures { OnOk result (text.new ≡ text.old ++ spaced (operands_of instruction.now)) }
{
    match instruction {
        Instruction::Set { target, literal } => put_set(text, *target, literal),
        Instruction::Add { .. }
        | Instruction::Sub { .. }
        | Instruction::Less { .. }
        | Instruction::Same { .. }
        | Instruction::Join { .. } => put_three_of(text, instruction),
        Instruction::Jump { line, test } => put_jump(text, *line, *test),
        Instruction::Field {
            target,
            message,
            name,
        } => put_field(text, *target, *message, name),
        Instruction::Receive { request, message } => put_two(text, *request, *message),
        Instruction::Call {
            target,
            group,
            text: request,
            timeout,
        } => put_call(text, *target, *group, *request, *timeout),
        Instruction::Await { message, call } => put_two(text, *message, *call),
        Instruction::AwaitAny {
            call,
            message,
            calls,
        } => put_await_any(text, *call, *message, calls),
        Instruction::Next { source, message } => put_two(text, *source, *message),
        Instruction::Reply {
            request,
            text: reply,
        } => put_two(text, *request, *reply),
        Instruction::Clock { target } => put_operand_register(text, *target),
        Instruction::Draw { target, modulus } => put_two(text, *target, *modulus),
        Instruction::Seed | Instruction::Stop => Ok(()),
    }
}

/// Writes the text of an instruction.
#[tactic(auto, unfolding(crate::specs::Spelling::spelling))]
pub(crate) fn put_instruction(text: &mut Writer, instruction: &Instruction) -> Result<(), Memory>
    ensures { OnOk result (text.new ≡ text.old ++ spelling instruction.now) }
{
    text.put_bytes(instruction.operation().name())?;
    put_operands(text, instruction)
}
