//! Reading the operands of an instruction.

ghost use Rattle.std.specs.Prelude.{◌≡◌, ◌≤◌, map, length, All, true, Ok, IfOk};
ghost use Rattle.pws_script.specs.Texts.{is_word};
ghost use Rattle.pws_script.specs.Steps.{Gives, register_at, number_at, number_below_at, registers_at, one_at, two_at, three_at, set_at, jump_at, field_at, call_at, awaitany_at, none_at, of_one, of_two, of_three, instruction_at};
ghost use Rattle.pws_script.specs.declared.instructions.Instruction.TheVariants as instruction;

use crate::faults::{LineError, ScriptFault};
use crate::instructions::{Instruction, Literal};
use crate::numbers::{read_below, read_number, read_register};
use crate::operands::{Calls, Group, Name, Register};
use crate::operations::Operation;
use pws_base::bytes::Bytes;
use std::alloc::Global;

fn register(word: &str) -> Result<Register, ScriptFault>
    ensures { result ≡ register_at word.now }
{
    read_register(word).ok_or(ScriptFault::Register)
}

fn number(word: &str) -> Result<u64, ScriptFault>
    ensures { result ≡ number_at word.now }
{
    read_number(word).ok_or(ScriptFault::Number)
}

fn number_below(word: &str, limit: u64) -> Result<u64, ScriptFault>
    ensures { result ≡ number_below_at limit word.now }
{
    read_below(word, limit).ok_or(ScriptFault::Number)
}

#[tactic(auto, unfolding(crate::specs::Steps::one_at))]
fn read_one(words: &[&str]) -> Result<Register, ScriptFault>
    ensures { result ≡ one_at (map (λ w. w.now) words.now) }
{
    match words {
        [a] => register(a),
        _ => Err(ScriptFault::Count),
    }
}

#[tactic(auto, unfolding(crate::specs::Steps::two_at))]
fn read_two(words: &[&str]) -> Result<(Register, Register), ScriptFault>
    ensures { result ≡ two_at (map (λ w. w.now) words.now) }
{
    match words {
        [a, b] => Ok((register(a)?, register(b)?)),
        _ => Err(ScriptFault::Count),
    }
}

#[tactic(auto, unfolding(crate::specs::Steps::three_at))]
fn read_three(words: &[&str]) -> Result<(Register, Register, Register), ScriptFault>
    ensures { result ≡ three_at (map (λ w. w.now) words.now) }
{
    match words {
        [a, b, c] => Ok((register(a)?, register(b)?, register(c)?)),
        _ => Err(ScriptFault::Count),
    }
}

#[tactic(auto, unfolding(crate::specs::Steps::set_at))]
fn read_set(words: &[&str]) -> Result<Instruction, ScriptFault>
    ensures { result ≡ set_at (map (λ w. w.now) words.now) }
{
    let [a, b] = words else {
        return Err(ScriptFault::Count);
    };
    let target = register(a)?;
    let number = number(b)?;
    Ok(Instruction::Set {
        target,
        literal: Literal::Number(number),
    })
}

#[tactic(auto, unfolding(crate::specs::Steps::jump_at))]
fn read_jump(words: &[&str], lines: u32) -> Result<Instruction, ScriptFault>
    ensures { result ≡ jump_at lines (map (λ w. w.now) words.now) }
{
    let [a, b] = words else {
        return Err(ScriptFault::Count);
    };
    let test = register(b)?;
    let line = number(a)?;
    if 1 <= line && line <= u64::from(lines) {
        Ok(Instruction::Jump {
            line: line as u32,
            test,
        })
    } else {
        Err(ScriptFault::Target)
    }
}

#[tactic(auto, unfolding(crate::specs::Steps::call_at))]
fn read_call(words: &[&str]) -> Result<Instruction, ScriptFault>
    ensures { result ≡ call_at (map (λ w. w.now) words.now) }
{
    let [a, b, c, d] = words else {
        return Err(ScriptFault::Count);
    };
    let target = register(a)?;
    let text = register(c)?;
    let group = number_below(b, 16)?;
    let timeout = number_below(d, 1 << 32)?;
    Ok(Instruction::Call {
        target,
        group: Group::new(group as u8),
        text,
        timeout: timeout as u32,
    })
}

fn read_registers(alloc: Global, words: &[&str]) -> Result<Vec<Register>, LineError>
    ensures read { Gives (λ v. v.items) result (registers_at (map (λ w. w.now) words.now)) }
    ensures count { IfOk result (λ v. length v.items ≡ length words.now) }
{
    let mut registers = Vec::new(alloc);
    for word in words {
        registers.push(register(word)?)?;
    }
    Ok(registers)
}

#[tactic(auto, unfolding(crate::specs::Steps::awaitany_at))]
fn read_await_any(alloc: Global, words: &[&str]) -> Result<Instruction, LineError>
    ensures { Gives (λ i. i) result (awaitany_at (map (λ w. w.now) words.now)) }
{
    let [a, b, calls @ ..] = words else {
        return Err(LineError::Fault(ScriptFault::Count));
    };
    if calls.is_empty() || calls.len() > 8 {
        return Err(LineError::Fault(ScriptFault::Count));
    }
    let call = register(a)?;
    let message = register(b)?;
    let registers = read_registers(alloc, calls)?;
    Ok(Instruction::AwaitAny {
        call,
        message,
        calls: Calls::new(registers),
    })
}

#[tactic(auto, unfolding(crate::specs::Steps::none_at))]
fn read_none(words: &[&str], instruction: Instruction) -> Result<Instruction, ScriptFault>
    ensures { result ≡ none_at instruction (map (λ w. w.now) words.now) }
{
    if words.is_empty() {
        Ok(instruction)
    } else {
        Err(ScriptFault::Count)
    }
}

#[tactic(auto, unfolding(crate::specs::Steps::field_at))]
fn read_field(alloc: Global, words: &[&str]) -> Result<Instruction, LineError>
    requires { All (λ w. is_word w.now ≡ true) words.now }
    ensures { Gives (λ i. i) result (field_at (map (λ w. w.now) words.now)) }
{
    let [a, b, name] = words else {
        return Err(LineError::Fault(ScriptFault::Count));
    };
    if name.is_empty() {
        return Err(LineError::Fault(ScriptFault::Count));
    }
    let target = register(a)?;
    let message = register(b)?;
    Ok(Instruction::Field {
        target,
        message,
        name: read_name(alloc, name)?,
    })
}

fn read_name(alloc: Global, word: &str) -> Result<Name, LineError>
    requires word { is_word word.now ≡ true }
    requires some { 1 ≤ length word.now }
    ensures { Gives (λ n. n) result (Ok word.now) }
{
    let bytes = word.as_bytes();
    Ok(Name::new(Bytes::from_slice(alloc, bytes)?))
}

#[tactic(auto, unfolding(crate::specs::Steps::three_at))]
fn read_add(words: &[&str]) -> Result<Instruction, ScriptFault>
    ensures { result ≡ of_three instruction.Add (map (λ w. w.now) words.now) }
{
    let (target, left, right) = read_three(words)?;
    Ok(Instruction::Add {
        target,
        left,
        right,
    })
}

#[tactic(auto, unfolding(crate::specs::Steps::three_at))]
fn read_sub(words: &[&str]) -> Result<Instruction, ScriptFault>
    ensures { result ≡ of_three instruction.Sub (map (λ w. w.now) words.now) }
{
    let (target, left, right) = read_three(words)?;
    Ok(Instruction::Sub {
        target,
        left,
        right,
    })
}

#[tactic(auto, unfolding(crate::specs::Steps::three_at))]
fn read_less(words: &[&str]) -> Result<Instruction, ScriptFault>
    ensures { result ≡ of_three instruction.Less (map (λ w. w.now) words.now) }
{
    let (target, left, right) = read_three(words)?;
    Ok(Instruction::Less {
        target,
        left,
        right,
    })
}

#[tactic(auto, unfolding(crate::specs::Steps::three_at))]
fn read_same(words: &[&str]) -> Result<Instruction, ScriptFault>
    ensures { result ≡ of_three instruction.Same (map (λ w. w.now) words.now) }
{
    let (target, left, right) = read_three(words)?;
    Ok(Instruction::Same {
        target,
        left,
        right,
    })
}

#[tactic(auto, unfolding(crate::specs::Steps::three_at))]
fn read_join(words: &[&str]) -> Result<Instruction, ScriptFault>
    ensures { result ≡ of_three instruction.Join (map (λ w. w.now) words.now) }
{
    let (target, left, right) = read_three(words)?;
    Ok(Instruction::Join {
        target,
        left,
        right,
    })
}

#[tactic(auto, unfolding(crate::specs::Steps::two_at))]
fn read_receive(words: &[&str]) -> Result<Instruction, ScriptFault>
    ensures { result ≡ of_two instruction.Receive (map (λ w. w.now) words.now) }
{
    let (request, message) = read_two(words)?;
    Ok(Instruction::Receive { request, message })
}

#[tactic(auto, unfolding(crate::specs::Steps::two_at))]
fn read_await(words: &[&str]) -> Result<Instruction, ScriptFault>
    ensures { result ≡ of_two instruction.Await (map (λ w. w.now) words.now) }
{
    let (message, call) = read_two(words)?;
    Ok(Instruction::Await { message, call })
}

#[tactic(auto, unfolding(crate::specs::Steps::two_at))]
fn read_next(words: &[&str]) -> Result<Instruction, ScriptFault>
    ensures { result ≡ of_two instruction.Next (map (λ w. w.now) words.now) }
{
    let (source, message) = read_two(words)?;
    Ok(Instruction::Next { source, message })
}

#[tactic(auto, unfolding(crate::specs::Steps::two_at))]
fn read_reply(words: &[&str]) -> Result<Instruction, ScriptFault>
    ensures { result ≡ of_two instruction.Reply (map (λ w. w.now) words.now) }
{
    let (request, text) = read_two(words)?;
    Ok(Instruction::Reply { request, text })
}

#[tactic(auto, unfolding(crate::specs::Steps::two_at))]
fn read_draw(words: &[&str]) -> Result<Instruction, ScriptFault>
    ensures { result ≡ of_two instruction.Draw (map (λ w. w.now) words.now) }
{
    let (target, modulus) = read_two(words)?;
    Ok(Instruction::Draw { target, modulus })
}

#[tactic(auto, unfolding(crate::specs::Steps::one_at))]
fn read_clock(words: &[&str]) -> Result<Instruction, ScriptFault>
    ensures { result ≡ of_one instruction.Clock (map (λ w. w.now) words.now) }
{
    let target = read_one(words)?;
    Ok(Instruction::Clock { target })
}

/// The instruction of an operation with these words after it, in a script of so many lines.
#[tactic(auto, unfolding(crate::specs::Steps::instruction_at))]
pub(crate) fn read_instruction(
    alloc: Global,
    lines: u32,
    operation: Operation,
    words: &[&str],
) -> Result<Instruction, LineError>
    requires { All (λ w. is_word w.now ≡ true) words.now }
    ensures { Gives (λ i. i) result (instruction_at lines operation (map (λ w. w.now) words.now)) }
{
    match operation {
        Operation::Set => Ok(read_set(words)?),
        Operation::Add => Ok(read_add(words)?),
        Operation::Sub => Ok(read_sub(words)?),
        Operation::Less => Ok(read_less(words)?),
        Operation::Same => Ok(read_same(words)?),
        Operation::Jump => Ok(read_jump(words, lines)?),
        Operation::Join => Ok(read_join(words)?),
        Operation::Field => read_field(alloc, words),
        Operation::Receive => Ok(read_receive(words)?),
        Operation::Call => Ok(read_call(words)?),
        Operation::Await => Ok(read_await(words)?),
        Operation::AwaitAny => read_await_any(alloc, words),
        Operation::Next => Ok(read_next(words)?),
        Operation::Reply => Ok(read_reply(words)?),
        Operation::Clock => Ok(read_clock(words)?),
        Operation::Seed => Ok(read_none(words, Instruction::Seed)?),
        Operation::Draw => Ok(read_draw(words)?),
        Operation::Stop => Ok(read_none(words, Instruction::Stop)?),
    }
}
