//! The next instruction of a script.

ghost use Rattle.std.specs.Prelude.{◌≡◌, List, IfOk, OnOk, Option};
ghost use Rattle.std.specs.Option.{unwrap_or};
ghost use Rattle.pws_driver.specs.declared.cores.Core.{Core};
ghost use Rattle.pws_driver.specs.Services.{service_of};
ghost use Rattle.pws_driver.specs.Moves.{Moved, halted};
ghost use Rattle.pws_driver.specs.Instructions.{perform, begin};
ghost use Rattle.pws_driver.specs.Did.{Did, DidMove, computed};

use crate::cores::{Core, Mode};
use crate::envelopes::Envelopes;
use crate::instructions::Done;
use crate::programs::Program;
use pws_base::memory::Memory;
use pws_script::instructions::Instruction;
use pws_service::acts::Act;
use std::alloc::Global;

impl Core {
    /// Does an instruction that computes a value.
    fn compute<E: Envelopes>(
        &mut self,
        alloc: Global,
        program: &Program,
        instruction: &Instruction,
    ) -> Result<Done, Memory>
        ensures { IfOk result (λ d. Did d self.old self.new (computed (service_of E.words program.now) self.old instruction.now)) }
    {
        match instruction {
            Instruction::Add {
                target,
                left,
                right,
            } => Ok(self.add(*target, *left, *right)),
            Instruction::Sub {
                target,
                left,
                right,
            } => Ok(self.sub(*target, *left, *right)),
            Instruction::Less {
                target,
                left,
                right,
            } => Ok(self.less(*target, *left, *right)),
            Instruction::Same {
                target,
                left,
                right,
            } => self.same::<E>(alloc, program, *target, *left, *right),
            Instruction::Join {
                target,
                left,
                right,
            } => self.join(alloc, *target, *left, *right),
            Instruction::Field {
                target,
                message,
                name,
            } => self.field::<E>(alloc, program, *target, *message, name),
            _ => Ok(Done::Fault),
        }
    }

    /// Does an instruction.
    fn perform<E: Envelopes>(
        &mut self,
        alloc: Global,
        program: &Program,
        instruction: &Instruction,
    ) -> Result<Done, Memory>
        ensures { IfOk result (λ d. Did d self.old self.new (perform (service_of E.words program.now) self.old instruction.now)) }
    {
        match instruction {
            Instruction::Set { target, literal } => self.set(alloc, *target, literal),
            Instruction::Jump { line, test } => Ok(self.jump(*line, *test)),
            Instruction::Receive { request, message } => {
                Ok(self.receive(alloc, *request, *message))
            }
            Instruction::Call {
                target,
                group,
                text,
                timeout,
            } => self.call::<E>(alloc, program, *target, *group, *text, *timeout),
            Instruction::Await { message, call } => self.await_one(alloc, *message, *call),
            Instruction::AwaitAny {
                call,
                message,
                calls,
            } => self.await_any(alloc, *call, *message, calls),
            Instruction::Next { source, message } => Ok(self.next(*source, *message)),
            Instruction::Reply { request, text } => {
                self.reply::<E>(alloc, program, *request, *text)
            }
            Instruction::Clock { target } => Ok(self.ask_clock(*target)),
            Instruction::Seed => Ok(self.ask_seed()),
            Instruction::Draw { target, modulus } => Ok(self.draw(*target, *modulus)),
            Instruction::Stop => Ok(Done::Fault),
            Instruction::Add { .. }
            | Instruction::Sub { .. }
            | Instruction::Less { .. }
            | Instruction::Same { .. }
            | Instruction::Join { .. }
            | Instruction::Field { .. } => self.compute::<E>(alloc, program, instruction),
        }
    }

    fn halt(&mut self, acts: &mut Vec<Act>) -> Result<(), Memory>
        ensures { OnOk result (DidMove (halted self.old) self.new acts.old.items acts.new.items) }
    {
        self.mode = Mode::Halted;
        acts.push(Act::Halted)?;
        Ok(())
    }

    fn close(&mut self, done: Done, acts: &mut Vec<Act>) -> Result<(), Memory>
        ensures { (wanted : Option Moved) (old : Core) → Did done old self.old wanted → OnOk result (DidMove (unwrap_or wanted (halted old)) self.new acts.old.items acts.new.items) }
    {
        match done {
            Done::Fault => self.halt(acts),
            Done::Quiet => Ok(()),
            Done::Acted(act) => {
                acts.push(act)?;
                Ok(())
            }
        }
    }

    /// Does the next instruction, whose acts go to the end of the list.
    ///
    /// # Errors
    ///
    /// `Memory` only.
    #[tactic(auto, unfolding(crate::specs::Instructions::begin))]
    pub(crate) fn begin<E: Envelopes>(
        &mut self,
        alloc: Global,
        program: &Program,
        acts: &mut Vec<Act>,
    ) -> Result<(), Memory>
        ensures { OnOk result (DidMove (begin (service_of E.words program.now) self.old) self.new acts.old.items acts.new.items) }
    {
        if self.left == 0 {
            return self.halt(acts);
        }
        let lines = program.script.instructions();
        if self.line >= lines.len() {
            return self.halt(acts);
        }
        let instruction = &lines[self.line];
        self.left -= 1;
        self.line += 1;
        let done = self.perform::<E>(alloc, program, instruction)?;
        self.close(done, acts)
    }
}
