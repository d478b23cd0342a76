//! Scripts of services, as text: one instruction a line.
//!
//! - `scripts` reads and prints a `Script`. Reading is exact: the script of the text, or the first line that isn't in
//!   the grammar and what is wrong with it.
//! - `instructions` are the lines of a script, one variant an instruction. `operands` are the small types of what they
//!   work on, which keep their facts: a register below 32, a group below 16, a text that a literal can have.
//! - `operations` are the words that instructions begin with, and `faults` what can be wrong with a text.
//! - `lines` cuts a text into its lines.
//! - `laws` states what reading and printing have to do with each other.
//!
//! The one contract that the layers above rely on: a `Script` has 1 to 1,000 lawful instructions, and the text that it
//! prints is the one text that is read as this script.
#![tactic(auto)]

pub mod faults;
pub mod instructions;
pub mod laws;
pub mod lines;
mod numbers;
pub mod operands;
pub mod operations;
mod printing;
mod quotes;
mod reading;
pub mod scripts;
