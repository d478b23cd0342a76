//! The lines of a text, and the instruction of a line.

ghost use Rattle.std.specs.Prelude.{◌≡◌, ◌==◌, ◌∷◌, [], ◌≤◌, length, map, MatchOption, IfOk, IfSome, SomeIff, All, true, codes, slice_index};
ghost use Rattle.std.specs.Str.{bytes_eq};
ghost use Rattle.pws_script.specs.Texts.{is_word, is_line};
ghost use Rattle.std.specs.Option.{option_map};
ghost use Rattle.std.specs.List.{join_with_byte, position};
ghost use Rattle.pws_script.specs.Reading.{words_of, text_set_in};
ghost use Rattle.pws_script.specs.Steps.{Gives, text_set_at, words_at, words_or_text_at, line_at};
ghost use Rattle.pws_script.specs.Lines.{lines_of};

use crate::faults::{LineError, ScriptFault};
use crate::instructions::{Instruction, Literal};
use crate::numbers::read_register;
use crate::operations::Operation;
use crate::quotes::read_text;
use crate::reading::read_instruction;
use std::alloc::{AllocError, Global};
use std::marker::Model;

/// A line without its line feed, and whether it has one.
#[derive(Clone, Copy, Debug)]
pub struct TextLine<'a> {
    pub bytes: &'a [u8],
    pub ended: bool,
}

/// The place of the first line feed.
fn line_feed(text: &[u8]) -> Option<usize>
    ensures { result ≡ position (λ b. b == 10) text.now }
{
    text.iter().position(|b| *b == b'\n')
}

/// The lines of a text that remain.
#[derive(Drop)]
pub struct Lines<'a> {
    rest: &'a [u8],
}

impl<'a> Model for Lines<'a> {
    ghost use Rattle.std.specs.Prelude.{List};
    ghost use Rattle.pws_script.specs.Lines.{TextLine};

    ghost Value = { List TextLine };

    ghost use Rattle.pws_script.specs.Lines.{lines_of};

    ghost view = { λ l. lines_of l.rest.now };
}

impl<'a> Lines<'a> {
    /// The lines of this text.
    pub fn new(text: &'a [u8]) -> Lines<'a>
        ensures { result ≡ lines_of text.now }
    {
        Lines { rest: text }
    }

    /// The next line.
    pub fn next(&mut self) -> Option<TextLine<'a>>
        ensures next { MatchOption result (self.old ≡ []) (λ l. self.old ≡ record { bytes = l.bytes.now; ended = l.ended } ∷ self.new) }
        ensures line { IfSome result (λ l. is_line l.bytes.now ≡ true) }
    {
        if self.rest.is_empty() {
            return None;
        }
        match line_feed(self.rest) {
            Some(at) => {
                let bytes = &self.rest[..at];
                self.rest = &self.rest[at + 1..];
                Some(TextLine { bytes, ended: true })
            }
            None => {
                let bytes = self.rest;
                self.rest = &[];
                Some(TextLine {
                    bytes,
                    ended: false,
                })
            }
        }
    }
}

/// How many lines a text has, or None exactly where there are more than 1,000.
pub(crate) fn count_lines(text: &[u8]) -> Option<u32>
    ensures { SomeIff result (length (lines_of text.now) ≤ 1000) (length (lines_of text.now)) }
{
    let mut lines = Lines::new(text);
    for count in 0..1001u32 {
        if lines.next().is_none() {
            return Some(count);
        }
    }
    None
}

fn split_words(alloc: Global, line: &str) -> Result<Vec<&str>, AllocError>
    ensures { IfOk result (λ v. map (λ w. w.now) v.items ≡ words_of line.now) }
{
    line.split(' ').collect(alloc)
}

fn is_set(word: &str) -> bool
    ensures { result ≡ bytes_eq word.now (codes "set") }
{
    word.as_bytes() == b"set".as_slice()
}

fn is_quoted(word: &str) -> bool
    ensures { result ≡ (slice_index word.now 0 == 34) }
{
    word.starts_with('"')
}

/// The second word, and the rest of the line after the second space, where the first word is `set` and a double
/// quote follows that space.
fn text_set<'a>(line: &'a [u8], words: &[&'a str]) -> Option<(&'a str, &'a [u8])>
    requires { map (λ w. w.now) words.now ≡ words_of line.now }
    ensures { option_map (λ p. (p.0.now, p.1.now)) result ≡ text_set_in (words_of line.now) }
{
    match words {
        [name, word, value, ..] if is_set(name) && is_quoted(value) => {
            let (_, quoted) = line.split_at(name.len() + word.len() + 2);
            Some((*word, quoted))
        }
        _ => None,
    }
}

#[tactic(auto, unfolding(crate::specs::Steps::text_set_at))]
fn read_text_set(
    alloc: Global,
    ended: bool,
    word: &str,
    quoted: &[u8],
) -> Result<Instruction, LineError>
    requires { 1 ≤ length quoted.now }
    ensures { Gives (λ i. i) result (text_set_at ended word.now quoted.now) }
{
    let text = read_text(alloc, quoted)?;
    if !ended {
        return Err(LineError::Fault(ScriptFault::Word));
    }
    let target = read_register(word).ok_or(ScriptFault::Register)?;
    Ok(Instruction::Set {
        target,
        literal: Literal::Text(text),
    })
}

#[tactic(auto, unfolding(crate::specs::Steps::words_at))]
fn read_words(
    alloc: Global,
    lines: u32,
    ended: bool,
    words: &[&str],
) -> Result<Instruction, LineError>
    requires { All (λ w. is_word w.now ≡ true) words.now }
    ensures { Gives (λ i. i) result (words_at lines ended (map (λ w. w.now) words.now)) }
{
    let [name, operands @ ..] = words else {
        return Err(LineError::Fault(ScriptFault::Word));
    };
    if !ended {
        return Err(LineError::Fault(ScriptFault::Word));
    }
    let operation = Operation::named(name.as_bytes()).ok_or(ScriptFault::Word)?;
    read_instruction(alloc, lines, operation, operands)
}

fn read_utf8(alloc: Global, lines: u32, ended: bool, line: &str) -> Result<Instruction, LineError>
    requires { is_line line.now ≡ true }
    ensures { Gives (λ i. i) result (words_or_text_at lines ended (words_of line.now) (text_set_in (words_of line.now))) }
{
    let words = split_words(alloc, line)?;
    match text_set(line.as_bytes(), &words) {
        Some((word, quoted)) => read_text_set(alloc, ended, word, quoted),
        None => read_words(alloc, lines, ended, &words),
    }
}

/// The instruction of a line, which ends by a line feed or not, in a script of so many lines.
pub(crate) fn read_line(
    alloc: Global,
    lines: u32,
    ended: bool,
    bytes: &[u8],
) -> Result<Instruction, LineError>
    requires { is_line bytes.now ≡ true }
    ensures { Gives (λ i. i) result (line_at lines ended bytes.now) }
{
    match str::from_utf8(bytes) {
        Ok(line) => read_utf8(alloc, lines, ended, line),
        Err(_) => Err(LineError::Fault(ScriptFault::Text)),
    }
}
