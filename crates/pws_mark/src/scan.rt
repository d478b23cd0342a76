//! A reader that takes one character after another.

ghost use Rattle.std.specs.Prelude.{◌≡◌, ◌+◌, ◌≤◌, length, encode_utf8, None, IfOk};
ghost use Rattle.pws_mark.specs.Noted.{finds};
ghost use Rattle.pws_mark.specs.Scan.{next, start, is_whole};
ghost use Rattle.pws_mark.specs.Scanning.{Goes, Notes, Steps};
ghost use Rattle.pws_mark.specs.Stopping.{StandsAt};

use crate::counts::Place;
use crate::errors::MarkError;
use crate::least::Least;
use crate::modes::{Event, Mode};
use crate::outer::Outer;
use crate::steps::{
    bang_step, begun_step, comment_step, content_step, dash_step, declaration_step,
    head_begun_step, section_step, section_word_step, start_step, text_reference_step,
};
use crate::stopping::Stand;
use crate::tag_steps::{
    after_equals_step, attribute_name_step, before_equals_step, end_gap_step, end_name_step,
    in_tag_step, slash_step, tag_name_step, value_reference_step, value_step,
};
use pws_base::lists::Sequence;
use pws_base::memory::Memory;
use std::alloc::Global;
use std::marker::Model;
use std::mem;

/// What a character does where the reader is here, in this mode.
#[tactic(auto, unfolding(crate::specs::Scan::next, crate::specs::Noted::finds), using(crate::proofs::Stepped::quiet))]
fn next(
    alloc: Global,
    outer: &mut Outer,
    least: &mut Least,
    at: Place,
    mode: Mode,
    c: char,
) -> Result<Option<Mode>, Memory>
    ensures goes { IfOk result (λ m. Goes (next mode outer.old at c) m outer.new) }
    ensures notes { IfOk result (λ m. Notes m least.old (finds mode outer.old c) least.new) }
{
    match mode {
        Mode::Start(marked) => Ok(start_step(at, marked, c)),
        Mode::HeadOpened(place) => head_begun_step(alloc, outer, least, place, c),
        Mode::Declaring(declaring) => Ok(declaration_step(declaring, c)),
        Mode::Content(brackets, cr) => content_step(outer, at, brackets, cr, c),
        Mode::TextReference(place, reference) => {
            text_reference_step(alloc, outer, least, place, reference, c)
        }
        Mode::Opened(place) => begun_step(alloc, outer, least, place, c),
        Mode::Bang => Ok(bang_step(outer.region(), c)),
        Mode::Dash => Ok(dash_step(c)),
        Mode::Comment(dashes) => Ok(comment_step(dashes, c)),
        Mode::SectionWord(place) => Ok(section_word_step(place, c)),
        Mode::Section(brackets, cr) => section_step(outer, at, brackets, cr, c),
        Mode::TagName(tag, starts) => tag_name_step(alloc, outer, least, tag, starts, c),
        Mode::InTag(tag, spaced) => in_tag_step(alloc, outer, least, at, tag, spaced, c),
        Mode::Slash(tag) => slash_step(alloc, outer, least, tag, c),
        Mode::AttributeName(tag, name, starts) => attribute_name_step(tag, name, starts, c),
        Mode::BeforeEquals(tag, name) => Ok(before_equals_step(tag, name, c)),
        Mode::AfterEquals(tag, name) => Ok(after_equals_step(alloc, tag, name, c)),
        Mode::Value(tag, name, value) => value_step(at, tag, name, value, c),
        Mode::ValueReference(tag, name, value, place, reference) => {
            value_reference_step(alloc, least, tag, name, value, place, reference, c)
        }
        Mode::EndName(count) => end_name_step(alloc, outer, least, count, c),
        Mode::EndGap => end_gap_step(alloc, outer, least, c),
    }
}

/// Where the reader is, what it read, and the least of what was refused so far.
#[derive(Drop)]
pub struct Scan {
    alloc: Global,
    /// How many bytes were taken.
    at: Place,
    /// Where in a tag, a reference, a comment or the like the reader is.
    mode: Mode,
    /// What was read outside of that.
    outer: Outer,
    /// The least place that is refused so far, with its kind.
    least: Least,
}

impl Model for Scan {
    ghost use Rattle.pws_mark.specs.Scanning.{Scanned};

    ghost Value = { Scanned };

    ghost view = { λ s. record { state = record { at = s.at; mode = s.mode; outer = s.outer }; least = s.least } };
}

impl Scan {
    /// Nothing was read.
    ///
    /// # Errors
    ///
    /// `Memory` only.
    pub fn new(alloc: Global) -> Result<Scan, Memory>
        ensures { IfOk result (λ s. s ≡ record { state = start; least = None }) }
    {
        Ok(Scan {
            alloc,
            at: Place::new(0),
            mode: Mode::Start(true),
            outer: Outer::new(alloc)?,
            least: Least::new(),
        })
    }

    /// Takes a character, where it fits; whether it was taken.
    ///
    /// # Errors
    ///
    /// `Memory` only.
    pub fn step(&mut self, c: char) -> Result<bool, Memory>
        requires { self.old.state.at + length (encode_utf8 c) ≤ 32768 }
        ensures { IfOk result (λ taken. Steps self.old c taken self.new) }
    {
        let mode = mem::replace(&mut self.mode, Mode::Bang);
        let next = next(
            self.alloc,
            &mut self.outer,
            &mut self.least,
            self.at,
            mode,
            c,
        )?;
        match next {
            Some(mode) => {
                self.mode = mode;
                self.at = self.at.behind(c);
                Ok(true)
            }
            None => Ok(false),
        }
    }

    /// What a stop needs of where the reader is.
    pub fn stand(&self) -> Stand
        ensures { StandsAt result self.now.state }
    {
        Stand::of(&self.mode, &self.outer)
    }

    /// How many bytes were read.
    pub fn at(&self) -> usize
        ensures value { result ≡ self.now.state.at }
        ensures within { result ≤ 32768 }
    {
        self.at.get()
    }

    /// The least of what was refused so far.
    pub fn error(&self) -> Option<MarkError>
        ensures { result ≡ self.now.least }
    {
        self.least.error()
    }

    /// Where what was refused so far goes on being noted.
    pub fn into_least(self) -> Least
        ensures { result ≡ self.least }
    {
        let Scan { least, .. } = self;
        least
    }

    /// Whether a text may end here.
    pub fn is_whole(&self) -> bool
        ensures { result ≡ is_whole self.now.state }
    {
        match self.mode {
            Mode::Content(_, _) => self.outer.is_closed(),
            _ => false,
        }
    }

    /// What was read.
    pub fn into_events(self) -> Sequence<Event>
        ensures { result ≡ self.state.outer.events }
    {
        let Scan { outer, .. } = self;
        outer.into_events()
    }
}
