//! Scenario files: their form, line by line.

use std::alloc::{AllocError, AllocFailed, Global};
use thiserror::Error;

/// The cases of a file, all of one layer.
#[derive(Drop)]
pub struct Scenarios<'t> {
    /// The name of the layer.
    pub layer: &'t str,
    /// The steps that each case begins with.
    pub setup: Vec<Step<'t>>,
    /// The cases, in the order of the file.
    pub cases: Vec<Case<'t>>,
}

/// A case: steps, from a layer made anew.
#[derive(Drop)]
pub struct Case<'t> {
    /// What the case shows.
    pub name: &'t str,
    /// The line of its name.
    pub line: usize,
    /// The steps, in their order.
    pub steps: Vec<Step<'t>>,
}

/// A step of a case and what it must answer.
#[derive(Drop)]
pub struct Step<'t> {
    /// The line of its words.
    pub line: usize,
    /// The words, of which none is empty.
    pub words: Vec<&'t str>,
    /// The lines of text that are given with the words.
    pub text: Vec<&'t str>,
    /// The answers expected.
    pub answers: Vec<Answer<'t>>,
}

/// An answer that is expected.
#[derive(Clone, Copy)]
pub struct Answer<'t> {
    /// Its line in the file.
    pub line: usize,
    /// What is to be answered.
    pub text: &'t str,
}

/// Why a text is no scenario file.
#[derive(Clone, Copy, Debug, PartialEq, Eq, Error)]
pub enum Reason {
    /// A line between two cases that begins none.
    #[error("expected `case NAME`, `setup` before the first case, or `layer NAME` before all else")]
    NoName,
    /// Two words aren't parted by one space.
    #[error("words have to be parted by single spaces")]
    EmptyWord,
    /// An answer or a text before all steps.
    #[error("no step before it")]
    NoStep,
    /// Text after an answer of the same step.
    #[error("text has to come before the answers")]
    LateText,
    /// A case that expects nothing.
    #[error("the case expects no answer")]
    NoAnswer,
    /// A case begins or the file ends, and the case before isn't ended.
    #[error("the case before it is not ended")]
    NoEnd,
    /// The file has no case.
    #[error("no case")]
    NoCase,
    /// There was no memory.
    #[error("out of memory")]
    Memory,
}

impl From<AllocError> for Reason {
    fn from(_error: AllocError) -> Reason {
        Reason::Memory
    }
}

impl<T: Drop> From<AllocFailed<T>> for Reason {
    fn from(_error: AllocFailed<T>) -> Reason {
        Reason::Memory
    }
}

/// What is wrong with a file, and the line where.
#[derive(Clone, Copy, Debug, PartialEq, Eq, Error)]
#[error("line {line}: {reason}")]
pub struct ReadError {
    /// The line; the last one where something is missing at the end.
    pub line: usize,
    /// What is wrong.
    pub reason: Reason,
}

/// What stands behind a mark and a space, or nothing where the mark stands alone.
fn after_mark<'t>(line: &'t str, mark: char) -> Option<&'t str> {
    let rest = line.strip_prefix(mark)?;
    if rest.is_empty() {
        Some(rest)
    } else {
        rest.strip_prefix(' ')
    }
}

/// The words of a line.
fn words_of<'t>(alloc: Global, line: &'t str) -> Result<Vec<&'t str>, Reason> {
    let mut words = Vec::new(alloc);
    for word in line.split(' ') {
        if word.is_empty() {
            return Err(Reason::EmptyWord);
        }
        words.push(word)?;
    }
    Ok(words)
}

impl<'t> Case<'t> {
    fn take_answer(&mut self, line: usize, text: &'t str) -> Result<(), Reason> {
        match self.steps.last_mut() {
            Some(step) => Ok(step.answers.push(Answer { line, text })?),
            None => Err(Reason::NoStep),
        }
    }

    fn take_text(&mut self, text: &'t str) -> Result<(), Reason> {
        match self.steps.last_mut() {
            Some(step) if step.answers.is_empty() => Ok(step.text.push(text)?),
            Some(_) => Err(Reason::LateText),
            None => Err(Reason::NoStep),
        }
    }

    fn take_step(&mut self, alloc: Global, line: usize, content: &'t str) -> Result<(), Reason> {
        if content.starts_with("case ") {
            return Err(Reason::NoEnd);
        }
        let words = words_of(alloc, content)?;
        let (text, answers) = (Vec::new(alloc), Vec::new(alloc));
        Ok(
            self.steps.push(Step {
                line,
                words,
                text,
                answers,
            })?,
        )
    }

    /// Takes a line of the case that isn't its end.
    fn take_line(&mut self, alloc: Global, line: usize, content: &'t str) -> Result<(), Reason> {
        if let Some(answer) = after_mark(content, '=') {
            self.take_answer(line, answer)
        } else if let Some(text) = after_mark(content, '|') {
            self.take_text(text)
        } else {
            self.take_step(alloc, line, content)
        }
    }

    /// Whether the case expects an answer at all.
    fn expects(&self) -> bool {
        self.steps.iter().any(|step| !step.answers.is_empty())
    }
}

/// What was read so far. The setup is read as a case with an empty name.
#[derive(Drop)]
struct Reader<'t> {
    layer: Option<&'t str>,
    setup: Option<Case<'t>>,
    cases: Vec<Case<'t>>,
    open: Option<Case<'t>>,
}

impl<'t> Reader<'t> {
    /// Takes a line between two cases.
    fn take_name(&mut self, alloc: Global, line: usize, content: &'t str) -> Result<(), Reason> {
        let steps = Vec::new(alloc);
        match (content.split_once(' '), self.layer) {
            (Some(("layer", name)), None) if !name.is_empty() => self.layer = Some(name),
            (Some(("case", name)), Some(_)) if !name.is_empty() => {
                self.open = Some(Case { name, line, steps });
            }
            (None, Some(_))
                if content == "setup" && self.setup.is_none() && self.cases.is_empty() => {
                let name = "";
                self.open = Some(Case { name, line, steps });
            }
            _ => return Err(Reason::NoName),
        }
        Ok(())
    }

    /// Takes the end of a case or of the setup.
    fn end(&mut self, case: Case<'t>) -> Result<(), Reason> {
        if case.name.is_empty() {
            self.setup = Some(case);
            return Ok(());
        }
        if !case.expects() {
            return Err(Reason::NoAnswer);
        }
        Ok(self.cases.push(case)?)
    }

    /// Takes a line that is neither empty nor a comment.
    fn take_line(&mut self, alloc: Global, line: usize, content: &'t str) -> Result<(), Reason> {
        match self.open.take() {
            None => self.take_name(alloc, line, content),
            Some(case) if content == "end" => self.end(case),
            Some(mut case) => {
                case.take_line(alloc, line, content)?;
                self.open = Some(case);
                Ok(())
            }
        }
    }

    /// The cases, at the end of the file.
    fn finish(self, alloc: Global) -> Result<Scenarios<'t>, Reason> {
        let Reader {
            layer,
            setup,
            cases,
            open,
        } = self;
        if open.is_some() {
            return Err(Reason::NoEnd);
        }
        let setup = setup.map_or(Vec::new(alloc), |case| case.steps);
        match layer {
            Some(layer) if !cases.is_empty() => Ok(Scenarios {
                layer,
                setup,
                cases,
            }),
            _ => Err(Reason::NoCase),
        }
    }
}

/// The cases of a file. Empty lines and lines that begin with `#` are passed over.
///
/// # Errors
///
/// The first line that breaks the form, with the reason, or `Memory`. A file with no case is none, nor is one with a
/// case that expects nothing.
pub fn read_scenarios<'t>(alloc: Global, text: &'t str) -> Result<Scenarios<'t>, ReadError> {
    let mut reader = Reader {
        layer: None,
        setup: None,
        cases: Vec::new(alloc),
        open: None,
    };
    let mut line = 0usize;
    for content in text.split('\n') {
        line = line.saturating_add(1);
        if !content.is_empty() && !content.starts_with('#') {
            reader
                .take_line(alloc, line, content)
                .map_err(|reason| ReadError { line, reason })?;
        }
    }
    reader
        .finish(alloc)
        .map_err(|reason| ReadError { line, reason })
}
