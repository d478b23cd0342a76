//! Where the reader stops at a character: what is refused there, and how many of its bytes begin one that is taken.

ghost use Rattle.std.specs.Prelude.{◌≡◌, ℕ, ◌≤◌, ◌&&◌, List, None, codes};
ghost use Rattle.pws_mark.specs.Least.{lowered};
ghost use Rattle.pws_mark.specs.Noted.{if_found};
ghost use Rattle.pws_mark.specs.Outcome.{is_bang, question_before, question_finds, stop_finds};
ghost use Rattle.pws_mark.specs.Places.{is_at};
ghost use Rattle.pws_mark.specs.ReaderLaws.{Shares, is_early_in};
ghost use Rattle.pws_mark.specs.Scan.{is_within, run, start, step};
ghost use Rattle.pws_mark.specs.States.{State};
ghost use Rattle.pws_mark.specs.declared.errors.MarkKind.TheVariants as kind;
ghost use Rattle.pws_mark.specs.Stopping.{beyond_name, beyond_reference, beyond_content, beyond_opened, beyond_comment, beyond_one, beyond_ascii, name_char_at, stand_of, StandsAt, has_between, has_alike, shared_of_two, shared_of_three, shared_of_four, shared_by};

use crate::counts::Marks;
use crate::errors::MarkKind;
use crate::least::Least;
use crate::modes::{Declaring, Mode, Reference, Region};
use crate::outer::Outer;
use pws_tree::characters::{has_name_char, has_name_start, has_xml_char};

/// Which characters beyond ASCII may come.
#[derive(Clone, Copy, PartialEq, Eq)]
pub enum BeyondAscii {
    Nothing,
    /// This one, if it is beyond ASCII.
    One(char),
    /// Those that a name may begin with.
    NameStarts,
    /// Those that a name may go on with.
    NameChars,
    /// All that XML has.
    XmlChars,
}

/// What a stop needs of where the reader is.
#[derive(Clone, Copy)]
pub struct Stand {
    /// Whether a document type is told apart here.
    early: bool,
    /// Whether `<!` was read.
    bang: bool,
    /// Whether this is inside of a comment or a CDATA section.
    within: bool,
    /// How many bytes before stands the `<` of what may be a processing instruction.
    question: Option<usize>,
    /// Which characters beyond ASCII may come.
    beyond: BeyondAscii,
}

/// Whether a document type is told apart in this mode, before the element.
fn is_early_in(mode: &Mode) -> bool
    ensures { result ≡ is_early_in mode.now }
{
    matches!(
        mode,
        Mode::Start(_)
            | Mode::HeadOpened(_)
            | Mode::Content(_, _)
            | Mode::Opened(_)
            | Mode::Bang
            | Mode::Dash
    )
}

/// Whether `<!` was read.
fn is_bang(mode: &Mode) -> bool
    ensures { result ≡ is_bang mode.now }
{
    matches!(mode, Mode::Bang)
}

/// Whether the place is inside of a comment or a CDATA section.
fn is_within(mode: &Mode) -> bool
    ensures { result ≡ is_within mode.now }
{
    matches!(mode, Mode::Comment(_) | Mode::Section(_, _))
}

/// How many bytes before stands the `<` of what may be a processing instruction.
fn question_before(mode: &Mode) -> Option<usize>
    ensures { result ≡ question_before mode.now }
{
    match mode {
        Mode::Opened(_) => Some(1),
        Mode::Declaring(Declaring::Word(count)) => Some(usize::from(*count) + 2),
        _ => None,
    }
}

/// The characters of a name, where the next one has to begin a part or not.
fn beyond_name(starts: bool) -> BeyondAscii
    ensures { result ≡ beyond_name starts }
{
    if starts {
        BeyondAscii::NameStarts
    } else {
        BeyondAscii::NameChars
    }
}

/// The characters that go on with a reference.
fn beyond_reference(reference: &Reference) -> BeyondAscii
    ensures { result ≡ beyond_reference reference.now }
{
    match reference {
        Reference::Begun => BeyondAscii::NameStarts,
        Reference::Entity(_, starts) => beyond_name(*starts),
        _ => BeyondAscii::Nothing,
    }
}

/// The characters of content.
fn beyond_content(region: Region) -> BeyondAscii
    ensures { result ≡ beyond_content region }
{
    match region {
        Region::Inside => BeyondAscii::XmlChars,
        _ => BeyondAscii::Nothing,
    }
}

/// The characters behind a `<`.
fn beyond_opened(region: Region) -> BeyondAscii
    ensures { result ≡ beyond_opened region }
{
    match region {
        Region::Behind => BeyondAscii::Nothing,
        _ => BeyondAscii::NameStarts,
    }
}

/// The characters of a comment, behind so many hyphens.
fn beyond_comment(hyphens: Marks) -> BeyondAscii
    ensures { result ≡ beyond_comment hyphens }
{
    if hyphens.get() == 2 {
        return BeyondAscii::Nothing;
    }
    BeyondAscii::XmlChars
}

/// This character, or none.
fn beyond_one(c: Option<char>) -> BeyondAscii
    ensures { result ≡ beyond_one c }
{
    match c {
        Some(c) => BeyondAscii::One(c),
        None => BeyondAscii::Nothing,
    }
}

/// The characters beyond ASCII that the reader takes.
fn beyond_ascii(mode: &Mode, outer: &Outer) -> BeyondAscii
    ensures { result ≡ beyond_ascii mode.now outer.now }
{
    match mode {
        Mode::Start(true) => BeyondAscii::One('\u{FEFF}'),
        Mode::HeadOpened(_) | Mode::InTag(_, true) => BeyondAscii::NameStarts,
        Mode::Content(_, _) => beyond_content(outer.region()),
        Mode::TextReference(_, reference) => beyond_reference(reference),
        Mode::Opened(_) => beyond_opened(outer.region()),
        Mode::Comment(marks) => beyond_comment(*marks),
        Mode::Section(_, _) | Mode::Value(_, _, _) => BeyondAscii::XmlChars,
        Mode::TagName(_, starts) | Mode::AttributeName(_, _, starts) => beyond_name(*starts),
        Mode::ValueReference(_, _, _, _, reference) => beyond_reference(reference),
        Mode::EndName(count) => beyond_one(outer.name_char_at(*count)),
        _ => BeyondAscii::Nothing,
    }
}

impl Stand {
    /// Where the reader is.
    pub fn of(mode: &Mode, outer: &Outer) -> Stand
        ensures { result ≡ stand_of mode.now outer.now }
    {
        Stand {
            early: is_early_in(mode) && outer.region() == Region::Before,
            bang: is_bang(mode),
            within: is_within(mode),
            question: question_before(mode),
            beyond: beyond_ascii(mode, outer),
        }
    }

    /// Whether `<!` was read where a document type is told apart.
    fn is_early_bang(self) -> bool
        ensures { result ≡ (self.early && self.bang) }
    {
        self.early && self.bang
    }
}

/// Whether these bytes stand at this place.
fn is_at(bytes: &[u8], at: usize, piece: &[u8]) -> bool
    ensures { result ≡ is_at bytes.now at piece.now }
{
    match bytes.get(at..) {
        Some(rest) => rest.starts_with(piece),
        None => piece.is_empty(),
    }
}

/// A processing instruction whose `<` stands so many bytes before.
#[tactic(auto, unfolding(crate::specs::Least::lowered))]
fn note_question(least: &mut Least, bytes: &[u8], at: usize, before: Option<usize>)
    ensures { least.new ≡ lowered least.old (question_finds bytes.now at before) }
{
    if let Some(before) = before {
        let place = at.saturating_sub(before);
        least.note_if(is_at(bytes, place, b"<?"), MarkKind::Instruction, place);
    }
}

/// A document type at this place, where one is told apart.
fn note_doctype(least: &mut Least, told: bool, bytes: &[u8], place: usize)
    ensures { least.new ≡ lowered least.old (if_found (told && is_at bytes.now place (codes "<!DOCTYPE")) kind.Doctype place) }
{
    let wrong = told && is_at(bytes, place, b"<!DOCTYPE");
    least.note_if(wrong, MarkKind::Doctype, place);
}

/// A processing instruction at this place, where one is told apart.
fn note_instruction(least: &mut Least, told: bool, bytes: &[u8], place: usize)
    ensures { least.new ≡ lowered least.old (if_found (told && is_at bytes.now place (codes "<?")) kind.Instruction place) }
{
    let wrong = told && is_at(bytes, place, b"<?");
    least.note_if(wrong, MarkKind::Instruction, place);
}

/// A document type or a processing instruction where the reader stops, at this place.
pub fn note_stop(least: &mut Least, stand: Stand, bytes: &[u8], at: usize)
    ensures { (s : State) → StandsAt stand s → s.at ≡ at → least.new ≡ lowered least.old (stop_finds s bytes.now) }
{
    note_doctype(least, stand.early, bytes, at);
    note_doctype(least, stand.is_early_bang(), bytes, at.saturating_sub(2));
    note_instruction(least, !stand.within, bytes, at);
    note_question(least, bytes, at, stand.question);
}

impl BeyondAscii {
    /// Whether one of the set has a number from the first to the last.
    fn has_between(self, first: u32, last: u32) -> bool
        ensures { result ≡ has_between self first last }
    {
        match self {
            BeyondAscii::Nothing => false,
            BeyondAscii::One(c) => first <= c as u32 && c as u32 <= last,
            BeyondAscii::NameStarts => has_name_start(first, last),
            BeyondAscii::NameChars => has_name_char(first, last),
            BeyondAscii::XmlChars => has_xml_char(first, last),
        }
    }

    /// Whether one of the set is among so many characters side by side that begin with the same bytes, one of which
    /// is this; those below the least have fewer bytes.
    fn has_alike(self, least: u32, count: u32, c: char) -> bool
        requires some { 1 ≤ count }
        requires few { count ≤ 262144 }
        ensures { result ≡ has_alike self least count c }
    {
        let code = c as u32;
        let start = code - code % count;
        let first = if start <= least { least } else { start };
        self.has_between(first, start + (count - 1))
    }

    /// How many bytes of a character of two bytes begin one of the set.
    fn shared_of_two(self, c: char) -> usize
        ensures { result ≡ shared_of_two self c }
    {
        if self.has_alike(0x80, 64, c) {
            return 1;
        }
        0
    }

    /// How many bytes of a character of three bytes begin one of the set, which doesn't have it.
    fn shared_of_three(self, c: char) -> usize
        ensures { result ≡ shared_of_three self c }
    {
        if self.has_alike(0x800, 64, c) {
            return 2;
        }
        if self.has_alike(0x800, 4096, c) {
            return 1;
        }
        0
    }

    /// How many bytes of a character of four bytes begin one of the set, which doesn't have it.
    fn shared_of_four(self, c: char) -> usize
        ensures { result ≡ shared_of_four self c }
    {
        if self.has_alike(0x1_0000, 64, c) {
            return 3;
        }
        if self.has_alike(0x1_0000, 4096, c) {
            return 2;
        }
        if self.has_alike(0x1_0000, 262_144, c) {
            return 1;
        }
        0
    }

    /// How many bytes of a character begin one of the set, which doesn't have it.
    fn shared_by(self, c: char) -> usize
        ensures { result ≡ shared_by self c }
    {
        let code = c as u32;
        if code < 0x80 {
            0
        } else if code < 0x800 {
            self.shared_of_two(c)
        } else if code < 0x1_0000 {
            self.shared_of_three(c)
        } else {
            self.shared_of_four(c)
        }
    }
}

/// How many bytes of a character that the reader doesn't take begin one that it takes.
pub fn shared(stand: Stand, c: char) -> usize
    ensures { (front : List ℕ) (s : State) → run start front ≡ Some s → StandsAt stand s → step s c ≡ None → Shares s c result }
{
    stand.beyond.shared_by(c)
}
