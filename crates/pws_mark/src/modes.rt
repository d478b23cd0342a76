//! Where in a text a reader is, and what it keeps of what it read.

use crate::counts::{Marks, Place};
use pws_base::lists::Sequence;
use pws_tree::texts::{Attr, Name, Text};

/// A reference, as far as it was read behind its `&`.
#[derive(Drop)]
pub enum Reference {
    /// Nothing yet.
    Begun,
    /// A part of an entity's name, and whether the next character has to begin a part between colons.
    Entity(Sequence<char>, bool),
    /// `#`.
    Number,
    /// `#x`.
    HexadecimalBegun,
    /// The number that the digits so far stand for, or 0x110000 where it is above.
    Decimal(u32),
    /// The number that the digits so far stand for, or 0x110000 where it is above.
    Hexadecimal(u32),
}

/// What a character does to a reference.
#[derive(Drop)]
pub enum ReferenceStep {
    /// It goes on.
    More(Reference),
    /// It is complete, and stands for a character, or for none.
    Done(Option<char>),
}

/// The parts of an XML declaration.
#[derive(Clone, Copy, PartialEq, Eq)]
pub enum Part {
    Version,
    Encoding,
    Standalone,
    /// Its end.
    End,
}

/// The values in an XML declaration.
#[derive(Clone, Copy, PartialEq, Eq)]
pub enum Literal {
    /// `1.0`.
    One,
    /// `UTF-8`, in any case of letters.
    Utf8,
    /// `yes`.
    Yes,
    /// `no`.
    No,
}

/// Where in an XML declaration a reader is, behind its `<?`.
#[derive(Clone, Copy)]
pub enum Declaring {
    /// So many characters of `xml` were read.
    Word(u8),
    /// Before a part that may be this one or a later one; whether white space stands before.
    Gap(Part, bool),
    /// So many characters of the name of a part were read.
    Name(Part, u8),
    /// Behind the name of a part.
    BeforeEquals(Part),
    /// Behind the `=` of a part.
    AfterEquals(Part),
    /// Behind the quote of the value of `standalone`.
    Choice(char),
    /// So many characters of a value in these quotes were read.
    Value(Literal, char, u8),
    /// Behind the `?` at its end.
    End,
}

/// An attribute that was read, with the place of its name; its value is missing where a reference in it is refused.
#[derive(Drop)]
pub struct ReadAttribute {
    pub name: Sequence<char>,
    pub at: Place,
    pub value: Option<Text>,
}

/// What was read of a tag, with the place of its `<`.
#[derive(Drop)]
pub struct ReadTag {
    pub at: Place,
    pub name: Sequence<char>,
    pub attributes: Sequence<ReadAttribute>,
}

/// What was read of the name of an attribute, with its place.
#[derive(Drop)]
pub struct ReadName {
    pub at: Place,
    pub name: Sequence<char>,
}

/// What was read of a value, which is missing where a reference in it is refused; whether a CR stands before.
#[derive(Drop)]
pub struct ReadValue {
    pub quote: char,
    pub text: Option<Text>,
    pub after_return: bool,
}

/// Where in a text a reader is.
#[derive(Drop)]
pub enum Mode {
    /// At the start of the text; whether a byte order mark may come.
    Start(bool),
    /// Behind a `<` at the start, and its place.
    HeadOpened(Place),
    /// In the XML declaration.
    Declaring(Declaring),
    /// In content, or outside of the element: how many of `]]` stand before, and whether a CR does.
    Content(Marks, bool),
    /// In a reference in content, and the place of its `&`.
    TextReference(Place, Reference),
    /// Behind a `<`, and its place.
    Opened(Place),
    /// Behind `<!`.
    Bang,
    /// Behind `<!-`.
    Dash,
    /// In a comment: how many of `--` stand before.
    Comment(Marks),
    /// Behind `<![` and so many characters of `CDATA[`.
    SectionWord(u8),
    /// In a CDATA section: how many of `]]` stand before, and whether a CR stands before these.
    Section(Marks, bool),
    /// In the name of a tag, and whether the next character has to begin a part between colons.
    TagName(ReadTag, bool),
    /// In a tag behind its name; whether white space stands before.
    InTag(ReadTag, bool),
    /// Behind the `/` of an empty tag.
    Slash(ReadTag),
    /// In the name of an attribute, and whether the next character has to begin a part between colons.
    AttributeName(ReadTag, ReadName, bool),
    /// Behind the name of an attribute.
    BeforeEquals(ReadTag, ReadName),
    /// Behind the `=` of an attribute.
    AfterEquals(ReadTag, ReadName),
    /// In the value of an attribute.
    Value(ReadTag, ReadName, ReadValue),
    /// In a reference in the value of an attribute, and the place of its `&`.
    ValueReference(ReadTag, ReadName, ReadValue, Place, Reference),
    /// In an end tag: so many characters of the name were read.
    EndName(usize),
    /// In an end tag, in the white space behind its name.
    EndGap,
}

/// Where a place stands to the element.
#[derive(Clone, Copy, PartialEq, Eq)]
pub enum Region {
    Before,
    Inside,
    Behind,
}

/// What a text stands for, piece by piece.
#[derive(Drop)]
pub enum Event {
    /// An element begins, with its name and its attributes.
    Open(Name, Sequence<Attr>),
    /// A text.
    Text(Text),
    /// A qualified name.
    Qualified(Name),
    /// The innermost element ends.
    Close,
}
