//! The words of the program.

ghost use Rattle.std.specs.Prelude.{◌≡◌, map};
ghost use Rattle.pws_look.specs.Words.{kind_named, command_of};

/// What a text is read as.
#[derive(Clone, Copy, Debug, PartialEq, Eq)]
pub enum Kind {
    /// An event, by the table of events in docs/FORMATS.md.
    Event,
    /// A packet, by the tables of packets and of contents there.
    Packet,
    /// An element, by the profile of texts there.
    Envelope,
    /// A SOAP envelope with its addressing.
    Soap,
    /// A script, by the table of instructions there.
    Script,
}

/// What the words ask for.
#[derive(Clone, Copy, Debug, PartialEq, Eq)]
pub struct Command {
    pub kind: Kind,
    /// Whether each line of the input is a text, in lower-case hexadecimal.
    pub lines: bool,
}

/// The kind that a word names.
fn kind_named(word: &str) -> Option<Kind>
    ensures { result ≡ kind_named word.now }
{
    match word {
        "event" => Some(Kind::Event),
        "packet" => Some(Kind::Packet),
        "envelope" => Some(Kind::Envelope),
        "soap" => Some(Kind::Soap),
        "script" => Some(Kind::Script),
        _ => None,
    }
}

/// What the words after the program's name ask for: a kind, and then `--lines` or nothing.
pub fn command_of(words: &[&str]) -> Option<Command>
    ensures { result ≡ command_of (map (λ w. w.now) words.now) }
{
    if words.len() == 0 || words.len() > 2 {
        return None;
    }
    let lines = words.len() == 2;
    if lines && words[1] != "--lines" {
        return None;
    }
    match kind_named(words[0]) {
        Some(kind) => Some(Command { kind, lines }),
        None => None,
    }
}
