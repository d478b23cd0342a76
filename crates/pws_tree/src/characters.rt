//! Characters of XML and of its names.

ghost use Rattle.std.specs.Prelude.{◌≡◌, ◌||◌, chars};
ghost use Rattle.std.specs.List.{list_all};
ghost use Rattle.pws_tree.specs.Characters.{is_in, meets, xml_ranges, name_start_ranges, name_more_ranges, is_xml_char, is_name_start, is_name_char, is_xml_text, is_local_name};

/// XML 1.0 fifth edition, production 2, Char.
const XML_RANGES: [(u32, u32); 5] = [
    (0x9, 0xA),
    (0xD, 0xD),
    (0x20, 0xD7FF),
    (0xE000, 0xFFFD),
    (0x1_0000, 0x10_FFFF),
];

/// Production 4, NameStartChar, without the colon.
const NAME_START_RANGES: [(u32, u32); 15] = [
    (0x41, 0x5A),
    (0x5F, 0x5F),
    (0x61, 0x7A),
    (0xC0, 0xD6),
    (0xD8, 0xF6),
    (0xF8, 0x2FF),
    (0x370, 0x37D),
    (0x37F, 0x1FFF),
    (0x200C, 0x200D),
    (0x2070, 0x218F),
    (0x2C00, 0x2FEF),
    (0x3001, 0xD7FF),
    (0xF900, 0xFDCF),
    (0xFDF0, 0xFFFD),
    (0x1_0000, 0xE_FFFF),
];

/// Production 4a, NameChar, what it has besides.
const NAME_MORE_RANGES: [(u32, u32); 5] = [
    (0x2D, 0x2E),
    (0x30, 0x39),
    (0xB7, 0xB7),
    (0x300, 0x36F),
    (0x203F, 0x2040),
];

/// Whether a code point is in one of the ranges.
fn is_in(ranges: &[(u32, u32)], c: u32) -> bool
    ensures { result ≡ is_in ranges.now c }
{
    ranges.iter().any(|range| range.0 <= c && c <= range.1)
}

/// Whether this is a character that XML has.
#[tactic(auto, unfolding(crate::specs::Characters::xml_ranges))]
pub fn is_xml_char(c: char) -> bool
    ensures { result ≡ is_xml_char c }
{
    is_in(&XML_RANGES, c as u32)
}

/// Whether a name without a colon may begin with this character.
#[tactic(auto, unfolding(crate::specs::Characters::name_start_ranges))]
pub fn is_name_start(c: char) -> bool
    ensures { result ≡ is_name_start c }
{
    is_in(&NAME_START_RANGES, c as u32)
}

/// Whether a name without a colon may go on with this character.
#[tactic(auto, unfolding(crate::specs::Characters::name_more_ranges))]
pub fn is_name_char(c: char) -> bool
    ensures { result ≡ is_name_char c }
{
    is_name_start(c) || is_in(&NAME_MORE_RANGES, c as u32)
}

/// Whether one of the ranges has a code point from the first to the last, which isn't below it.
fn meets(ranges: &[(u32, u32)], first: u32, last: u32) -> bool
    ensures { result ≡ meets ranges.now first last }
{
    ranges
        .iter()
        .any(|range| range.0 <= last && first <= range.1)
}

/// Whether XML has one of the characters from the first to the last, each given by its code point; the last isn't
/// below the first.
#[tactic(auto, unfolding(crate::specs::Characters::xml_ranges))]
pub fn has_xml_char(first: u32, last: u32) -> bool
    ensures { result ≡ meets xml_ranges first last }
{
    meets(&XML_RANGES, first, last)
}

/// Whether a name without a colon may begin with one of the characters from the first to the last, each given by its
/// code point; the last isn't below the first.
#[tactic(auto, unfolding(crate::specs::Characters::name_start_ranges))]
pub fn has_name_start(first: u32, last: u32) -> bool
    ensures { result ≡ meets name_start_ranges first last }
{
    meets(&NAME_START_RANGES, first, last)
}

/// Whether a name without a colon may go on with one of the characters from the first to the last, each given by its
/// code point; the last isn't below the first.
#[tactic(auto, unfolding(crate::specs::Characters::name_more_ranges))]
pub fn has_name_char(first: u32, last: u32) -> bool
    ensures { result ≡ (meets name_start_ranges first last || meets name_more_ranges first last) }
{
    has_name_start(first, last) || meets(&NAME_MORE_RANGES, first, last)
}

fn are_xml_chars(text: &str) -> bool
    ensures { result ≡ list_all is_xml_char (chars text.now) }
{
    for c in text.chars() {
        if !is_xml_char(c) {
            return false;
        }
    }
    true
}

/// Whether all characters of a text are XML characters.
pub fn is_xml_text(text: &str) -> bool
    ensures { result ≡ is_xml_text text.now }
{
    are_xml_chars(text)
}

/// Whether all characters of a text may stand inside a name.
fn are_name_chars(text: &str) -> bool
    ensures { result ≡ list_all is_name_char (chars text.now) }
{
    for c in text.chars() {
        if !is_name_char(c) {
            return false;
        }
    }
    true
}

/// Whether a text is a name without a colon.
pub fn is_local_name(text: &str) -> bool
    ensures { result ≡ is_local_name text.now }
{
    let mut rest = text.chars();
    match rest.next() {
        Some(first) => is_name_start(first) && are_name_chars(rest.as_str()),
        None => false,
    }
}
