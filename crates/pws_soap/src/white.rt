//! White space round a text.

ghost use Rattle.std.specs.Prelude.{◌≡◌, ◌-◌, length};
ghost use Rattle.std.specs.List.{prefix_len, suffix_len};
ghost use Rattle.pws_mark.specs.Tokens.{is_white};
ghost use Rattle.pws_soap.specs.White.{is_all_white, trim_start, trim_end, trim};

/// Whether a byte is white space: space, tab, line feed or carriage return.
fn is_white(byte: u8) -> bool
    ensures { result ≡ is_white byte }
{
    byte == b' ' || byte == b'\t' || byte == b'\n' || byte == b'\r'
}

/// Whether a text has nothing but white space.
pub fn is_all_white(text: &str) -> bool
    ensures { result ≡ is_all_white text.now }
{
    text.as_bytes().iter().all(|byte| is_white(*byte))
}

/// How many bytes of white space a text begins with.
fn white_before(text: &[u8]) -> usize
    ensures { result ≡ prefix_len is_white text.now }
{
    let mut n = 0;
    while n < text.len() && is_white(text[n]) {
        n += 1;
    }
    n
}

/// Where the white space begins with which a text ends.
fn white_behind(text: &[u8]) -> usize
    ensures { result ≡ length text.now - suffix_len is_white text.now }
{
    let mut n = text.len();
    while n > 0 && is_white(text[n - 1]) {
        n -= 1;
    }
    n
}

/// A text without the white space at its start.
fn trim_start(text: &str) -> &str
    ensures { result.now ≡ trim_start text.now }
{
    &text[white_before(text.as_bytes())..]
}

/// A text without the white space at its end.
fn trim_end(text: &str) -> &str
    ensures { result.now ≡ trim_end text.now }
{
    &text[..white_behind(text.as_bytes())]
}

/// A text without the white space round it.
#[tactic(auto, unfolding(crate::specs::White::trim))]
pub fn trim(text: &str) -> &str
    ensures { result.now ≡ trim text.now }
{
    trim_end(trim_start(text))
}
