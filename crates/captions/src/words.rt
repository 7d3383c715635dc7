//! The words of a line: separated by one space each; a text stands between double quotes.
ghost use Rattle.std.specs.Prelude.{◌<◌, IfSome, length};

use crate::answer::NoAnswer;
use card::Length;
use names::{LengthUnit, Spelled};
use std::alloc::Global;
use std::str::from_utf8;

/// A reader of a line's words, from left to right.
#[derive(Drop)]
pub(crate) struct Words<'a> {
    // What has not been read; none once the last word was, which has no space behind it.
    rest: Option<&'a [u8]>,
}

impl<'a> Words<'a> {
    pub(crate) fn new(line: &'a [u8]) -> Words<'a> {
        Words { rest: Some(line) }
    }

    /// Whether the whole line has been read.
    pub(crate) fn ended(&self) -> bool {
        self.rest.is_none()
    }

    // None is what cannot be read. Where memory may lack too, in `text` and in the reader of a line, an error is made
    // of it.
    /// The next word: what stands before the next space, or before the end.
    pub(crate) fn word(&mut self) -> Option<&'a str> {
        let mut parts = self.rest?.splitn(2, |byte| *byte == b' ');
        let word = parts.next()?;
        self.rest = parts.next();
        from_utf8(word).ok()
    }

    /// The next word as a number below 2^32, of digits alone.
    pub(crate) fn number(&mut self) -> Option<u32> {
        number_of(self.word()?)
    }

    /// The next word as a float.
    pub(crate) fn float(&mut self) -> Option<f32> {
        self.word()?.parse().ok()
    }

    /// The next word as a link: a number, or `-` for none.
    pub(crate) fn link(&mut self) -> Option<Option<u32>> {
        match self.word()? {
            "-" => Some(None),
            word => Some(Some(number_of(word)?)),
        }
    }

    /// The next word as a length: a float directly followed by its unit.
    pub(crate) fn length(&mut self) -> Option<Length> {
        let word = self.word()?;
        // The longest unit first, since every word ends in the empty one.
        [2usize, 1, 0]
            .into_iter()
            .find_map(|width| length_of(word, width))
    }

    /// The next word as a text between double quotes.
    pub(crate) fn text(&mut self, heap: Global) -> Result<Vec<u8>, NoAnswer> {
        let mut text = Vec::new(heap);
        let mut rest = self.quoted().ok_or(NoAnswer::Unreadable)?;
        loop {
            match rest {
                [b'"'] => {
                    self.rest = None;
                    return Ok(text);
                }
                [b'"', b' ', others @ ..] => {
                    self.rest = Some(others);
                    return Ok(text);
                }
                _ => {
                    let (meant, others) = byte_meant(rest).ok_or(NoAnswer::Unreadable)?;
                    text.push(meant)?;
                    rest = others;
                }
            }
        }
    }

    // What stands behind an opening quote.
    fn quoted(&self) -> Option<&'a [u8]> {
        self.rest?.strip_prefix(b"\"")
    }
}

// A number of digits alone, where `parse` would take a plus sign too.
fn number_of(word: &str) -> Option<u32> {
    if word.starts_with('+') {
        return None;
    }
    word.parse().ok()
}

// A length by a word that ends in a unit of this width.
// Each program has a reader of its own: the library parses nothing, and a crate for these lines alone would be longer.
fn length_of(word: &str, width: usize) -> Option<Length> {
    let split = word.len().checked_sub(width)?;
    let (number, unit) = word.split_at_checked(split)?;
    // The unit first: most widths end in none, and then the number, which may be long, is not read.
    let unit = LengthUnit::from_str(unit)?;
    let number = number.parse().ok()?;
    Some(Length { number, unit })
}

// The byte that a text within quotes means first, and what stands behind it. A quote alone means none.
fn byte_meant(text: &[u8]) -> Option<(u8, &[u8])>
    ensures { IfSome result (λ r. length r.1.now < length text.now) }
{
    match text {
        [b'\\', b'n', rest @ ..] => Some((b'\n', rest)),
        [b'\\', b'r', rest @ ..] => Some((b'\r', rest)),
        [b'\\', b't', rest @ ..] => Some((b'\t', rest)),
        [b'\\', b'x', high, low, rest @ ..] => Some((hex(*high)? << 4 | hex(*low)?, rest)),
        [b'\\', byte @ (b'"' | b'\\'), rest @ ..] => Some((*byte, rest)),
        [b'\\' | b'"', ..] | [] => None,
        [byte, rest @ ..] => Some((*byte, rest)),
    }
}

// The value of a hexadecimal digit.
fn hex(digit: u8) -> Option<u8> {
    let value = char::from(digit).to_digit(16)?;
    u8::try_from(value).ok()
}
