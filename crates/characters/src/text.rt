//! The characters of UTF-8, by the bytes that begin them.
ghost use Rattle.std.specs.Prelude.{◌≡◌, ◌+◌, ◌<◌, ◌≤◌, true, ◌∷◌, length, take, drop};
ghost use Rattle.std.specs.Str.{continuation_len};
ghost use Rattle.card.specs.Order.{is_utf8};
ghost use Rattle.characters.specs.Characters.{by_character, begins_character};

// Whether a byte is the first of a character.
fn begins_character(byte: u8) -> bool
    ensures { result ≡ begins_character byte }
{
    byte < 0x80 || byte >= 0xC0
}

/// How many characters a text has: as many as bytes that begin one.
pub fn count_chars(text: &[u8]) -> usize
    requires { is_utf8 text.now ≡ true }
    ensures { result ≡ length (by_character text.now) }
{
    text.iter()
        .map(|byte| usize::from(begins_character(*byte)))
        .sum()
}

// How many bytes a character has, by its first.
fn len_by_first(byte: u8) -> usize
    ensures { result ≡ 1 + continuation_len byte }
{
    match byte {
        0..0x80 => 1,
        0x80..0xE0 => 2,
        0xE0..0xF0 => 3,
        0xF0..=0xFF => 4,
    }
}

/// How many bytes the character at a place has.
pub fn char_len(text: &[u8], at: usize) -> usize
    requires within { at < length text.now }
    requires spelled { is_utf8 (drop at text.now) ≡ true }
    ensures some { 0 < result }
    ensures within { at + result ≤ length text.now }
    ensures rest { is_utf8 (drop (at + result) text.now) ≡ true }
    ensures first { by_character (drop at text.now) ≡ take result (drop at text.now) ∷ by_character (drop (at + result) text.now) }
{
    len_by_first(text[at])
}
