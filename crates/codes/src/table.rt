//! A table of codes: a count in four bytes, then columns of bytes or of codes of four bytes, the least byte first.
ghost use Rattle.std.specs.Prelude.{◌≡◌, ◌+◌, ◌≤◌, true, false, length, take, drop, MatchOption};
ghost use Rattle.std.specs.Int.NonZero.{non_zero_u32_get};
ghost use Rattle.std.specs.Option.{option_map};
ghost use Rattle.codes.specs.Codes.{number_at, is_sized, code_in};

use card::MAX_NODES;
use std::num::NonZeroU32;

/// A table lent by its owner, which has WIDTH bytes for each number below its count.
#[derive(Clone, Copy)]
pub struct CodeTable<'a, const WIDTH: u8> {
    bytes: &'a [u8],
    ghost sized: { is_sized WIDTH bytes.now ≡ true },
}

// The number that four bytes spell, the least first.
fn number_at(bytes: &[u8], i: usize) -> u32
    requires { i + 4 ≤ length bytes.now }
    ensures { result ≡ number_at bytes.now i }
{
    u32::from_le_bytes([bytes[i], bytes[i + 1], bytes[i + 2], bytes[i + 3]])
}

// Whether bytes are a count of at most as many numbers as a card may have, and so many bytes for each.
fn is_sized(bytes: &[u8], width: u8) -> bool
    ensures { result ≡ is_sized width bytes.now }
{
    if bytes.len() < 4 {
        return false;
    }
    let count = number_at(bytes, 0) as usize;
    count <= MAX_NODES && bytes.len() == 4 + usize::from(width) * count
}

impl<'a, const WIDTH: u8> CodeTable<'a, WIDTH> {
    /// The table of bytes, if their count and length fit.
    pub fn new(bytes: &'a [u8]) -> Option<CodeTable<'a, WIDTH>>
        ensures { MatchOption result (is_sized WIDTH bytes.now ≡ false) (λ table. (is_sized WIDTH bytes.now ≡ true) × (table.bytes.now ≡ bytes.now)) }
    {
        if is_sized(bytes, WIDTH) {
            Some(CodeTable { bytes })
        } else {
            None
        }
    }

    /// How many numbers the table reaches.
    pub fn len(self) -> u32
        ensures { result ≡ number_at self.entry.bytes.now 0 }
    {
        number_at(self.bytes, 0)
    }

    /// The first column, if its entries are bytes.
    pub fn flags(self) -> &'a [u8]
        requires { 1 ≤ WIDTH }
        ensures { result.now ≡ take (number_at self.entry.bytes.now 0) (drop 4 self.entry.bytes.now) }
    {
        &self.bytes[4..4 + self.len() as usize]
    }

    /// A number's code in the column that begins behind so many bytes of each number; none if it is 0, or past the count.
    pub fn code(self, behind: u8, k: u32) -> Option<NonZeroU32>
        requires { behind + 4 ≤ WIDTH }
        ensures { option_map non_zero_u32_get result ≡ code_in self.entry.bytes.now behind k }
    {
        let count = self.len();
        if k >= count {
            return None;
        }
        let column = 4 + usize::from(behind) * count as usize;
        NonZeroU32::new(number_at(self.bytes, column + 4 * k as usize))
    }
}
