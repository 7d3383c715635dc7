//! The two questions that a paint answers of each number, and the two paints that need no table.
ghost use Rattle.std.specs.Prelude.{◌≡◌, ℕ, Some, None, Option as Maybe};
ghost use Rattle.std.specs.Int.NonZero.{non_zero_u32_get};
ghost use Rattle.std.specs.Option.{option_map};

use std::num::NonZeroU32;

/// Says of each number what it is filled with, and what its outline is drawn with: a code above 0, or nothing.
pub trait Paint {
    ghost fill: { Self → ℕ → Maybe ℕ };

    ghost stroke: { Self → ℕ → Maybe ℕ };

    /// The code of what a number is filled with.
    fn fill(&self, n: u32) -> Option<NonZeroU32>
        ensures { option_map non_zero_u32_get result ≡ fill self.now n };

    /// The code of what a number's outline is drawn with.
    fn stroke(&self, n: u32) -> Option<NonZeroU32>
        ensures { option_map non_zero_u32_get result ≡ stroke self.now n };
}

/// Every number is filled with 1, and has no outline: what stands in a clip path is drawn so.
#[derive(Clone, Copy, Debug, PartialEq, Eq)]
pub struct ClipPaint;

impl Paint for ClipPaint {
    ghost fill = { λ _ _. Some 1 };

    ghost stroke = { λ _ _. None };

    fn fill(&self, _n: u32) -> Option<NonZeroU32> {
        Some(NonZeroU32::MIN)
    }

    fn stroke(&self, _n: u32) -> Option<NonZeroU32> {
        None
    }
}

/// No number has any paint.
#[derive(Clone, Copy, Debug, PartialEq, Eq)]
pub struct NoPaint;

impl Paint for NoPaint {
    ghost fill = { λ _ _. None };

    ghost stroke = { λ _ _. None };

    fn fill(&self, _n: u32) -> Option<NonZeroU32> {
        None
    }

    fn stroke(&self, _n: u32) -> Option<NonZeroU32> {
        None
    }
}
