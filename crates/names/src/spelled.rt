//! What tags, names of attributes and units have in common: each is written as one word.
ghost use Rattle.std.specs.Prelude.{◌≡◌, ◌==◌, ℕ, List, Some as just};
ghost use Rattle.names.specs.Rows.{Exact, Stands, read, shown, spelt};

use crate::rows::find;

/// A value of an enum, each of which is written as a word of its own.
pub trait Spelled: Copy + PartialEq + 'static {
    // Every value, in the order of the enum.
    ghost all: { List Self };

    ghost place: { Self → ℕ };

    ghost spelling: { Self → List ℕ };

    /// The value's place in the enum.
    fn place(self) -> u8
        ensures { result ≡ place self };

    /// Each value with its spelling, in the order of the enum.
    fn rows() -> &'static [(Self, &'static str)]
        ensures { shown result.now ≡ spelt spelling all };

    ghost equal_at_one_place: { (x y : Self) → Self.PartialEq.eq x y ≡ (place x == place y) };

    ghost each_stands_at_its_place: { (x : Self) → Stands all (place x) x };

    ghost each_is_read_from_its_spelling: { (x : Self) → read spelling all (spelling x) ≡ just x };

    /// How the value is written.
    final fn to_str(self) -> &'static str
        ensures { result.now ≡ spelling self }
    {
        let place = self.place() as usize;
        Self::rows()[place].1
    }

    /// The value that a text spells.
    final fn from_str(text: &str) -> Option<Self>
        ensures value { result ≡ read spelling all text.now }
        ensures exact { Exact spelling text.now result }
    {
        find(Self::rows(), text.as_bytes())
    }
}
