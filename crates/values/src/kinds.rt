//! The kinds of value that are no keywords; text and lists borrow from the card's tables.
ghost use Rattle.std.specs.Prelude.{ℕ, List};
ghost use Rattle.card.specs.declared.record.Length.{Length};
ghost use Rattle.values.specs.Kinds.{as_text, as_length, as_lengths, as_numbers};

use crate::from_value::FromValue;
use card::{Length, Value};

/// The bytes of a value.
#[derive(Clone, Copy)]
pub struct Text<'a>(pub &'a [u8]);

/// All lengths that were read in a value.
#[derive(Clone, Copy)]
pub struct LengthList<'a>(pub &'a [Length]);

/// A list of bare numbers, as lengths without a unit.
#[derive(Clone, Copy)]
pub struct NumberList<'a>(pub &'a [Length]);

impl<'a> FromValue<'a> for Text<'a> {
    ghost Meaning = { List ℕ };

    ghost shows = { λ x. x.0.now };

    ghost reads = { as_text };

    fn from_value(value: Value<'a>) -> Option<Text<'a>> {
        Some(Text(value.bytes))
    }
}

impl<'a> FromValue<'a> for Length {
    ghost Meaning = { Length };

    ghost shows = { λ x. x };

    ghost reads = { as_length };

    fn from_value(value: Value<'a>) -> Option<Length> {
        if value.marks.single {
            value.lengths.first().copied()
        } else {
            None
        }
    }
}

impl<'a> FromValue<'a> for LengthList<'a> {
    ghost Meaning = { List Length };

    ghost shows = { λ x. x.0.now };

    ghost reads = { as_lengths };

    fn from_value(value: Value<'a>) -> Option<LengthList<'a>> {
        Some(LengthList(value.lengths))
    }
}

impl<'a> FromValue<'a> for NumberList<'a> {
    ghost Meaning = { List Length };

    ghost shows = { λ x. x.0.now };

    ghost reads = { as_numbers };

    fn from_value(value: Value<'a>) -> Option<NumberList<'a>> {
        value.marks.plain.then_some(NumberList(value.lengths))
    }
}
