//! What it is to be a kind of value.
ghost use Rattle.std.specs.Prelude.{◌≡◌};
ghost use Rattle.std.specs.Option.{option_map};
ghost use Rattle.document.specs.Said.{said};
ghost use Rattle.values.specs.Values.{Reader, read_of};

use card::Value;

/// A kind of value: what an attribute's bytes and their reading give, at most one result.
pub trait FromValue<'a> {
    // What a result shows, with no reference in it.
    ghost Meaning: { Type 0 };

    ghost shows: { Self → Meaning };

    ghost reads: { Reader Meaning };

    /// The value that this kind makes of an attribute's bytes and reading.
    fn from_value(value: Value<'a>) -> Option<Self>
        ensures { option_map shows result ≡ read_of reads (said value.entry) };
}
