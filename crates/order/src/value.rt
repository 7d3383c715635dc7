//! Whether bytes and readings may stand in a card.
ghost use Rattle.std.specs.Prelude.{◌≡◌};
ghost use Rattle.card.specs.Order.{is_utf8, keeps_rules, all_finite, no_units};
ghost use Rattle.order.specs.Checks.{spelling_checked, reading};

use card::{Fault, Length, Marks};
use names::LengthUnit;
use std::str::from_utf8;

// Whether bytes are UTF-8.
pub(crate) fn is_utf8(bytes: &[u8]) -> bool
    ensures { result ≡ is_utf8 bytes.now }
{
    from_utf8(bytes).is_ok()
}

/// Refuses bytes that are not UTF-8, with the length of their longest valid start.
pub fn check_spelling(bytes: &[u8]) -> Result<(), Fault>
    ensures { result ≡ spelling_checked bytes.now }
{
    match from_utf8(bytes) {
        Ok(_) => Ok(()),
        Err(error) => Err(Fault::NotUtf8(error.valid_up_to())),
    }
}

// Whether every number is finite.
fn are_finite(lengths: &[Length]) -> bool
    ensures { result ≡ all_finite lengths.now }
{
    lengths.iter().all(|length| length.number.is_finite())
}

// Whether no length has a unit.
fn are_bare(lengths: &[Length]) -> bool
    ensures { result ≡ no_units lengths.now }
{
    lengths.iter().all(|length| length.unit == LengthUnit::None)
}

/// Whether a reading keeps its rules: finite numbers, one length if single, no unit if plain.
pub fn keeps_rules(lengths: &[Length], marks: Marks) -> bool
    ensures { result ≡ keeps_rules (reading lengths.now marks) }
{
    if !are_finite(lengths) || marks.single && lengths.len() != 1 {
        return false;
    }
    !marks.plain || are_bare(lengths)
}
