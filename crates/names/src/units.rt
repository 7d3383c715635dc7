//! The units of lengths: how they are written behind a number.
ghost use Rattle.names.specs.LengthUnits.{all, place, spelling};
ghost use Rattle.names.specs.Laws.{units_equal, units_stand, units_read};

use crate::LengthUnit;
use crate::spelled::Spelled;

/// Each unit with its spelling, in the order of the enum.
const ROWS: [(LengthUnit, &str); 10] = [
    (LengthUnit::None, ""),
    (LengthUnit::Px, "px"),
    (LengthUnit::Em, "em"),
    (LengthUnit::Ex, "ex"),
    (LengthUnit::In, "in"),
    (LengthUnit::Cm, "cm"),
    (LengthUnit::Mm, "mm"),
    (LengthUnit::Pt, "pt"),
    (LengthUnit::Pc, "pc"),
    (LengthUnit::Percent, "%"),
];

impl Spelled for LengthUnit {
    ghost all = { all };

    ghost place = { place };

    ghost spelling = { spelling };

    ghost equal_at_one_place = { units_equal };

    ghost each_stands_at_its_place = { units_stand };

    ghost each_is_read_from_its_spelling = { units_read };

    fn place(self) -> u8 {
        self as u8
    }

    fn rows() -> &'static [(LengthUnit, &'static str)] {
        &ROWS
    }
}
