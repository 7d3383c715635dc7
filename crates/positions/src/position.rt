//! The position of a character.
ghost use Rattle.std.specs.Prelude.{◌≡◌};
ghost use Rattle.positions.specs.Positions.{name_of, put};

use names::AId;

/// Where a character stands, and by how much it is shifted, as far as that is said.
#[derive(Clone, Copy, Default)]
pub struct Position {
    pub x: Option<f32>,
    pub y: Option<f32>,
    pub dx: Option<f32>,
    pub dy: Option<f32>,
}

// An enum and no closures: the definitions speak of the coordinate by it.
/// A coordinate of a position.
#[derive(Clone, Copy)]
pub(crate) enum Axis {
    X,
    Y,
    Dx,
    Dy,
}

impl Axis {
    /// The attribute that lists this coordinate.
    pub(crate) fn name(self) -> AId
        ensures { result ≡ name_of self }
    {
        match self {
            Axis::X => AId::X,
            Axis::Y => AId::Y,
            Axis::Dx => AId::Dx,
            Axis::Dy => AId::Dy,
        }
    }
}

impl Position {
    /// The position with another coordinate, where there is one.
    pub(crate) fn put(self, axis: Axis, length: Option<f32>) -> Position
        ensures { result ≡ put axis self length }
    {
        let mut position = self;
        match axis {
            Axis::X => position.x = length.or(self.x),
            Axis::Y => position.y = length.or(self.y),
            Axis::Dx => position.dx = length.or(self.dx),
            Axis::Dy => position.dy = length.or(self.dy),
        }
        position
    }
}
