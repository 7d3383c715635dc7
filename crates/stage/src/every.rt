//! The stage where all is drawn and nothing has a flow.
ghost use Rattle.std.specs.Prelude.{true, None};

use crate::asked::Stage;
use std::num::NonZeroU32;

/// Every number is drawn, and none has a flow.
#[derive(Clone, Copy, Debug, PartialEq, Eq)]
pub struct EveryStage;

impl Stage for EveryStage {
    ghost drawn = { λ _ _. true };

    ghost flow = { λ _ _. None };

    fn is_drawn(&self, _n: u32) -> bool {
        true
    }

    fn flow(&self, _n: u32) -> Option<NonZeroU32> {
        None
    }
}
