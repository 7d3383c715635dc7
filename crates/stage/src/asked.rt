//! The two questions that a stage answers of each number.
ghost use Rattle.std.specs.Prelude.{◌≡◌, ℕ, ◌≤◌, Bool, length, Option as Maybe};
ghost use Rattle.std.specs.Int.NonZero.{non_zero_u32_get};
ghost use Rattle.std.specs.Option.{option_map};
ghost use Rattle.stage.specs.Recorded.{recorded};

use std::num::NonZeroU32;

/// Says of each number whether it is drawn, and along which flow it runs.
pub trait Stage {
    ghost drawn: { Self → ℕ → Bool };

    ghost flow: { Self → ℕ → Maybe ℕ };

    /// Whether a number is drawn.
    fn is_drawn(&self, n: u32) -> bool
        ensures { result ≡ drawn self.now n };

    /// The code of a number's flow.
    fn flow(&self, n: u32) -> Option<NonZeroU32>
        ensures { option_map non_zero_u32_get result ≡ flow self.now n };
}

/// Records a stage's answers for the numbers below a count, in front of two tables; later entries stay.
pub fn record_answers<S: Stage>(
    stage: &S,
    count: u32,
    drawn: &mut [bool],
    flows: &mut [Option<u32>],
)
    requires drawn_fits { count ≤ length drawn.old }
    requires flows_fit { count ≤ length flows.old }
    ensures drawn { drawn.new ≡ recorded (S.Stage.drawn stage.now) count drawn.old }
    ensures flows { flows.new ≡ recorded (S.Stage.flow stage.now) count flows.old }
{
    // By number: over `iter_mut` of both tables the proof loses what was written, and did not close.
    for k in 0..count {
        drawn[k as usize] = stage.is_drawn(k);
        flows[k as usize] = stage.flow(k).map(NonZeroU32::get);
    }
}
