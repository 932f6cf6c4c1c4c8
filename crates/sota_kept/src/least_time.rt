// Least times, as long lists keep them.
ghost use Rattle.std.specs.Prelude.{◌≡◌, ◌-◌, ◌^◌, ◌<◌, not, Some};
ghost use Rattle.std.specs.Option.{is_some};

use std::marker::Model;

/// A least time, in ticks, which takes the room of one number. None: there is none.
#[derive(Clone, Copy, Debug, PartialEq, Eq)]
pub struct LeastTime {
    /// One more than the time, 0 where there is none.
    above: u64,
}

impl Model for LeastTime {
    ghost use Rattle.std.specs.Prelude.{ℕ, Option};

    ghost Value = { Option ℕ };

    ghost use Rattle.sota_kept.specs.LeastTime.{time_below, number_above, above-below};

    ghost view = { λ a. time_below a.above };

    ghost inverse = { λ time. record { above = number_above time } };

    ghost inverse_ok = { λ a h i. record { above = above-below a.above i } };
}

impl LeastTime {
    /// There is none.
    pub const NONE: LeastTime = LeastTime { above: 0 };

    /// This time.
    pub fn some(time: u64) -> LeastTime
        requires { time < 2 ^ 64 - 1 }
        ensures { result ≡ Some time }
    {
        LeastTime { above: time + 1 }
    }

    /// The time.
    pub fn get(self) -> Option<u64>
        ensures { result ≡ self }
    {
        self.above.checked_sub(1)
    }

    /// Whether there is none.
    pub fn is_none(self) -> bool
        ensures { is_some self ≡ not result }
    {
        self.get().is_none()
    }
}
