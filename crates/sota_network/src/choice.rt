// The choices of a grid, which has one for each node and budget.
ghost use Rattle.std.specs.Prelude.{◌≡◌, ◌≢◌, ◌≤◌, Some, None, Option};

use sota_units::ArcId;
use std::marker::Model;

/// An arc or none, in four bytes: no arc has the number 0, which stands for none.
#[derive(Clone, Copy)]
pub struct Choice {
    number: u32,
}

impl Model for Choice {
    ghost use Rattle.std.specs.Prelude.{ℕ, Option, None, Some, ◌==◌, if◌then◌else◌};

    ghost Value = { Option ℕ };

    ghost view = { λ a. if a.number == 0 then None else Some a.number };

    ghost inverse = { λ choice. elim choice [
      | None ↦ record { number = 0 }
      | Some number ↦ record { number = number }
    ] };
}

impl Choice {
    /// No arc.
    pub const NONE: Choice = Choice { number: 0 };

    /// The arc of this number.
    pub fn new(arc: ArcId) -> Choice
        requires { 1 ≤ arc }
        ensures { result ≡ Some arc }
    {
        Choice { number: arc.get() }
    }

    /// The arc, or none.
    pub fn of(arc: Option<ArcId>) -> Choice
        requires { arc ≢ Some 0 }
        ensures { result ≡ arc }
    {
        match arc {
            Some(arc) => Choice::new(arc),
            None => Choice::NONE,
        }
    }

    /// The arc, if there is one.
    pub fn get(self) -> Option<ArcId>
        ensures { result ≡ self }
    {
        if self.number == 0 {
            None
        } else {
            Some(ArcId(self.number))
        }
    }
}
