// What squares are worked off with.
ghost use Rattle.std.specs.Prelude.{◌≡◌, ◌≤◌, IfOk};

use sota_units::NoMemory;
use std::alloc::Global;
use std::marker::Model;

/// Room in which summers work off their squares, for kernels of up to so many places. It is lent
/// from one feed to the next, and what it holds in between is open.
#[derive(Drop)]
pub struct Workspace {
    places: usize,
    // A block of values between zeros, or masses and their sums.
    pub(crate) thin: Vec<u64>,
    // Values, a folded product, and what it wants lent.
    pub(crate) wide: Vec<u128>,
}

impl Model for Workspace {
    ghost use Rattle.std.specs.Prelude.{ℕ, ◌+◌, ◌*◌, ◌≤◌, length};

    ghost Value = { ℕ };

    ghost view = { λ w. w.places };

    ghost invariant = { λ w. (2 * w.places + 16 ≤ length w.thin.items)
        × (6 * w.places ≤ length w.wide.items) };
}

impl Workspace {
    /// Room for kernels of up to so many places: 112 bytes for each. All memory is taken here.
    pub fn make(alloc: Global, places: u32) -> Result<Workspace, NoMemory>
        requires { places ≤ 65536 }
        ensures { IfOk result (λ workspace. workspace ≡ places) }
    {
        let places = places as usize;
        let thin = vec![in alloc; 0; 2 * places + 16]?;
        let wide = vec![in alloc; 0; 6 * places]?;
        Ok(Workspace { places, thin, wide })
    }
}
