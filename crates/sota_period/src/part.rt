// What is found for a node at budgets in a row.
ghost use Rattle.std.specs.Prelude.{ℕ, ◌≡◌, ◌<◌, ◌≤◌, length, slice_index};

use sota_units::Grain;

/// At how many budgets at most the values of a node are made together.
pub(crate) const PART: usize = 64;

/// What is found for a node at up to 64 budgets in a row: the sums of an arc, the greatest sums of
/// all its arcs, and these rounded. It is lent from one node to the next.
#[derive(Drop)]
pub(crate) struct Part {
    pub(crate) sums: [u128; PART],
    pub(crate) bests: [u128; PART],
    pub(crate) grains: [Grain; PART],
}

impl Part {
    /// Room for what is found.
    pub(crate) fn new() -> Part {
        Part {
            sums: [0; PART],
            bests: [0; PART],
            grains: [Grain::ZERO; PART],
        }
    }

    /// No arc is found yet: the greatest sums are 0.
    pub(crate) fn clear(&mut self, count: usize)
        requires { count ≤ 64 }
        ensures bests { (x : ℕ) → x < count → slice_index self.new.bests x ≡ 0 }
        ensures room { length self.new.bests ≡ 64 }
        ensures sums { self.new.sums ≡ self.old.sums }
        ensures grains { self.new.grains ≡ self.old.grains }
    {
        self.bests[..count].fill(0);
    }
}
