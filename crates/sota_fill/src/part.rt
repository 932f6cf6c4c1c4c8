// What is found for a node at budgets in a row.
ghost use Rattle.std.specs.Prelude.{ℕ, ◌≡◌, ◌<◌, ◌≤◌, max, nat_lt, length};
ghost use Rattle.std.specs.Prelude.{slice_index, slice_index_or, None, Some, if◌then◌else◌};
ghost use Rattle.sota_units.specs.Rounding.{ONE};

use sota_network::Choice;
use sota_units::{ArcId, Grain};

/// At how many budgets the sums of a node are made together.
pub(crate) const PART: usize = 64;

/// What is found for a node at up to 64 budgets in a row: the greatest sums of its arcs and the
/// first arc with the greatest lower one, and of these the rounded values. It is lent from one
/// extent to the next.
#[derive(Drop)]
pub struct Part {
    pub(crate) sums: [u128; PART],
    pub(crate) lower: [u128; PART],
    pub(crate) upper: [u128; PART],
    pub(crate) choices: [Choice; PART],
    pub(crate) floors: [Grain; PART],
    pub(crate) ceilings: [Grain; PART],
}

impl Part {
    /// Room for what is found.
    pub fn new() -> Part {
        Part {
            sums: [0; PART],
            lower: [0; PART],
            upper: [0; PART],
            choices: [Choice::NONE; PART],
            floors: [Grain::ZERO; PART],
            ceilings: [Grain::ZERO; PART],
        }
    }

    /// No arc is found yet.
    pub(crate) fn clear(&mut self, count: usize)
        requires { count ≤ 64 }
        ensures lower { (x : ℕ) → x < count → slice_index self.new.lower x ≡ 0 }
        ensures upper { (x : ℕ) → x < count → slice_index self.new.upper x ≡ 0 }
        ensures choices { (x : ℕ) → x < count → slice_index_or self.new.choices x None ≡ None }
    {
        self.lower[..count].fill(0);
        self.upper[..count].fill(0);
        self.choices[..count].fill(Choice::NONE);
    }

    /// All values are one, and all choices this arc.
    pub(crate) fn certain(&mut self, arc: ArcId, count: usize)
        requires arc { 1 ≤ arc }
        requires count { count ≤ 64 }
        ensures floors { (x : ℕ) → x < count → slice_index self.new.floors x ≡ ONE }
        ensures choices { (x : ℕ) → x < count
            → slice_index_or self.new.choices x None ≡ Some arc }
        ensures room { (length self.new.floors ≡ 64) × (length self.new.choices ≡ 64) }
    {
        self.floors[..count].fill(Grain::ONE);
        self.choices[..count].fill(Choice::new(arc));
    }
}

/// Each of the first best sums becomes the greater of itself and that of one arc more.
pub(crate) fn raise(sums: &[u128], bests: &mut [u128], count: usize)
    requires sums_room { count ≤ length sums.now }
    requires room { count ≤ length bests.old }
    ensures sums { (x : ℕ) → x < count
        → slice_index bests.new x ≡ max (slice_index bests.old x) (slice_index sums.now x) }
    ensures room { length bests.new ≡ length bests.old }
{
    for place in 0..count {
        if bests[place] < sums[place] {
            bests[place] = sums[place];
        }
    }
}

/// The same, and where the arc has more than all before it, it is the choice.
pub(crate) fn choose(
    arc: ArcId,
    sums: &[u128],
    bests: &mut [u128],
    choices: &mut [Choice],
    count: usize,
)
    requires arc { 1 ≤ arc }
    requires sums_room { count ≤ length sums.now }
    requires room { count ≤ length bests.old }
    requires choices_room { count ≤ length choices.old }
    ensures sums { (x : ℕ) → x < count
        → slice_index bests.new x ≡ max (slice_index bests.old x) (slice_index sums.now x) }
    ensures choices { (x : ℕ) → x < count → slice_index_or choices.new x None
        ≡ if nat_lt (slice_index bests.old x) (slice_index sums.now x)
        then Some arc else slice_index_or choices.old x None }
    ensures room { length bests.new ≡ length bests.old }
    ensures choices_room { length choices.new ≡ length choices.old }
{
    for place in 0..count {
        if bests[place] < sums[place] {
            bests[place] = sums[place];
            choices[place] = Choice::new(arc);
        }
    }
}
