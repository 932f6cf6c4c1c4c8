// Feeds a summer values.
ghost use Rattle.std.specs.Prelude.{ℕ, ◌≡◌, ◌+◌, ◌<◌, ◌≤◌, max, List, length, slice_index};
ghost use Rattle.sota_units.specs.Rounding.{ONE};
ghost use Rattle.sota_fill.specs.Fed.{IsFed, IsSameSummer};

use sota_online::{Summer, Workspace};
use sota_units::{Grain, Steps};
use std::sync::ledger::Ledger;

/// Feeds a summer until so many values are fed: value `a` is that at the index `skip + a` of a row.
pub fn feed_row<Z: Summer, M: Ledger>(
    summer: &mut Z,
    row: &[Grain],
    skip: usize,
    count: u32,
    workspace: &mut Workspace,
    products: &mut Steps<M>,
)
    requires room { count ≤ length (Z.state summer.old).values + (Z.state summer.old).room }
    requires row { 0 < count → skip + count ≤ length row.now }
    requires limit { skip ≤ 65536 }
    requires work { length (Z.state summer.old).kernel ≤ workspace.old }
    ensures fed { (time : List (ℕ × ℕ)) (base : ℕ) (f : ℕ → ℕ)
        → IsFed (Z.state summer.old) time base f
        → ((a : ℕ) → a < count → slice_index row.now (skip + a) ≡ f (base + a))
        → IsFed (Z.state summer.new) time base f }
    ensures count { length (Z.state summer.new).values
        ≡ max (length (Z.state summer.old).values) count }
    ensures same { IsSameSummer (Z.state summer.old) (Z.state summer.new) }
    ensures work { workspace.new ≡ workspace.old }
{
    let fed = summer.fed();
    if fed < count {
        let from = skip + fed as usize;
        summer.feed_all(&row[from..skip + count as usize], workspace, products);
    }
}

/// Feeds a summer until so many values are fed: who stands at the destination has arrived.
pub fn feed_ones<Z: Summer, M: Ledger>(
    summer: &mut Z,
    count: u32,
    workspace: &mut Workspace,
    products: &mut Steps<M>,
)
    requires room { count ≤ length (Z.state summer.old).values + (Z.state summer.old).room }
    requires work { length (Z.state summer.old).kernel ≤ workspace.old }
    ensures fed { (time : List (ℕ × ℕ)) (base : ℕ) (f : ℕ → ℕ)
        → IsFed (Z.state summer.old) time base f
        → ((a : ℕ) → a < count → ONE ≡ f (base + a))
        → IsFed (Z.state summer.new) time base f }
    ensures count { length (Z.state summer.new).values
        ≡ max (length (Z.state summer.old).values) count }
    ensures same { IsSameSummer (Z.state summer.old) (Z.state summer.new) }
    ensures work { workspace.new ≡ workspace.old }
{
    let mut fed = summer.fed();
    while fed < count {
        summer.feed(Grain::ONE, workspace, products);
        fed += 1;
    }
}
