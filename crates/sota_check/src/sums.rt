// What an arc is worth by the values of a policy.
ghost use Rattle.std.specs.Prelude.{ℕ, ◌≡◌, ◌*◌, ◌-◌, ◌^◌, ◌<◌, ◌≤◌};
ghost use Rattle.std.specs.List.{sum_by};
ghost use Rattle.sota_units.specs.Rounding.{ONE, SCALE_LIMIT};
ghost use Rattle.sota_hist.specs.Time.{total};
ghost use Rattle.sota_network.specs.Grid.{plain_sum};
ghost use Rattle.sota_check.specs.Certified.{value, claimed_value};

use crate::rows::row_near;
use sota_network::Arc;
use sota_polfile::{PolicyRow, PolicyTable};
use sota_units::{Grain, Mass, Scale, Tick};

/// What has a value at each budget, in units of 10^-18.
pub(crate) trait Values {
    /// The value at a budget.
    ghost value: { Self → ℕ → ℕ };

    /// The value at a budget.
    fn value_at(&self, budget: u32) -> u64
        ensures { result ≡ value self.now budget };
}

impl Values for PolicyRow {
    ghost value = { claimed_value };

    /// It is 0 where the row has no entry.
    fn value_at(&self, budget: u32) -> u64 {
        if budget < self.first {
            return 0;
        }
        match self.entries.as_slice().get((budget - self.first) as usize) {
            Some(entry) => entry.value,
            None => 0,
        }
    }
}

/// The plain sum of an arc at a budget, over the values of a policy.
pub(crate) fn arc_sum(table: &PolicyTable, arc: &Arc, budget: u32, near: &mut usize) -> u128
    requires { total arc.now.time ≤ SCALE_LIMIT }
    ensures value { result ≡ plain_sum arc.now (value table.now) budget }
    ensures within { result < 2 ^ 94 }
{
    let pairs = arc.time.within(Tick(budget));
    let head = arc.head.get();
    if head == table.head().dest {
        return whole_sum(pairs);
    }
    match row_near(table, head, near) {
        Some(row) => values_sum(row, pairs, budget),
        None => 0,
    }
}

/// The worth of pairs whose head is the destination.
pub(crate) fn whole_sum(pairs: &[(Tick, Mass)]) -> u128
    requires { total pairs.now ≤ SCALE_LIMIT }
    ensures value { result ≡ sum_by (λ p. p.1 * ONE) pairs.now }
    ensures within { result < 2 ^ 94 }
{
    let mut sum = 0;
    for (_, mass) in pairs {
        sum += u128::from(mass.get()) * u128::from(Grain::ONE.get());
    }
    sum
}

/// The worth of pairs whose head has these values.
pub(crate) fn values_sum<V: Values>(values: &V, pairs: &[(Tick, Mass)], budget: u32) -> u128
    requires { total pairs.now ≤ SCALE_LIMIT }
    ensures value { result ≡ sum_by (λ p. p.1 * V.value values.now (budget - p.0)) pairs.now }
    ensures within { result < 2 ^ 94 }
{
    let mut sum = 0;
    for (tick, mass) in pairs {
        let left = budget.saturating_sub(tick.get());
        sum += u128::from(mass.get()) * u128::from(values.value_at(left));
    }
    sum
}

/// What an arc has to be worth for a value.
pub(crate) fn needed(units: u64, scale: Scale) -> u128
    ensures value { result ≡ units * scale }
    ensures within { result < 2 ^ 94 }
    ensures limit { scale ≤ SCALE_LIMIT }
{
    u128::from(units) * u128::from(scale.get())
}
