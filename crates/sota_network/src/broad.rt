// What an arc adds to the broad cells of an ask.
ghost use Rattle.std.specs.Prelude.{◌≡◌, ◌+◌, ◌*◌, ◌≤◌};
ghost use Rattle.sota_units.specs.Limits.{BUDGET_LIMIT};
ghost use Rattle.sota_hist.specs.Time.{IsTime};
ghost use Rattle.sota_network.specs.Region.{broad_at};

use crate::Arc;
use sota_hist::laws::times_rise;
use sota_units::Tick;

/// An arc with more pairs than these within the budget is broad.
const NARROW: usize = 32;

/// What an arc with so many pairs at its tail adds to the broad cells of an ask with this budget in
/// ticks: where it is broad, these pairs and the span of its ticks within the budget.
pub fn broad_at(arc: &Arc, pairs: u64, budget: u32) -> u64
    requires time { IsTime arc.now.time }
    requires budget { budget ≤ BUDGET_LIMIT }
    requires pairs { pairs ≤ BUDGET_LIMIT + 1 }
    ensures value { result ≡ broad_at budget pairs arc.now }
    ensures within { result ≤ 2 * (BUDGET_LIMIT + 1) }
{
    times_rise();
    if pairs == 0 {
        return 0;
    }
    let within = arc.time.within(Tick(budget));
    if within.len() <= NARROW {
        return 0;
    }
    let span = within[within.len() - 1].0.get() - within[0].0.get() + 1;
    pairs + u64::from(span)
}
