// How much time one must allow to arrive with a given chance.
ghost use Rattle.std.specs.Prelude.{ℕ, ◌≡◌, ◌+◌, ◌*◌, ◌<◌, ◌≤◌};
ghost use Rattle.std.specs.Prelude.{None, Some, Err, IfOk, IfErr, OnOk, OnErr};
ghost use Rattle.sota_units.specs.Memory.{IsFault};
ghost use Rattle.sota_network.specs.Network.{IsNet};
ghost use Rattle.sota_network.specs.Grid.{lo, hi};
ghost use Rattle.sota_network.specs.Region.{table_cells};
ghost use Rattle.sota_bounds.specs.AskFaults.{first_refusal, range_refusal, is_shortage};
ghost use Rattle.sota_bounds.specs.declared.fault.AskFault.TheVariants as asks;
ghost use Rattle.sota_quantile.specs.Needs.{ReachesWith, least_budget};

use crate::laws::needs_by_trees;
use crate::need::Need;
use crate::planned::plan;
use crate::search::find_least;
use sota_bounds::{AskFault, check_range};
use sota_network::Network;
use sota_network::laws::values_rise;
use sota_sums::Bound;
use sota_units::{Grain, NodeId, Steps};
use std::alloc::Global;
use std::sync::ledger::Ledger;

/// How much time one who stands at the origin must allow to be at the destination with the chance
/// `confidence`: the least budgets of at most `most` ticks at which the upper and the lower bound
/// of the grid are at least the confidence. No budget below the first reaches it, and the second
/// does: by decision trees, the least that does lies from the first to the second.
///
/// It is refused as an ask with the budget `most` is, and NoMemory comes for no need out of range.
/// What is planned stands in tables of its own; each table cell of that ask is three pushes. What
/// is multiplied is counted in `products`, of which nothing is promised.
pub fn least_budgets<M: Ledger, P: Ledger>(
    alloc: Global,
    network: &Network,
    origin: NodeId,
    dest: NodeId,
    confidence: Grain,
    most: u32,
    products: &mut Steps<M>,
    pushes: &mut Steps<P>,
) -> Result<Need, AskFault>
    ensures ok { OnOk result (first_refusal network.now origin dest most ≡ None) }
    ensures fault { IfErr result (λ fault.
        IsFault is_shortage (first_refusal network.now origin dest most) fault) }
    ensures memory { result ≡ Err asks.NoMemory
        → range_refusal network.now origin dest most ≡ None }
    ensures early { IfOk result (λ need.
        need.early ≡ least_budget (hi network.now dest origin) confidence most) }
    ensures sure { IfOk result (λ need.
        need.sure ≡ least_budget (lo network.now dest origin) confidence most) }
    ensures none { IfOk result (λ need. need.early ≡ None → (t : ℕ) → t ≤ most
        → ReachesWith network.now dest origin confidence t → ⊥) }
    ensures too_early { IfOk result (λ need. (a t : ℕ) → need.early ≡ Some a → t < a
        → ReachesWith network.now dest origin confidence t → ⊥) }
    ensures in_time { IfOk result (λ need. (b : ℕ) → need.sure ≡ Some b
        → ReachesWith network.now dest origin confidence b) }
    ensures count { OnOk result (pushes.new
        ≡ pushes.old + 3 * table_cells network.now origin dest most) }
    ensures refused { OnErr result (pushes.new ≡ pushes.old) }
    ensures valid { IsNet network.now }
{
    needs_by_trees();
    values_rise();
    check_range(network, origin, dest, most)?;
    let tables = plan(alloc, network, origin, dest, most, products, pushes)?;
    Ok(Need {
        early: find_least(&tables, origin, Bound::Upper, confidence, most),
        sure: find_least(&tables, origin, Bound::Lower, confidence, most),
    })
}
