// Two bounds of the chance of a route.
ghost use Rattle.std.specs.Prelude.{ℕ, ◌≡◌, ◌+◌, ◌<◌, ◌≤◌, length, slice_index};
ghost use Rattle.std.specs.Prelude.{Some, None, IfOk};
ghost use Rattle.std.specs.List.{All};
ghost use Rattle.sota_units.specs.Limits.{BUDGET_LIMIT};
ghost use Rattle.sota_units.specs.Memory.{Answers};
ghost use Rattle.sota_units.specs.Rounding.{ONE};
ghost use Rattle.sota_hist.specs.Time.{IsTime, total};
ghost use Rattle.sota_network.specs.Network.{Net};
ghost use Rattle.sota_network.specs.Grid.{weighed};
ghost use Rattle.sota_sums.specs.Bounds.{rounded_in};
ghost use Rattle.sota_route.specs.Faults.{is_shortage};
ghost use Rattle.sota_route.specs.Routes.{start_of};
ghost use Rattle.sota_route.specs.Bounds.{route_result, route_value, value_before, IsRouteBracket};

use crate::fault::{RouteFault, find_route_fault};
use crate::laws::routes_are_enclosed;
use sota_hist::Histogram;
use sota_network::laws::{arcs_by_number, sums_and_scores};
use sota_network::{Arc, Network};
use sota_sums::{Bound, arc_sums, round};
use sota_units::{ArcId, Grain, NoMemory, NodeId, Scale};
use std::alloc::Global;

/// Two bounds of the chance of keeping to a route.
#[derive(Clone, Copy, Debug, PartialEq, Eq)]
pub struct RouteAnswer {
    pub lower: Grain,
    pub upper: Grain,
}

/// Brackets the chance to be at the destination within the budget, in ticks, for who takes the arcs
/// of a route one after the other, whatever time they take.
///
/// NoDest, Budget, RouteArcs, NoLeg, Broken and NotThere come exactly where they say, the first of
/// them that stands; NoLeg and Broken for the first place at which one of them does.
///
/// It takes time in the pairs of the route's arcs times the budget, and memory for a value at each
/// budget.
pub fn route_bracket(
    alloc: Global,
    network: &Network,
    dest: NodeId,
    budget: u32,
    route: &[ArcId],
) -> Result<RouteAnswer, RouteFault>
    ensures value { Answers is_shortage result (route_result network.now dest budget route.now) }
    ensures bracket { IfOk result (λ answer. (o : ℕ) → start_of network.now route.now ≡ Some o
        → IsRouteBracket network.now dest route.now o budget answer) }
{
    routes_are_enclosed();
    if let Some(fault) = find_route_fault(network, dest, budget, route) {
        return Err(fault);
    }
    Ok(RouteAnswer {
        lower: bound_of(alloc, network, dest, budget, route, Bound::Lower)?,
        upper: bound_of(alloc, network, dest, budget, route, Bound::Upper)?,
    })
}

/// One of the two bounds: the values at all budgets are taken back over the route, from its last
/// arc to its first.
fn bound_of(
    alloc: Global,
    network: &Network,
    dest: NodeId,
    budget: u32,
    route: &[ArcId],
    bound: Bound,
) -> Result<Grain, NoMemory>
    requires budget { budget ≤ BUDGET_LIMIT }
    requires arcs { All (λ e. (1 ≤ e) × (e ≤ length network.now.arcs)) route.now }
    ensures { IfOk result (λ value.
        value ≡ route_value (rounded_in bound) network.now dest route.now budget) }
{
    let mut values = vec![in alloc; Grain::ONE; budget as usize + 1]?;
    take_all_back(network, dest, bound, route, values.as_mut_slice());
    Ok(values[budget as usize])
}

/// Takes the values at the end of a route back to its beginning, at the budgets from 0 on.
fn take_all_back(
    network: &Network,
    dest: NodeId,
    bound: Bound,
    route: &[ArcId],
    values: &mut [Grain],
)
    requires budgets { length values.old ≤ BUDGET_LIMIT + 1 }
    requires arcs { All (λ e. (1 ≤ e) × (e ≤ length network.now.arcs)) route.now }
    requires ones { (u : ℕ) → u < length values.old → slice_index values.old u ≡ ONE }
    ensures value { (u : ℕ) → u < length values.old → slice_index values.new u
        ≡ route_value (rounded_in bound) network.now dest route.now u }
    ensures length { length values.new ≡ length values.old }
{
    arcs_by_number();
    sums_and_scores();
    let scale = network.scale();
    let mut left = route.len();
    while left > 0 {
        left -= 1;
        let arc = network.numbered(route[left]);
        take_back(arc, scale, dest, bound, values);
    }
}

/// Takes the values after an arc back to those before it, at the budgets from 0 on.
fn take_back(arc: &Arc, scale: Scale, dest: NodeId, bound: Bound, values: &mut [Grain])
    requires budgets { length values.old ≤ BUDGET_LIMIT + 1 }
    requires rises { IsTime arc.now.time }
    requires total { total arc.now.time ≤ scale }
    requires whole { (u : ℕ) → u < length values.old → slice_index values.old u ≤ ONE }
    ensures value { (net : Net) (u : ℕ) → net.scale ≡ scale → u < length values.old
        → slice_index values.new u ≡ value_before (rounded_in bound) net dest arc.now
        (λ x. slice_index values.old x) u }
    ensures length { length values.new ≡ length values.old }
{
    if arc.tail == dest {
        values.fill(Grain::ONE);
    } else {
        weigh(&arc.time, scale, bound, values);
    }
}

/// At how many budgets sums are made together.
const PART: usize = 64;

/// Makes the value at each budget the rounded sum of a time over the values before. A sum reads
/// only smaller budgets, so it goes from the last budget to the first.
fn weigh(time: &Histogram, scale: Scale, bound: Bound, values: &mut [Grain])
    requires budgets { length values.old ≤ BUDGET_LIMIT + 1 }
    requires rises { IsTime time.now }
    requires total { total time.now ≤ scale }
    requires whole { (u : ℕ) → u < length values.old → slice_index values.old u ≤ ONE }
    ensures value { (u : ℕ) → u < length values.old → slice_index values.new u
        ≡ rounded_in bound scale (weighed (λ x. slice_index values.old x) u time.now) }
    ensures length { length values.new ≡ length values.old }
{
    sums_and_scores();
    let mut sums = [0u128; PART];
    let mut end = values.len();
    while end > 0 {
        let count = end.min(PART);
        end -= count;
        weigh_part(time, scale, bound, end, &mut sums[..count], values);
    }
}

/// The same at as many budgets as there is room for sums, from one on.
fn weigh_part(
    time: &Histogram,
    scale: Scale,
    bound: Bound,
    from: usize,
    sums: &mut [u128],
    values: &mut [Grain],
)
    requires room { from + length sums.old ≤ length values.old }
    requires budgets { length values.old ≤ BUDGET_LIMIT + 1 }
    requires rises { IsTime time.now }
    requires total { total time.now ≤ scale }
    requires whole { (u : ℕ) → u < from + length sums.old → slice_index values.old u ≤ ONE }
    ensures value { (x : ℕ) → x < length sums.old → slice_index values.new (from + x)
        ≡ rounded_in bound scale (weighed (λ u. slice_index values.old u) (from + x) time.now) }
    ensures before { (u : ℕ) → u < from → slice_index values.new u ≡ slice_index values.old u }
    ensures after { (u : ℕ) → from + length sums.old ≤ u
        → slice_index values.new u ≡ slice_index values.old u }
    ensures length { length values.new ≡ length values.old }
{
    sums_and_scores();
    let end = from + sums.len();
    arc_sums(time, values, 0, from as u32, sums);
    round(sums, scale, bound, &mut values[from..end], sums.len());
}
