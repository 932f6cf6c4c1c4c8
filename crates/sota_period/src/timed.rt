// Networks whose travel times depend on the clock.
ghost use Rattle.std.specs.Prelude.{ℕ, ◌≡◌, ◌<◌, ◌≤◌, Some, None, length};
ghost use Rattle.std.specs.Prelude.{IfOk, IfErr, IfNone, OnOk};
ghost use Rattle.std.specs.List.{All};
ghost use Rattle.sota_units.specs.Limits.{NODE_LIMIT};
ghost use Rattle.sota_network.specs.Network.{IsNet};
ghost use Rattle.sota_period.specs.Periods.{ArePeriodsInOrder, ArePeriods, PERIOD_LIMIT};
ghost use Rattle.sota_period.specs.Periods.{first_net, scale_differs, start_at, net_at, period_at};

use sota_network::Network;
use std::marker::Model;

/// The masses of the period at this place, counted from 0, are over another denominator than those
/// of the first.
#[derive(Clone, Copy, Debug, PartialEq, Eq)]
pub struct ScaleDiffers(pub u32);

/// A road network with other travel times in each period of the clock.
#[derive(Drop)]
pub struct Timed {
    pub(crate) periods: Vec<(u32, Network)>,
}

impl Model for Timed {
    ghost use Rattle.std.specs.Prelude.{ℕ, List};
    ghost use Rattle.sota_network.specs.Network.{Net};
    ghost use Rattle.sota_period.specs.Periods.{ArePeriods};

    ghost Value = { List (ℕ × Net) };

    ghost view = { λ a. a.periods.items };

    ghost invariant = { λ a. ArePeriods a.periods.items };
}

impl Timed {
    /// The network of these periods, each with the tick of the clock at which it starts: from 1 to
    /// 32, the first from tick 0 on, in rising order, and all with the same nodes and ends of arcs.
    ///
    /// ScaleDiffers comes exactly where the denominator of one is not that of the first, with the
    /// first such place. It takes no memory.
    pub fn new(periods: Vec<(u32, Network)>) -> Result<Timed, ScaleDiffers>
        requires { ArePeriodsInOrder periods.items }
        ensures value { IfOk result (λ timed. timed ≡ periods.items) }
        ensures same { OnOk result (scale_differs periods.items ≡ None) }
        ensures differs { IfErr result (λ refused.
            scale_differs periods.items ≡ Some refused.0) }
    {
        match find_difference(&periods) {
            Some(place) => Err(ScaleDiffers(place)),
            None => Ok(Timed { periods }),
        }
    }

    /// The periods, each with the tick of the clock at which it starts.
    pub fn periods(&self) -> &[(u32, Network)]
        ensures value { result.now ≡ self.now }
        ensures valid { ArePeriods self.now }
    {
        &self.periods
    }

    /// The place, from 0, of the period at a tick of the clock.
    pub(crate) fn find_period(&self, clock: u32) -> usize
        ensures within { result < length self.now }
        ensures begun { start_at self.now result ≤ clock }
        ensures last { (k : ℕ) → result < k → k < length self.now → clock < start_at self.now k }
        ensures holds { net_at self.now clock ≡ period_at self.now result }
    {
        let periods = self.periods();
        let mut place = periods.len() - 1;
        while periods[place].0 > clock {
            place -= 1;
        }
        place
    }

    /// The number of nodes, the same in all periods.
    pub fn nodes(&self) -> u32
        ensures value { result ≡ (first_net self.now).nodes }
        ensures within { (1 ≤ (first_net self.now).nodes)
            × ((first_net self.now).nodes ≤ NODE_LIMIT) }
        ensures valid { ArePeriods self.now }
    {
        self.periods[0].1.nodes()
    }
}

/// The first place whose denominator is not that of the first.
fn find_difference(periods: &[(u32, Network)]) -> Option<u32>
    requires some { 1 ≤ length periods.now }
    requires few { length periods.now ≤ PERIOD_LIMIT }
    ensures value { result ≡ scale_differs periods.now }
    ensures valid { IfNone result (All (λ p. IsNet p.1) periods.now) }
    ensures same { IfNone result
        (All (λ p. p.1.scale ≡ (first_net periods.now).scale) periods.now) }
{
    let scale = periods[0].1.scale().get();
    for (place, period) in periods.iter().enumerate() {
        if period.1.scale().get() != scale {
            return Some(place as u32);
        }
    }
    None
}
