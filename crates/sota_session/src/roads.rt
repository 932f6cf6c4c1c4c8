// The network of a session, and the least times that are kept of it.
ghost use Rattle.std.specs.Prelude.{◌≡◌, ◌≤◌, length, None, IsTrue};
ghost use Rattle.std.specs.Prelude.{IfErr, IfOk, IfSome, OnErr, OnOk};
ghost use Rattle.sota_hist.specs.Time.{IsTime, total};
ghost use Rattle.sota_network.specs.Network.{IsNet, IsNode, arc_at, replaced};
ghost use Rattle.sota_bounds.specs.Affected.{AreFirstAffected};
ghost use Rattle.sota_bounds.specs.Regions.{AreLeastTo};
ghost use Rattle.sota_session.specs.Roads.{KeepsTicks};

use sota_bounds::{affected, affected_by_least};
use sota_hist::Histogram;
use sota_kept::LeastTime;
use sota_kept::laws::edits_affect;
use sota_network::{Network, NoArc};
use sota_units::{ArcId, Items, NoMemory, NodeId, Tick};
use std::alloc::Global;
use std::marker::Model;

/// The least time from each node to a destination: that of node `i` stands at index `i - 1`.
#[derive(Drop)]
struct KeptTimes {
    dest: NodeId,
    times: Items<LeastTime>,
}

/// A network, seen as such. The least times to the destination of the last ask stay for the next
/// one, as far as no edit has changed them.
#[derive(Drop)]
pub(crate) struct Roads {
    network: Network,
    times: Option<KeptTimes>,
}

impl Model for Roads {
    ghost use Rattle.std.specs.Prelude.{IfSome};
    ghost use Rattle.sota_network.specs.Network.{Net};
    ghost use Rattle.sota_bounds.specs.Regions.{AreLeastTo};

    ghost Value = { Net };

    ghost view = { λ roads. roads.network };

    ghost invariant = { λ roads. IfSome roads.times (λ kept.
        AreLeastTo roads.network kept.dest kept.times) };
}

impl Roads {
    /// This network, of which no least times are known.
    pub(crate) fn new(network: Network) -> Roads
        ensures { result ≡ network }
    {
        Roads {
            network,
            times: None,
        }
    }

    /// The network.
    pub(crate) fn network(&self) -> &Network
        ensures { result.now ≡ self.now }
    {
        &self.network
    }

    /// Hands out the least times to a destination. None: they are not known.
    pub(crate) fn take_times(&mut self, dest: NodeId) -> Option<Items<LeastTime>>
        ensures same { self.new ≡ self.old }
        ensures times { IfSome result (λ times. AreLeastTo self.old dest times) }
    {
        let kept = self.times.take()?;
        if kept.dest == dest {
            Some(kept.times)
        } else {
            None
        }
    }

    /// Lends the least times to a destination. None: they are not known.
    fn times_to(&self, dest: NodeId) -> Option<&[LeastTime]>
        ensures { IfSome result (λ times. AreLeastTo self.now dest times.now) }
    {
        let known = self.times.as_ref()?;
        if known.dest == dest {
            Some(known.times.as_slice())
        } else {
            None
        }
    }

    /// Keeps the least times to a destination.
    pub(crate) fn keep_times(&mut self, dest: NodeId, times: Items<LeastTime>)
        requires { AreLeastTo self.old dest times }
        ensures { self.new ≡ self.old }
    {
        self.times = Some(KeptTimes { dest, times });
    }

    /// The first affected budget of each node, where an arc gets another time that differs from its
    /// own at no tick below `first`: one search where the least times to the destination are known.
    pub(crate) fn first_affected(
        &self,
        alloc: Global,
        dest: NodeId,
        arc: ArcId,
        first: Tick,
    ) -> Result<Vec<LeastTime>, NoMemory>
        requires dest { IsNode self.now dest }
        requires arc { (1 ≤ arc) × (arc ≤ length self.now.arcs) }
        ensures { IfOk result (λ budgets. AreFirstAffected self.now dest arc first budgets.items) }
    {
        match self.times_to(dest) {
            Some(times) => affected_by_least(alloc, &self.network, times, dest, arc, first),
            None => affected(alloc, &self.network, dest, arc, first),
        }
    }

    /// Gives an arc another time. Least times that it may change are kept no more.
    pub(crate) fn replace(&mut self, arc: ArcId, time: Histogram) -> Result<Histogram, NoArc>
        requires rises { IsTime time }
        requires total { total time ≤ self.old.scale }
        ensures replaced { OnOk result (self.new ≡ replaced self.old arc time) }
        ensures no_arc { IfErr result (λ refused. arc_at self.old arc ≡ None) }
        ensures unchanged { OnErr result (self.new ≡ self.old) }
        ensures valid { IsNet self.new }
    {
        edits_affect();
        let times = self.times.take();
        let stay = self.keeps_ticks(arc, &time);
        let old = self.network.replace(arc, time)?;
        if stay {
            self.times = times;
        }
        Ok(old)
    }

    /// Whether an arc is open with this time where it is open with its own, from the same tick on.
    fn keeps_ticks(&self, arc: ArcId, time: &Histogram) -> bool
        ensures ticks { IsTrue result → KeepsTicks self.now arc time.now }
        ensures valid { IsNet self.now }
    {
        let Some(edited) = self.network.arc(arc) else {
            return false;
        };
        if time.is_closed() || edited.time.is_closed() {
            return time.is_closed() && edited.time.is_closed();
        }
        time.least() == edited.time.least()
    }
}
