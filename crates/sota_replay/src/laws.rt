// What is true of the definitions themselves. The functions do nothing but name the laws that they
// rest on: their contracts are the theorems.
ghost use Rattle.std.specs.Prelude.{ℕ, ◌≡◌, None, Some};
ghost use Rattle.rand_pcg.specs.Lcg.{Lcg};
ghost use Rattle.sota_network.specs.Network.{Net, IsNet};
ghost use Rattle.sota_network.specs.declared.network.Arc.{Arc};
ghost use Rattle.sota_polfile.specs.Table.{Table};
ghost use Rattle.sota_check.specs.Certified.{IsCertified, rule};
ghost use Rattle.sota_replay.specs.Trip.{road, trip_step, trip_from};

use sota_network::laws::arcs_by_number;

/// A trip is what its step makes of the trips with less of the budget left, since each traversal
/// takes a tick at least.
pub fn trips_recur()
    ensures { (net : Net) (table : Table) (i t : ℕ) (words : Lcg) → IsNet net
        → trip_from net table i t words ≡ trip_step net table (trip_from net table) i t words }
{
    arcs_by_number();
}

/// Where a policy holds, a trip leaves each node by one of its arcs, and has no choice only where
/// the policy has no entry or an entry without an arc.
pub fn certified_roads()
    ensures leaves { (net : Net) (table : Table) (i t : ℕ) (arc : Arc) → IsCertified net table
        → road net table i t ≡ Some arc → arc.tail ≡ i }
    ensures none { (net : Net) (table : Table) (i t : ℕ) → IsCertified net table
        → road net table i t ≡ None → rule table i t ≡ None }
{}
