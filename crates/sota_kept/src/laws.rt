// What is true of the definitions themselves. The functions do nothing: their contracts are the
// theorems.
ghost use Rattle.std.specs.Prelude.{ℕ, ◌≡◌, ◌<◌, ◌≤◌, nat_le, List, [], ◌∷◌, Option, Some};
ghost use Rattle.sota_hist.specs.Time.{is_closed, least_tick};
ghost use Rattle.sota_network.specs.Network.{Net, IsNet, arc_at, replaced};
ghost use Rattle.sota_network.specs.declared.network.Arc.{Arc};
ghost use Rattle.sota_network.specs.Walks.{IsLeastTime};
ghost use Rattle.sota_network.specs.Reach.{reaches};
ghost use Rattle.sota_network.specs.Examples.{triangle, barrier};
ghost use Rattle.sota_kept.specs.Laws.{Lawful};
ghost use Rattle.sota_kept.specs.Ticks.{END_LIMIT, ticks_to, least_to, up_to};
ghost use Rattle.sota_kept.specs.States.{first_state, after_ask, after_edit, missing};
ghost use Rattle.sota_kept.specs.Edits.{first_affected, first_affected_by, IsUnder};
ghost use Rattle.sota_kept.specs.Edits.{IsEdit, SameAt};

use sota_network::laws::{
    arcs_by_number, choices_by_worth, edits_keep_networks, entries_of_reads, grid_encloses,
    grid_recurs, reaches_by_walks, region_by_least_times, region_closes, sums_and_scores,
};

/// The laws of networks that are used here.
pub(crate) fn network_laws()
    ensures { (net : Net) → IsNet net → Lawful net }
{
    arcs_by_number();
    choices_by_worth();
    edits_keep_networks();
    entries_of_reads();
    grid_encloses();
    grid_recurs();
    reaches_by_walks();
    region_by_least_times();
    region_closes();
    sums_and_scores();
}

/// The first budget at which a node is reached is its least time.
pub fn least_ticks()
    ensures time { (net : Net) (dest limit j i : ℕ) (time : Option ℕ) → IsNet net
        → IsLeastTime net dest i j time → ticks_to net dest limit j i ≡ up_to limit time }
    ensures reach { (net : Net) (dest limit j i t : ℕ) → IsNet net → t < limit
        → reaches net dest j i t ≡ nat_le (ticks_to net dest limit j i) t }
    ensures most { (net : Net) (dest limit j i : ℕ) → IsNet net
        → ticks_to net dest limit j i ≤ limit }
{
    network_laws();
}

/// No entry below the first affected budget of its node changes when the time of an arc is
/// replaced. The times that make it up are those of the new network as well, and so are all least
/// times where the arc's least tick stays, and it stays open or closed.
pub fn edits_affect()
    ensures entries { (net : Net) (dest number first i t : ℕ) (arc : Arc) (time : List (ℕ × ℕ))
        (to onward : Option ℕ) → IsEdit net number arc first time
        → IsLeastTime net dest i arc.tail to → IsLeastTime net dest arc.head dest onward
        → IsUnder t (first_affected_by dest arc first i to onward)
        → SameAt net (replaced net number time) dest i t }
    ensures to_tail { (net : Net) (dest number first i : ℕ) (arc : Arc) (time : List (ℕ × ℕ))
        (to : Option ℕ) → IsEdit net number arc first time → IsLeastTime net dest i arc.tail to
        → IsLeastTime (replaced net number time) dest i arc.tail to }
    ensures from_head { (net : Net) (dest number first : ℕ) (arc : Arc) (time : List (ℕ × ℕ))
        (onward : Option ℕ) → IsEdit net number arc first time
        → IsLeastTime net dest arc.head dest onward
        → IsLeastTime (replaced net number time) dest arc.head dest onward }
    ensures same_tick { (net : Net) (dest number first i j : ℕ) (arc : Arc) (time : List (ℕ × ℕ))
        (least : Option ℕ) → IsEdit net number arc first time
        → least_tick time ≡ least_tick arc.time → is_closed time ≡ is_closed arc.time
        → IsLeastTime net dest i j least
        → IsLeastTime (replaced net number time) dest i j least }
    ensures up_to_limit { (net : Net) (dest first i : ℕ) (arc : Arc) (to onward : Option ℕ)
        → IsNet net → IsLeastTime net dest i arc.tail to
        → IsLeastTime net dest arc.head dest onward
        → first_affected net dest arc first i
        ≡ up_to END_LIMIT (first_affected_by dest arc first i to onward) }
{
    network_laws();
}

/// The definitions, computed on small networks.
pub fn worked_states()
    ensures times { (least_to triangle 3 1 ≡ 2) × (least_to triangle 3 2 ≡ 1)
        × (least_to triangle 3 3 ≡ 0) }
    ensures affected { (first_affected triangle 3
        (record { tail = 2; head = 3; time = (1, 2) ∷ (3, 2) ∷ [] }) 1 1 ≡ 2)
        × (first_affected triangle 3
        (record { tail = 2; head = 3; time = (1, 2) ∷ (3, 2) ∷ [] }) 1 2 ≡ 1)
        × (first_affected triangle 3
        (record { tail = 2; head = 3; time = (1, 2) ∷ (3, 2) ∷ [] }) 1 3 ≡ END_LIMIT) }

    // From node 1 to node 3 in 2 ticks a need of 3 and one of 2 are met by one entry each. An edit
    // of the second arc takes both.
    ensures first_ask { after_ask triangle 1 3 2 (first_state 3) ≡ record {
      dest = Some 3;
      fronts = 3 ∷ 2 ∷ 0 ∷ [];
      bases = 2 ∷ 1 ∷ 0 ∷ [];
    } }
    ensures first_missing { missing triangle 1 3 2 (first_state 3) ≡ 2 }
    ensures edit { after_edit triangle
        (record { tail = 2; head = 3; time = (1, 2) ∷ (3, 2) ∷ [] }) 1
        (record { dest = Some 3; fronts = 3 ∷ 2 ∷ 0 ∷ []; bases = 2 ∷ 1 ∷ 0 ∷ [] })
        ≡ record { dest = Some 3; fronts = 2 ∷ 1 ∷ 0 ∷ []; bases = 2 ∷ 1 ∷ 0 ∷ [] } }

    // A longer ask adds what is missing, and a shorter one nothing.
    ensures later_asks { (missing triangle 1 3 3 (first_state 3) ≡ 4)
        × (missing triangle 1 3 9 (after_ask triangle 1 3 3 (first_state 3)) ≡ 12)
        × (missing triangle 1 3 4
        (after_ask triangle 1 3 9 (after_ask triangle 1 3 3 (first_state 3))) ≡ 0) }

    // An edit at the second tick of the third arc leaves what stands below 5 at its tail, and all
    // at node 2.
    ensures other_edit { after_edit triangle
        (record { tail = 1; head = 3; time = (3, 3) ∷ (5, 1) ∷ [] }) 5
        (after_ask triangle 1 3 9 (first_state 3))
        ≡ record { dest = Some 3; fronts = 5 ∷ 9 ∷ 0 ∷ []; bases = 2 ∷ 1 ∷ 0 ∷ [] } }

    // Over a closed arc nothing is reached, and nothing is needed.
    ensures closed { (least_to barrier 2 1 ≡ END_LIMIT)
        × (missing barrier 1 2 9 (first_state 2) ≡ 0) }
{}
