// What asks and edits keep. The functions do nothing: their contracts are the theorems.
ghost use Rattle.std.specs.Prelude.{ℕ, ◌≡◌, ◌≢◌, ◌+◌, ◌<◌, ◌≤◌, ◌⊎◌, min, max, true, false, Bool};
ghost use Rattle.std.specs.Prelude.{◌-◌, not, List, length, Some};
ghost use Rattle.std.specs.List.{sum};
ghost use Rattle.sota_units.specs.Limits.{BUDGET_LIMIT};
ghost use Rattle.sota_hist.specs.Time.{is_closed, least_tick};
ghost use Rattle.sota_network.specs.Network.{Net, IsNet, IsNode, arc_at, replaced};
ghost use Rattle.sota_network.specs.Grid.{lo, hi, choice};
ghost use Rattle.sota_network.specs.Reads.{Reads};
ghost use Rattle.sota_network.specs.Numbers.{listed};
ghost use Rattle.sota_network.specs.Region.{need};
ghost use Rattle.sota_network.specs.declared.network.Arc.{Arc};
ghost use Rattle.sota_kept.specs.Ticks.{END_LIMIT, least_to};
ghost use Rattle.sota_kept.specs.Edits.{first_affected, IsEdit};
ghost use Rattle.sota_kept.specs.NodeTables.{NodeTable, IsKeptAt, IsSettledAt, IsReadyAt, AreReady};
ghost use Rattle.sota_kept.specs.NodeTables.{IsExtent, IsGrownAt, known_end, lower_of, upper_of};
ghost use Rattle.sota_kept.specs.NodeTables.{next_of, lower_in, upper_in, emptied_table, cut_to};
ghost use Rattle.sota_kept.specs.NodeTables.{prepared_table, entry_from, push_at, filled_tables};
ghost use Rattle.sota_kept.specs.States.{State, prepared_state, grown_state, missing, after_edit};
ghost use Rattle.sota_kept.specs.States.{is_dest, started_state, based_state, cells_kept};
ghost use Rattle.sota_kept.specs.TableLists.{TableLists, AreTables, IsKept, IsSettled, table_of};
ghost use Rattle.sota_kept.specs.TableLists.{state_of};
ghost use Rattle.sota_kept.specs.Asks.{IsGridEntry, IsPrepared, IsGrown, left_to_push};

use crate::laws::network_laws;
use sota_network::laws::lists_by_number;

/// What is kept of a node stays right. No entry is right always, and a cut leaves right what was.
/// The first three steps of an ask make it ready, and an edit that cuts it to its first affected
/// budget leaves it right for the new network, whose least time is that of the old one as far as it
/// is below that budget.
pub fn node_tables_stay_right()
    ensures empty { (net : Net) (dest i : ℕ) (s : NodeTable) → s.base ≤ END_LIMIT
        → IsKeptAt net dest i (emptied_table s) }
    ensures prepared { (net : Net) (dest i : ℕ) (over : Bool) (s : NodeTable) → IsNet net
        → IsKeptAt net dest i s
        → IsReadyAt net dest i (prepared_table false over (least_to net dest i) s) }
    ensures begun { (net : Net) (dest i : ℕ) (over : Bool) (s : NodeTable) → IsNet net
        → s.base ≤ END_LIMIT
        → IsReadyAt net dest i (prepared_table true over (least_to net dest i) s) }
    ensures cut { (net : Net) (dest i front : ℕ) (s : NodeTable) → IsKeptAt net dest i s
        → IsKeptAt net dest i (cut_to front s) }
    ensures edited { (net : Net) (dest number first i front : ℕ) (arc : Arc)
        (time : List (ℕ × ℕ)) (s : NodeTable) → IsEdit net number arc first time
        → front ≤ first_affected net dest arc first i → IsKeptAt net dest i s
        → IsKeptAt (replaced net number time) dest i (cut_to front s) }
    ensures least { (net : Net) (dest number first i : ℕ) (arc : Arc) (time : List (ℕ × ℕ))
        → IsEdit net number arc first time
        → min (least_to (replaced net number time) dest i) (first_affected net dest arc first i)
        ≡ min (least_to net dest i) (first_affected net dest arc first i) }
{
    network_laws();
}

/// Below the known end of a settled node that is not the destination all is known.
pub fn settled_entries()
    ensures lower { (net : Net) (dest i t : ℕ) (s : NodeTable) → IsSettledAt net dest i s
        → t < known_end s → lower_of s t ≡ lo net dest i t }
    ensures upper { (net : Net) (dest i t : ℕ) (s : NodeTable) → IsSettledAt net dest i s
        → t < known_end s → upper_of s t ≡ hi net dest i t }
    ensures choice { (net : Net) (dest i t : ℕ) (s : NodeTable) → IsNet net → i ≢ dest
        → IsSettledAt net dest i s → t < known_end s → next_of s t ≡ choice net dest i t }
{
    network_laws();
}

/// An entry by the plain sums over tables whose known ends are above all that it reads is the
/// grid's, so that pushing it keeps the tables ready. An extent reads no more.
pub fn extents_fill()
    ensures known { (net : Net) (dest i to t j u : ℕ) (tables : ℕ → NodeTable) → IsNet net
        → IsExtent net dest tables i to → t < to → Reads net i t j u
        → (j ≡ dest) ⊎ (u < known_end (tables j)) }
    ensures entry { (net : Net) (dest i t : ℕ) (tables : ℕ → NodeTable) → IsNet net → i ≢ dest
        → AreReady net dest tables
        → ((j u : ℕ) → Reads net i t j u → (j ≡ dest) ⊎ (u < known_end (tables j)))
        → IsGridEntry net dest i t
        (entry_from net (lower_in dest tables) (upper_in dest tables) i t) }
    ensures push { (net : Net) (dest i : ℕ) (tables : ℕ → NodeTable) → IsNet net → i ≢ dest
        → AreReady net dest tables → known_end (tables i) < END_LIMIT
        → ((j u : ℕ) → Reads net i (known_end (tables i)) j u
        → (j ≡ dest) ⊎ (u < known_end (tables j)))
        → AreReady net dest (push_at net dest i tables) }
    ensures fill { (net : Net) (dest i to count : ℕ) (tables : ℕ → NodeTable) → IsNet net
        → i ≢ dest → AreReady net dest tables → to ≤ END_LIMIT → IsExtent net dest tables i to
        → known_end (tables i) + count ≤ to
        → AreReady net dest (filled_tables net dest i tables count) }
    ensures end { (net : Net) (dest i count : ℕ) (tables : ℕ → NodeTable)
        → known_end (filled_tables net dest i tables count i) ≡ known_end (tables i) + count }
    ensures others { (net : Net) (dest i count j : ℕ) (tables : ℕ → NodeTable) → j ≢ i
        → filled_tables net dest i tables count j ≡ tables j }
{
    network_laws();
}

/// The needs of an ask: each is above the least time of its node, and each open arc's head is known
/// or needed as far as its tail needs it. Once all are met, the fronts are those after the ask and
/// the last budget of the origin is known.
pub fn needs_are_met()
    ensures above { (net : Net) (origin dest last i : ℕ) → IsNet net → last ≤ BUDGET_LIMIT
        → (need net origin dest last i ≡ 0)
        ⊎ ((least_to net dest i < need net origin dest last i)
        × (need net origin dest last i ≤ END_LIMIT)) }
    ensures closed { (net : Net) (origin dest last i e : ℕ) (arc : Arc) (s : NodeTable)
        → IsNet net → last ≤ BUDGET_LIMIT → arc_at net e ≡ Some arc → arc.tail ≡ i
        → is_closed arc.time ≡ false → arc.head ≢ dest → IsReadyAt net dest arc.head s
        → need net origin dest last i
        ≤ max (known_end s) (need net origin dest last arc.head) + least_tick arc.time }
    ensures front { (net : Net) (origin dest last i : ℕ) (old new : NodeTable) → IsNet net
        → last ≤ BUDGET_LIMIT → IsReadyAt net dest i old
        → IsGrownAt (need net origin dest last i) old new
        → need net origin dest last i ≤ known_end new
        → new.front ≡ max old.front (need net origin dest last i) }
    ensures asked { (net : Net) (origin dest last : ℕ) (s : NodeTable) → IsNet net
        → last ≤ BUDGET_LIMIT → origin ≢ dest → IsReadyAt net dest origin s
        → need net origin dest last origin ≤ known_end s → last < known_end s }
{
    network_laws();
}

/// Tables that are right stay so, and their state is that of the definitions.
pub fn tables_stay_right()
    ensures edited { (net : Net) (number first dest : ℕ) (arc : Arc) (time : List (ℕ × ℕ))
        (old new : TableLists) → IsEdit net number arc first time → IsKept old net
        → old.dest ≡ Some dest → new.dest ≡ Some dest
        → (length new.fronts ≡ net.nodes) × (length new.bases ≡ net.nodes)
        → ((i : ℕ) → IsNode net i
        → table_of new i ≡ cut_to (first_affected net dest arc first i) (table_of old i))
        → IsKept new (replaced net number time) }
    ensures edited_state { (net : Net) (first dest : ℕ) (arc : Arc) (old new : TableLists)
        → old.dest ≡ Some dest → new.dest ≡ Some dest → new.bases ≡ old.bases
        → length new.fronts ≡ net.nodes
        → ((i : ℕ) → IsNode net i → (table_of new i).front
        ≡ min (table_of old i).front (first_affected net dest arc first i))
        → state_of new ≡ after_edit net arc first (state_of old) }
    ensures prepared { (net : Net) (origin dest last : ℕ) (old new : TableLists) → IsNet net
        → IsKept old net → AreTables old net.nodes → IsPrepared net origin dest last old new
        → AreReady net dest (table_of new) }
    ensures prepared_state { (net : Net) (origin dest last : ℕ) (old new : TableLists)
        → AreTables old net.nodes → IsPrepared net origin dest last old new
        → state_of new ≡ prepared_state net origin dest last (state_of old) }
    ensures cells { (net : Net) (origin dest last : ℕ) (old mid : TableLists)
        → AreTables old net.nodes
        → ((i : ℕ) → IsNode net i → table_of mid i
        ≡ prepared_table (not (is_dest old.dest dest)) false (least_to net dest i)
        (table_of old i))
        → cells_kept net origin dest last
        (based_state net dest (started_state net dest (state_of old)))
        ≡ sum (listed (λ i. max (table_of mid i).front (need net origin dest last i)
        - (table_of mid i).base) net.nodes) }
    ensures kept { (net : Net) (dest : ℕ) (held : TableLists) → IsNode net dest
        → held.dest ≡ Some dest → AreTables held net.nodes → AreReady net dest (table_of held)
        → IsKept held net }
    ensures settled { (net : Net) (dest : ℕ) (held : TableLists) → IsNode net dest
        → held.dest ≡ Some dest → AreTables held net.nodes → AreReady net dest (table_of held)
        → IsSettled held net }
{
    network_laws();
    lists_by_number();
}

/// Once the needs of an ask are met by extents, the state is that after its last step, and what is
/// left to push, which each entry lowers by one, is nothing.
pub fn asks_end()
    ensures state { (net : Net) (origin dest last : ℕ) (old new : TableLists) → IsNet net
        → last ≤ BUDGET_LIMIT → AreReady net dest (table_of old)
        → IsGrown net origin dest last old new
        → ((i : ℕ) → IsNode net i → need net origin dest last i ≤ known_end (table_of new i))
        → state_of new ≡ grown_state net origin dest last (state_of old) }
    ensures missing { (net : Net) (origin dest last : ℕ) (held : TableLists) (before : State)
        → state_of held ≡ prepared_state net origin dest last before
        → missing net origin dest last before
        ≡ left_to_push net origin dest last (table_of held) }
    ensures falls { (net : Net) (origin dest last i : ℕ) (old new : ℕ → NodeTable)
        → IsNode net i → known_end (old i) < need net origin dest last i
        → known_end (new i) ≡ known_end (old i) + 1 → ((j : ℕ) → j ≢ i → new j ≡ old j)
        → left_to_push net origin dest last old
        ≡ left_to_push net origin dest last new + 1 }
    ensures nothing { (net : Net) (origin dest last : ℕ) (tables : ℕ → NodeTable)
        → ((i : ℕ) → IsNode net i → need net origin dest last i ≤ known_end (tables i))
        → left_to_push net origin dest last tables ≡ 0 }
{
    network_laws();
    lists_by_number();
}
