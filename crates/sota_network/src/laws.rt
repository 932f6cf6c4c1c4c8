// What is true of the definitions themselves. The functions do nothing: their contracts are the
// theorems.
ghost use Rattle.std.specs.Prelude.{ℕ, ◌≡◌, ◌≢◌, ◌+◌, ◌-◌, ◌*◌, ◌^◌, ◌≤◌, ◌⊎◌, ◌↔◌, List, length};
ghost use Rattle.std.specs.Prelude.{slice_index_or, Bool, true, false, Option, Some, None};
ghost use Rattle.std.specs.List.{All, Contains};
ghost use Rattle.sota_units.specs.Rounding.{ONE, floor_by, ceiling_by};
ghost use Rattle.sota_hist.specs.Time.{IsTime, total, is_closed, least_tick};
ghost use Rattle.sota_network.specs.declared.network.Arc.{Arc};
ghost use Rattle.sota_network.specs.Network.{Net, IsNet, IsArc, arc_at, replaced};
ghost use Rattle.sota_network.specs.Numbers.{numbers};
ghost use Rattle.sota_network.specs.Grid.{lo, hi, choice, value_from, Causal, by_budget};
ghost use Rattle.sota_network.specs.Among.{AmongLaws};
ghost use Rattle.sota_network.specs.Grid.{best_of, best_sum, choice_of, plain_sum, IsFirstBest};
ghost use Rattle.sota_network.specs.Trees.{Encloses, Fits, Tree, follow, follow_step, score};
ghost use Rattle.sota_network.specs.Sound.{Sound, Covers};
ghost use Rattle.sota_network.specs.Walks.{Walk, IsLeastTime};
ghost use Rattle.sota_network.specs.Reach.{reaches, in_region};
ghost use Rattle.sota_network.specs.Reads.{Reads};
ghost use Rattle.sota_network.specs.Laws.{SumLaws, TickLaws, RoundLaws, ScoreLaws};
ghost use Rattle.sota_network.specs.Laws.{PairLaws, ListLaws};
ghost use Rattle.sota_network.specs.Region.{pairs_at, need, table_cells, broad_cells};
ghost use Rattle.sota_network.specs.Region.{is_between, pairs_between, need_between, HasLeastTimes};
ghost use Rattle.sota_network.specs.Examples.{triangle, chain, chain_tree, fork, late_route};
ghost use Rattle.sota_network.specs.Examples.{certain_route, twins, bridge, barrier};

/// How sums depend on their values, what ticks and the two roundings are bounded by, and what a
/// score is made of.
pub fn sums_and_scores()
    ensures sums { SumLaws }
    ensures ticks { TickLaws }
    ensures rounding { RoundLaws }
    ensures scores { ScoreLaws }
{}

/// A network stays one when the time of an arc is replaced, also by a closed one.
pub fn edits_keep_networks()
    ensures { (net : Net) (arc : ℕ) (time : List (ℕ × ℕ)) → IsNet net → IsTime time
        → total time ≤ net.scale → IsNet (replaced net arc time) }
{}

/// What has a number in a network is one of its arcs.
pub fn arcs_by_number()
    ensures { (net : Net) (number : ℕ) (arc : Arc) → IsNet net → arc_at net number ≡ Some arc
        → IsArc net arc }
{}

/// The numbers of the arcs that pass a test: each is that of such an arc, each such arc has one of
/// them, and they are no more than all arcs.
pub fn numbers_of_arcs()
    ensures only { (net : Net) (test : Arc → Bool)
        → All (λ e. (arc : Arc) × (arc_at net e ≡ Some arc) × (test arc ≡ true))
        (numbers test 1 net.arcs) }
    ensures all { (net : Net) (test : Arc → Bool) (e : ℕ) (arc : Arc) → arc_at net e ≡ Some arc
        → test arc ≡ true → Contains (numbers test 1 net.arcs) e }
    ensures few { (net : Net) (test : Arc → Bool)
        → length (numbers test 1 net.arcs) ≤ length net.arcs }
{}

/// What is chosen among the arcs that leave a node. None of them is worth more than the greatest
/// worth; where that is 0, and only there, none is chosen, and else the first that has it. Where
/// each has another, also of another network, that is worth less by at most g, so have the greatest
/// worths.
pub fn choices_by_worth()
    ensures greatest { (net : Net) (worth : Arc → ℕ) (e : ℕ) (arc : Arc) → arc_at net e ≡ Some arc
        → worth arc ≤ best_of net.arcs worth arc.tail }
    ensures none { (net : Net) (worth : Arc → ℕ) (i : ℕ)
        → (choice_of net.arcs worth i ≡ None) ↔ (best_of net.arcs worth i ≡ 0) }
    ensures found { (net : Net) (worth : Arc → ℕ) (i e : ℕ)
        → choice_of net.arcs worth i ≡ Some e → IsFirstBest net worth i e }
    ensures first { (net : Net) (worth : Arc → ℕ) (i e : ℕ) → IsFirstBest net worth i e
        → choice_of net.arcs worth i ≡ Some e }
    ensures near { (net other : Net) (worth worth_there : Arc → ℕ) (g i : ℕ)
        → ((e : ℕ) (arc : Arc) → arc_at net e ≡ Some arc → arc.tail ≡ i
        → (k : ℕ) × (there : Arc) × (arc_at other k ≡ Some there) × (there.tail ≡ i)
        × (worth arc ≤ worth_there there + g))
        → best_of net.arcs worth i ≤ best_of other.arcs worth_there i + g }
{}

/// A list of the values of a function, by number.
pub fn lists_by_number()
    ensures { ListLaws }
{}

/// The arcs that leave a node, looked at one after the other, come to the greatest worth there and
/// to the choice.
pub fn arcs_one_by_one()
    ensures { AmongLaws }
{}

/// How a bound of what a tree scores goes over the pairs of a time, one by one.
pub fn scores_by_pairs()
    ensures { PairLaws }
{}

/// What is repeated settles: where a step reads only smaller budgets, `by_budget` satisfies it.
pub fn steps_settle()
    ensures { (x : ℕ) (step : (ℕ → ℕ → ℕ) → ℕ → ℕ → ℕ) → Causal step → (i t : ℕ)
        → by_budget x step i t ≡ step (by_budget x step) i t }
{}

/// The values of the grid, and the tree of a rule, are what their recursion makes of those at
/// smaller budgets.
pub fn grid_recurs()
    ensures lower { (net : Net) (dest i t : ℕ) → IsNet net
        → lo net dest i t ≡ value_from floor_by net dest (lo net dest) i t }
    ensures upper { (net : Net) (dest i t : ℕ) → IsNet net
        → hi net dest i t ≡ value_from ceiling_by net dest (hi net dest) i t }
    ensures tree { (net : Net) (rule : ℕ → ℕ → Option ℕ) (dest i t : ℕ) → IsNet net
        → follow net rule dest i t ≡ follow_step net rule dest (follow net rule dest) i t }
{}

/// More time makes no value of the grid less.
pub fn values_rise()
    ensures lower { (net : Net) (dest i t u : ℕ) → IsNet net → t ≤ u
        → lo net dest i t ≤ lo net dest i u }
    ensures upper { (net : Net) (dest i t u : ℕ) → IsNet net → t ≤ u
        → hi net dest i t ≤ hi net dest i u }
{}

/// The two values of the grid enclose the greatest on-time probability of all decision trees, the
/// tree of the choices attains the lower one, and the two differ by at most two units a tick.
pub fn grid_encloses()
    ensures encloses { (net : Net) (dest i t : ℕ) → IsNet net
        → Encloses net dest i t (lo net dest i t) (hi net dest i t) }
    ensures fits { (net : Net) (rule : ℕ → ℕ → Option ℕ) (dest i t : ℕ) → IsNet net
        → Fits net i (follow net rule dest i t) }
    ensures attains { (net : Net) (dest i t : ℕ) → IsNet net
        → lo net dest i t * net.scale ^ t
        ≤ ONE * score net dest i t (follow net (choice net dest) dest i t) }
    ensures order { (net : Net) (dest i t : ℕ) → IsNet net → lo net dest i t ≤ hi net dest i t }
    ensures gap { (net : Net) (dest i t : ℕ) → IsNet net
        → hi net dest i t ≤ lo net dest i t + 2 * t }
    ensures whole { (net : Net) (dest i t : ℕ) → IsNet net → hi net dest i t ≤ ONE }
{}

/// A rule attains all values that it keeps up, and none of these exceeds one whole.
pub fn sound_values()
    ensures attained { (net : Net) (dest : ℕ) (values : ℕ → ℕ → ℕ) (rule : ℕ → ℕ → Option ℕ)
        → IsNet net → Sound net dest values rule → (i t : ℕ)
        → values i t * net.scale ^ t ≤ ONE * score net dest i t (follow net rule dest i t) }
    ensures whole { (net : Net) (dest : ℕ) (values : ℕ → ℕ → ℕ) (rule : ℕ → ℕ → Option ℕ)
        → IsNet net → Sound net dest values rule → (i t : ℕ) → values i t ≤ ONE }
{}

/// No decision tree exceeds values that no arc exceeds.
pub fn covering_values()
    ensures { (net : Net) (dest : ℕ) (values : ℕ → ℕ → ℕ) → IsNet net → Covers net dest values
        → (i t : ℕ) (tree : Tree) → Fits net i tree
        → ONE * score net dest i t tree ≤ values i t * net.scale ^ t }
{}

/// A node reaches another within a number of ticks exactly where the least ticks of some walk sum
/// to no more. Where the destination is not reached the grid's values are 0. One walk after another
/// is a walk.
pub fn reaches_by_walks()
    ensures walk { (net : Net) (dest i j t : ℕ) → IsNet net → reaches net dest j i t ≡ true
        → (n : ℕ) × Walk net dest i j n × (n ≤ t) }
    ensures reach { (net : Net) (dest i j t n : ℕ) → IsNet net → Walk net dest i j n → n ≤ t
        → reaches net dest j i t ≡ true }
    ensures below { (net : Net) (dest i t : ℕ) → IsNet net → reaches net dest dest i t ≡ false
        → hi net dest i t ≡ 0 }
    ensures joined { (net : Net) (dest i j k n m : ℕ) → Walk net dest i j n
        → Walk net dest j k m → Walk net dest i k (n + m) }
{}

/// Which budgets a node other than the destination has in the region of an ask, how many they are
/// and its need, by its least times to the destination and from the origin. The destination has
/// none.
pub fn region_by_least_times()
    ensures inside { (net : Net) (origin dest last i t : ℕ) (to from : Option ℕ) → IsNet net
        → i ≢ dest → IsLeastTime net dest i dest to → IsLeastTime net dest origin i from
        → in_region net origin dest last i t ≡ is_between last to from t }
    ensures pairs { (net : Net) (origin dest last i : ℕ) (to from : Option ℕ) → IsNet net
        → i ≢ dest → IsLeastTime net dest i dest to → IsLeastTime net dest origin i from
        → pairs_at net origin dest last i ≡ pairs_between last to from }
    ensures needs { (net : Net) (origin dest last i : ℕ) (to from : Option ℕ) → IsNet net
        → i ≢ dest → IsLeastTime net dest i dest to → IsLeastTime net dest origin i from
        → need net origin dest last i ≡ need_between last to from }
    ensures dest_pairs { (net : Net) (origin dest last : ℕ)
        → pairs_at net origin dest last dest ≡ 0 }
    ensures dest_need { (net : Net) (origin dest last : ℕ) → need net origin dest last dest ≡ 0 }
{}

/// A node with a pair in the region of an ask has both least times.
pub fn regions_have_least_times()
    ensures inside { (net : Net) (origin dest last i t : ℕ) → IsNet net
        → in_region net origin dest last i t ≡ true → HasLeastTimes net origin dest last i }
    ensures counted { (net : Net) (origin dest last i : ℕ) → IsNet net
        → 1 ≤ pairs_at net origin dest last i → HasLeastTimes net origin dest last i }
{}

/// An entry of the grid is made of the entries that it reads, out of any table that has these. Each
/// is read over an open arc, at a budget that its least tick leaves at most.
pub fn entries_of_reads()
    ensures lower { (net : Net) (dest i t : ℕ) (table : ℕ → ℕ → ℕ) → IsNet net → i ≢ dest
        → ((j u : ℕ) → Reads net i t j u → table j u ≡ lo net dest j u)
        → lo net dest i t ≡ floor_by net.scale (best_sum net table i t) }
    ensures upper { (net : Net) (dest i t : ℕ) (table : ℕ → ℕ → ℕ) → IsNet net → i ≢ dest
        → ((j u : ℕ) → Reads net i t j u → table j u ≡ hi net dest j u)
        → hi net dest i t ≡ ceiling_by net.scale (best_sum net table i t) }
    ensures choice { (net : Net) (dest i t : ℕ) (table : ℕ → ℕ → ℕ) → IsNet net → i ≢ dest
        → ((j u : ℕ) → Reads net i t j u → table j u ≡ lo net dest j u)
        → choice net dest i t ≡ choice_of net.arcs (λ arc. plain_sum arc table t) i }
    ensures left { (net : Net) (i t j u : ℕ) (reads : Reads net i t j u) → IsNet net
        → (is_closed reads.arc.time ≡ false) × (u + least_tick reads.arc.time ≤ t) }
{}

/// The region of an ask is enough: its entries read the region, the destination, and budgets below
/// the least time of a node, where all values are 0.
pub fn region_closes()
    ensures { (net : Net) (origin dest last i t j u : ℕ) → IsNet net
        → in_region net origin dest last i t ≡ true → Reads net i t j u
        → (j ≡ dest)
        ⊎ ((in_region net origin dest last j u ≡ true) ⊎ (reaches net dest dest j u ≡ false)) }
{}

/// The definitions, computed on small networks.
pub fn worked_examples()
    ensures triangle_too_late { (lo triangle 3 1 1 ≡ 0) × (hi triangle 3 1 1 ≡ 0)
        × (choice triangle 3 1 1 ≡ None) }
    ensures triangle_at_two { (lo triangle 3 1 2 ≡ 500000000000000000)
        × (hi triangle 3 1 2 ≡ 500000000000000000) × (choice triangle 3 1 2 ≡ Some 1) }
    ensures triangle_at_three { (lo triangle 3 1 3 ≡ 750000000000000000)
        × (hi triangle 3 1 3 ≡ 750000000000000000) × (choice triangle 3 1 3 ≡ Some 3) }
    ensures triangle_at_four { (lo triangle 3 1 4 ≡ ONE) × (hi triangle 3 1 4 ≡ ONE)
        × (choice triangle 3 1 4 ≡ Some 1) }

    // The exact probability is 1/9, between the two values.
    ensures chain_rounds { (lo chain 3 1 2 ≡ 111111111111111111)
        × (hi chain 3 1 2 ≡ 111111111111111112) }
    ensures chain_exact { (score chain 3 1 2 chain_tree ≡ 1) × (chain.scale ^ 2 ≡ 9) }

    // Who looks at the time of the first road gains 3/4, and each fixed route 1/2.
    ensures fork_policy { (score fork 3 1 3 (follow fork (choice fork 3) 3 1 3) ≡ 6)
        × (fork.scale ^ 3 ≡ 8) }
    ensures fork_routes { (score fork 3 1 3 late_route ≡ 4)
        × (score fork 3 1 3 certain_route ≡ 4) }

    // The least times to node 3 are 2, 1 and 0, and the region of an ask with 3 ticks has budgets 2
    // and 3 at node 1, 1 and 2 at node 2.
    ensures triangle_reach { (reaches triangle 3 3 1 1 ≡ false) × (reaches triangle 3 3 1 2 ≡ true)
        × (reaches triangle 3 3 2 0 ≡ false) × (reaches triangle 3 3 2 1 ≡ true)
        × (reaches triangle 3 3 3 0 ≡ true) }
    ensures triangle_needs { (need triangle 1 3 3 1 ≡ 4) × (need triangle 1 3 3 2 ≡ 3)
        × (need triangle 1 3 3 3 ≡ 0) }
    ensures triangle_cells { (table_cells triangle 1 3 3 ≡ 4) × (broad_cells triangle 1 3 3 ≡ 0) }

    // Of equals the first arc is chosen.
    ensures twins_first { choice twins 2 1 5 ≡ Some 1 }

    // However long the budget, a chance that is missing never arrives.
    ensures bridge_lost { (lo bridge 2 1 9 ≡ 750000000000000000)
        × (hi bridge 2 1 9 ≡ 750000000000000000) × (choice bridge 2 1 9 ≡ Some 1) }

    // A closed road is worth nothing, is not chosen, and reaches nothing.
    ensures barrier_closed { (lo barrier 2 1 9 ≡ 0) × (hi barrier 2 1 9 ≡ 0)
        × (choice barrier 2 1 9 ≡ None) × (reaches barrier 2 2 1 9 ≡ false) }
{}
