// Tables of bounds and choices.
ghost use Rattle.std.specs.Prelude.{ℕ, ◌≡◌, ◌≢◌, ◌+◌, ◌-◌, ◌*◌, ◌<◌, ◌≤◌, true, false};
ghost use Rattle.std.specs.Prelude.{length, slice_index, nat_lt, if◌then◌else◌, IfOk, OnOk, IsTrue};
ghost use Rattle.std.specs.Prelude.{None, Some};
ghost use Rattle.std.specs.List.{All, sum};
ghost use Rattle.sota_units.specs.Limits.{NODE_LIMIT};
ghost use Rattle.sota_units.specs.Rounding.{ONE};
ghost use Rattle.sota_bank.specs.Rows.{list_at, lists};
ghost use Rattle.sota_kept.specs.Ticks.{END_LIMIT};
ghost use Rattle.sota_kept.specs.States.{KEPT_LIMIT};
ghost use Rattle.sota_kept.specs.NodeTables.{known_end, cut_to, pushed_table};
ghost use Rattle.sota_kept.specs.NodeTables.{emptied_table, rebased_table};
ghost use Rattle.sota_tables.specs.Views.{TablesView, IsTablesView, HasNode, OnlyAt, SameNodes};
ghost use Rattle.sota_tables.specs.Views.{SameRooms, IsKnownAt, Spans, lists_of, table_at};
ghost use Rattle.sota_tables.specs.Views.{is_at_dest, known_lower, known_upper, choice_in, room_of};
ghost use Rattle.sota_tables.specs.Views.{rows_needed, HasRoom, HasRoomUpTo, longer_table};

use sota_bank::RowBank;
use sota_network::Choice;
use sota_network::laws::lists_by_number;
use sota_units::{ArcId, BUDGET_LIMIT, Grain, NoMemory, NodeId, Steps};
use std::alloc::Global;
use std::marker::Model;
use std::sync::ledger::Ledger;

/// For each node two bounds and a choice at the budgets from its base up to its front, towards one
/// destination. Budgets are in ticks.
#[derive(Drop)]
pub struct Tables {
    dest: Option<NodeId>,
    fronts: Vec<u32>,
    bases: Vec<u32>,
    lower: RowBank<Grain>,
    upper: RowBank<Grain>,
    choices: RowBank<Choice>,
}

impl Model for Tables {
    ghost use Rattle.sota_tables.specs.Views.{TablesView, IsTablesView};

    ghost Value = { TablesView };

    ghost view = { λ t. record {
      dest = t.dest;
      fronts = t.fronts.items;
      bases = t.bases.items;
      lower = t.lower;
      upper = t.upper;
      choices = t.choices;
    } };

    ghost invariant = { λ t. IsTablesView (record {
      dest = t.dest;
      fronts = t.fronts.items;
      bases = t.bases.items;
      lower = t.lower;
      upper = t.upper;
      choices = t.choices;
    }) };
}

/// The base of a node of which nothing is kept yet: one above the greatest budget.
const NO_BASE: u32 = BUDGET_LIMIT + 1;

impl Tables {
    /// Tables of so many nodes, with no destination and no entry.
    pub fn new(alloc: Global, nodes: u32) -> Result<Tables, NoMemory>
        requires { nodes ≤ NODE_LIMIT }
        ensures dest { IfOk result (λ t. t.dest ≡ None) }
        ensures nodes { IfOk result (λ t. length t.fronts ≡ nodes) }
        ensures bases { IfOk result (λ t. length t.bases ≡ nodes) }
        ensures fronts { IfOk result (λ t. (i : ℕ) → HasNode t i → (table_at t i).front ≡ 0) }
        ensures base { IfOk result (λ t. (i : ℕ) → HasNode t i
            → (table_at t i).base ≡ END_LIMIT) }
    {
        let caps = vec![in alloc; 0; nodes as usize]?;
        Ok(Tables {
            dest: None,
            fronts: vec![in alloc; 0; nodes as usize]?,
            bases: vec![in alloc; NO_BASE; nodes as usize]?,
            lower: RowBank::new(alloc, &caps)?,
            upper: RowBank::new(alloc, &caps)?,
            choices: RowBank::new(alloc, &caps)?,
        })
    }

    /// The destination. None exactly where there is none.
    pub fn dest(&self) -> Option<NodeId>
        ensures value { result ≡ self.now.dest }
        ensures valid { IsTablesView self.now }
    {
        self.dest
    }

    /// The front of a node: one above its last budget with an entry.
    pub fn front(&self, node: NodeId) -> u32
        requires { HasNode self.now node }
        ensures value { result ≡ (table_at self.now node).front }
        ensures valid { IsTablesView self.now }
    {
        self.fronts[node.get() as usize - 1]
    }

    /// The base of a node: its first budget with an entry, where it has one.
    pub fn base(&self, node: NodeId) -> u32
        requires { HasNode self.now node }
        ensures value { result ≡ (table_at self.now node).base }
        ensures valid { IsTablesView self.now }
    {
        self.bases[node.get() as usize - 1]
    }

    /// The known end of a node: below this budget all is known.
    fn known_end(&self, node: NodeId) -> u32
        requires { HasNode self.now node }
        ensures { result ≡ known_end (table_at self.now node) }
    {
        self.front(node).max(self.base(node))
    }

    /// Lends the fronts of all nodes: that of node `i` stands at index `i - 1`.
    pub fn fronts(&self) -> &[u32]
        ensures value { result.now ≡ self.now.fronts }
        ensures valid { IsTablesView self.now }
    {
        self.fronts.as_slice()
    }

    /// Lends the bases of all nodes: that of node `i` stands at index `i - 1`.
    pub fn bases(&self) -> &[u32]
        ensures value { result.now ≡ self.now.bases }
        ensures valid { IsTablesView self.now }
    {
        self.bases.as_slice()
    }

    /// Lends the lower bounds of a node, from its base on.
    pub fn lower_row(&self, node: NodeId) -> &[Grain]
        requires { HasNode self.now node }
        ensures value { result.now ≡ (table_at self.now node).lower }
        ensures length { Spans result.now (table_at self.now node) }
    {
        self.lower.front(node.get() as usize - 1)
    }

    /// Lends the upper bounds of a node, from its base on.
    pub fn upper_row(&self, node: NodeId) -> &[Grain]
        requires { HasNode self.now node }
        ensures value { result.now ≡ (table_at self.now node).upper }
        ensures length { Spans result.now (table_at self.now node) }
    {
        self.upper.front(node.get() as usize - 1)
    }

    /// Lends the choices of a node, from its base on.
    pub fn choice_row(&self, node: NodeId) -> &[Choice]
        requires { HasNode self.now node }
        ensures value { result.now ≡ (table_at self.now node).choices }
        ensures length { Spans result.now (table_at self.now node) }
    {
        self.choices.front(node.get() as usize - 1)
    }

    /// The lower bound at a budget that is known: one at the destination, and 0 where there is no
    /// entry.
    pub fn lower(&self, node: NodeId, budget: u32) -> Grain
        requires { IsKnownAt self.now node budget }
        ensures { result ≡ known_lower self.now node budget }
    {
        self.value_at(self.lower_row(node), node, budget)
    }

    /// The upper bound at a budget that is known: one at the destination, and 0 where there is no
    /// entry.
    pub fn upper(&self, node: NodeId, budget: u32) -> Grain
        requires { IsKnownAt self.now node budget }
        ensures { result ≡ known_upper self.now node budget }
    {
        self.value_at(self.upper_row(node), node, budget)
    }

    /// The choice at a budget that is known. None at the destination, and where there is no entry.
    pub fn choice(&self, node: NodeId, budget: u32) -> Option<ArcId>
        requires { IsKnownAt self.now node budget }
        ensures { result ≡ choice_in self.now node budget }
    {
        let index = node.get() as usize - 1;
        let base = self.bases[index];
        if self.is_at_dest(node) || budget < base {
            return None;
        }
        self.choices.front(index)[(budget - base) as usize].get()
    }

    /// The value of a node at a budget, in a row from its base on.
    fn value_at(&self, row: &[Grain], node: NodeId, budget: u32) -> Grain
        requires known { IsKnownAt self.now node budget }
        requires row { Spans row.now (table_at self.now node) }
        ensures { result ≡ if is_at_dest self.now.dest node then ONE else
            if nat_lt budget (table_at self.now node).base then 0
            else slice_index row.now (budget - (table_at self.now node).base) }
    {
        let base = self.bases[node.get() as usize - 1];
        if self.is_at_dest(node) {
            return Grain::ONE;
        }
        if budget < base {
            return Grain::ZERO;
        }
        row[(budget - base) as usize]
    }

    /// Whether this node is the destination.
    fn is_at_dest(&self, node: NodeId) -> bool
        ensures { result ≡ is_at_dest self.now.dest node }
    {
        match self.dest {
            Some(dest) => node == dest,
            None => false,
        }
    }

    /// Sets the destination, and keeps no entry.
    pub fn start(&mut self, dest: NodeId)
        ensures dest { self.new.dest ≡ Some dest }
        ensures nodes { (length self.new.fronts ≡ length self.old.fronts)
            × (length self.new.bases ≡ length self.old.bases) }
        ensures tables { (i : ℕ) → HasNode self.old i
            → table_at self.new i ≡ emptied_table (table_at self.old i) }
    {
        self.dest = Some(dest);
        let count = self.fronts.len();
        for index in 0..count {
            self.cut_to(NodeId(index as u32 + 1), 0);
        }
    }

    /// Each node whose front is at most the number given takes it as its base, and keeps no entry.
    /// The number of node `i` stands at index `i - 1`.
    pub fn rebase(&mut self, bases: &[u32])
        requires nodes { length bases.now ≡ length self.old.fronts }
        requires limit { All (λ base. base ≤ END_LIMIT) bases.now }
        ensures nodes { SameNodes self.old self.new }
        ensures tables { (i : ℕ) → HasNode self.old i → table_at self.new i
            ≡ rebased_table (slice_index bases.now (i - 1)) (table_at self.old i) }
    {
        let count = self.fronts.len();
        for index in 0..count {
            self.rebase_node(NodeId(index as u32 + 1), bases[index]);
        }
    }

    /// A node whose front is at most this base takes it, and keeps no entry. Where that is its base
    /// it keeps none already, and no row is touched.
    fn rebase_node(&mut self, node: NodeId, base: u32)
        requires node { HasNode self.old node }
        requires limit { base ≤ END_LIMIT }
        ensures entries { table_at self.new node ≡ rebased_table base (table_at self.old node) }
        ensures others { OnlyAt node self.old self.new }
    {
        let index = node.get() as usize - 1;
        if self.fronts[index] <= base && self.bases[index] != base {
            self.lower.cut(index, 0);
            self.upper.cut(index, 0);
            self.choices.cut(index, 0);
            self.bases[index] = base;
        }
    }

    /// Makes room up to each need: that of node `i` stands at index `i - 1`. All but the room
    /// stays, on a refusal too. No row is moved where each has room already.
    pub fn regrow(&mut self, needs: &[u32]) -> Result<(), NoMemory>
        requires nodes { length needs.now ≡ length self.old.fronts }
        requires total { sum (rows_needed self.old needs.now) ≤ KEPT_LIMIT }
        ensures same { lists_of self.new ≡ lists_of self.old }
        ensures room { OnOk result (HasRoomUpTo needs.now self.old self.new) }
    {
        lists_by_number();
        if self.has_room_up_to(needs) {
            return Ok(());
        }
        let caps = self.rows_needed(needs)?;
        grow(&mut self.lower, &caps)?;
        grow(&mut self.upper, &caps)?;
        grow(&mut self.choices, &caps)?;
        Ok(())
    }

    /// Whether each node has room up to its need. A row is looked at only where its node is not
    /// known so far.
    fn has_room_up_to(&self, needs: &[u32]) -> bool
        requires { length needs.now ≡ length self.now.fronts }
        ensures { IsTrue result → HasRoomUpTo needs.now self.now self.now }
    {
        let count = self.fronts().len();
        for index in 0..count {
            if !self.has_row_up_to(NodeId(index as u32 + 1), needs[index]) {
                return false;
            }
        }
        true
    }

    /// Whether a node has room up to this need.
    fn has_row_up_to(&self, node: NodeId, need: u32) -> bool
        requires { HasNode self.now node }
        ensures { IsTrue result
            → need - known_end (table_at self.now node) ≤ room_of self.now node }
    {
        let index = node.get() as usize - 1;
        if need <= self.fronts[index] {
            return true;
        }
        let length = need.saturating_sub(self.bases[index]);
        length <= self.lower.cap(index)
            && length <= self.upper.cap(index)
            && length <= self.choices.cap(index)
    }

    /// How long each row becomes, up to its need.
    fn rows_needed(&self, needs: &[u32]) -> Result<Vec<u32>, NoMemory>
        requires { length needs.now ≡ length self.now.fronts }
        ensures { IfOk result (λ caps. caps.items ≡ rows_needed self.now needs.now) }
    {
        let alloc = *self.fronts.allocator();
        let mut caps = Vec::with_capacity(alloc, needs.len())?;
        for index in 0..needs.len() {
            let end = self.fronts[index].max(needs[index]);
            caps.push(end.saturating_sub(self.bases[index]))?;
        }
        Ok(caps)
    }

    /// Adds an entry of a node at its known end.
    pub fn push_entry<P: Ledger>(
        &mut self,
        node: NodeId,
        lower: Grain,
        upper: Grain,
        choice: Option<ArcId>,
        pushes: &mut Steps<P>,
    )
        requires node { HasNode self.old node }
        requires choice { choice ≢ Some 0 }
        requires room { 1 ≤ room_of self.old node }
        requires end { known_end (table_at self.old node) < END_LIMIT }
        ensures entry { table_at self.new node
            ≡ pushed_table (record { lower = lower; upper = upper; choice = choice })
            (table_at self.old node) }
        ensures others { OnlyAt node self.old self.new }
        ensures room { room_of self.new node + 1 ≡ room_of self.old node }
        ensures rooms { SameRooms node self.old self.new }
        ensures count { pushes.new ≡ pushes.old + 3 }
    {
        let index = node.get() as usize - 1;
        let end = self.known_end(node);
        self.lower.push(index, lower, pushes);
        self.upper.push(index, upper, pushes);
        self.choices.push(index, Choice::of(choice), pushes);
        self.fronts[index] = end + 1;
    }

    /// Adds the entries of an extent at once, from the known end of a node on. It counts what as
    /// many calls of `push_entry` would.
    pub fn push_extent<P: Ledger>(
        &mut self,
        node: NodeId,
        lower: &[Grain],
        upper: &[Grain],
        choices: &[Choice],
        pushes: &mut Steps<P>,
    )
        requires node { HasNode self.old node }
        requires some { 1 ≤ length lower.now }
        requires lengths { (length upper.now ≡ length lower.now)
            × (length choices.now ≡ length lower.now) }
        requires room { length lower.now ≤ room_of self.old node }
        requires end { known_end (table_at self.old node) + length lower.now ≤ END_LIMIT }
        ensures entries { table_at self.new node
            ≡ longer_table lower.now upper.now choices.now (table_at self.old node) }
        ensures others { OnlyAt node self.old self.new }
        ensures room { room_of self.new node + length lower.now ≡ room_of self.old node }
        ensures rooms { SameRooms node self.old self.new }
        ensures count { pushes.new ≡ pushes.old + 3 * length lower.now }
    {
        let index = node.get() as usize - 1;
        let end = self.known_end(node);
        self.lower.append(index, lower, pushes);
        self.upper.append(index, upper, pushes);
        self.choices.append(index, choices, pushes);
        self.fronts[index] = end + lower.len() as u32;
    }

    /// Keeps the entries of a node below a budget. No row is touched where there are no others.
    pub fn cut_to(&mut self, node: NodeId, front: u32)
        requires node { HasNode self.old node }
        ensures entries { table_at self.new node ≡ cut_to front (table_at self.old node) }
        ensures others { OnlyAt node self.old self.new }
    {
        let index = node.get() as usize - 1;
        if self.fronts[index] <= front {
            return;
        }
        let count = front.saturating_sub(self.bases[index]);
        self.lower.cut(index, count);
        self.upper.cut(index, count);
        self.choices.cut(index, count);
        self.fronts[index] = front;
    }
}

/// Gives each row of a bank this capacity.
fn grow<T: Copy>(bank: &mut RowBank<T>, caps: &[u32]) -> Result<(), NoMemory>
    requires rows { length caps.now ≡ length bank.old }
    requires room { (row : ℕ) → row < length bank.old
        → length (list_at bank.old row) ≤ slice_index caps.now row }
    requires total { sum caps.now ≤ KEPT_LIMIT }
    ensures lists { lists bank.new ≡ lists bank.old }
    ensures room { OnOk result (HasRoom bank.new caps.now) }
{
    bank.regrow(caps)
}
