// A network that is asked and edited.
ghost use Rattle.std.specs.Prelude.{◌≡◌, ◌≤◌, ◌↔◌, None, Err, IfOk, OnErr, OnOk};
ghost use Rattle.std.specs.Option.{option_map};
ghost use Rattle.sota_hist.specs.Time.{total};
ghost use Rattle.sota_network.specs.Network.{IsNet, IsNode, arc_at, replaced};
ghost use Rattle.sota_kept.specs.States.{front_of, base_of, first_state};
ghost use Rattle.sota_kept.specs.TableLists.{IsKept};
ghost use Rattle.sota_session.specs.Asks.{answer_of};
ghost use Rattle.sota_session.specs.Plans.{IsPolicyFor};
ghost use Rattle.sota_session.specs.Brackets.{IsBracketFor};
ghost use Rattle.sota_session.specs.State.{kept_state, state_edited, IsLeft};
ghost use Rattle.sota_session.specs.Calls.{IsAsked};
ghost use Rattle.sota_session.specs.Cuts.{IsCutFor};
ghost use Rattle.sota_session.specs.declared.edit.EditFault.TheVariants as edits;

use crate::ask::{Answer, Ask};
use crate::cut::cut_all;
use crate::edit::EditFault;
use crate::plan::plan;
use crate::planned_table::PlannedTable;
use crate::roads::Roads;
use sota_bounds::AskFault;
use sota_hist::Histogram;
use sota_kept::LeastTime;
use sota_kept::kept::tables_stay_right;
use sota_kept::laws::edits_affect;
use sota_network::Network;
use sota_network::laws::lists_by_number;
use sota_polfile::{BracketTable, PolicyTable};
use sota_tables::Tables;
use sota_tables::laws::{tables_stay_kept, views_are_lists};
use sota_units::{ArcId, NoMemory, NodeId, Steps};
use std::alloc::Global;
use std::marker::Model;
use std::sync::ledger::Ledger;

/// A network that is asked and edited, seen as the network that it is now and what is kept of its
/// grid. What an ask has planned stays for the next one to the same destination, as far as no edit
/// can have changed it, and so do the least times to the destination.
#[derive(Drop)]
pub struct Session {
    roads: Roads,
    tables: Tables,
    alloc: Global,
}

impl Model for Session {
    ghost use Rattle.sota_kept.specs.TableLists.{IsKept};
    ghost use Rattle.sota_tables.specs.Views.{lists_of};
    ghost use Rattle.sota_session.specs.State.{SessionState};

    ghost Value = { SessionState };

    ghost view = { λ session. record {
      network = session.roads;
      tables = lists_of session.tables;
    } };

    ghost invariant = { λ session. IsKept (lists_of session.tables) session.roads };
}

impl Session {
    /// A session of this network, in which nothing is kept yet. `alloc` is where it takes memory.
    pub fn new(alloc: Global, network: Network) -> Result<Session, NoMemory>
        ensures network { IfOk result (λ session. session.network ≡ network) }
        ensures state { IfOk result (λ session. kept_state session ≡ first_state network.nodes) }
    {
        lists_by_number();
        tables_stay_kept();
        let tables = Tables::new(alloc, network.nodes())?;
        Ok(Session {
            roads: Roads::new(network),
            tables,
            alloc,
        })
    }

    /// The network as it is now.
    pub fn network(&self) -> &Network
        ensures value { result.now ≡ self.now.network }
        ensures valid { IsKept self.now.tables self.now.network }
    {
        self.roads.network()
    }

    /// The destination for which entries are kept. None exactly where there is none yet. An ask or
    /// a policy that found no memory may have set it.
    pub fn dest(&self) -> Option<NodeId>
        ensures { result ≡ (kept_state self.now).dest }
    {
        self.tables.dest()
    }

    /// The front of a node: one above its last budget with an entry.
    pub fn front(&self, node: NodeId) -> u32
        requires { IsNode self.now.network node }
        ensures { result ≡ front_of (kept_state self.now) node }
    {
        self.tables.front(node)
    }

    /// The base of a node: its first budget with an entry, where it has one.
    pub fn base(&self, node: NodeId) -> u32
        requires { IsNode self.now.network node }
        ensures { result ≡ base_of (kept_state self.now) node }
    {
        self.tables.base(node)
    }

    /// Answers an ask for the network as it is now, which stays as it is. What is missing for it is
    /// added to what is kept, three pushes an entry.
    ///
    /// NoOrigin, NoDest and Budget come exactly where they say, the first of them that stands. For
    /// an ask in range TableCells and BroadCells come exactly where they say, in this order, but
    /// for want of memory, which comes for no other. After a refusal all is unchanged, but that
    /// want of memory may leave the first steps of the ask taken, which add no entry.
    ///
    /// `products` counts multiplications; nothing is promised of it.
    pub fn ask<M: Ledger, P: Ledger>(
        &mut self,
        ask: Ask,
        products: &mut Steps<M>,
        pushes: &mut Steps<P>,
    ) -> Result<Answer, AskFault>
        ensures answer { IfOk result (λ answer. answer ≡ answer_of self.old.network ask) }
        ensures leaves { IsAsked ask self.old self.new pushes.old pushes.new result }
        ensures no_push { OnErr result (pushes.new ≡ pushes.old) }
        ensures left { OnErr result
            (IsLeft self.old.network ask self.old.tables self.new.tables) }
    {
        let region = plan(
            self.alloc,
            &mut self.roads,
            &mut self.tables,
            &ask,
            products,
            pushes,
        )?;
        self.roads.keep_times(ask.dest, region.least);
        Ok(Answer {
            lower: self.tables.lower(ask.origin, ask.budget),
            upper: self.tables.upper(ask.origin, ask.budget),
            next: self.tables.choice(ask.origin, ask.budget),
        })
    }

    /// The policy of an ask for the network as it is now, which stays as it is: the grid over the
    /// region of the ask. It holds on the network, and its value is the answer's lower bound.
    ///
    /// It is refused as the ask is, and leaves what the ask leaves. Where it finds no memory after
    /// the ask was planned, the state and the pushes are those after the ask.
    pub fn policy<M: Ledger, P: Ledger>(
        &mut self,
        ask: Ask,
        products: &mut Steps<M>,
        pushes: &mut Steps<P>,
    ) -> Result<PolicyTable, AskFault>
        ensures policy { IfOk result (λ table. IsPolicyFor self.old.network ask table) }
        ensures leaves { IsAsked ask self.old self.new pushes.old pushes.new result }
    {
        self.table_of(ask, products, pushes)
    }

    /// The bracket of an ask for the network as it is now, which stays as it is: its policy, with
    /// the grid's two values for each entry, and the first budget of each node. It holds on the
    /// network, and the bounds that it names are those of the answer.
    ///
    /// It is refused as the ask is, and leaves what the ask leaves. Where it finds no memory after
    /// the ask was planned, the state and the pushes are those after the ask.
    pub fn bracket<M: Ledger, P: Ledger>(
        &mut self,
        ask: Ask,
        products: &mut Steps<M>,
        pushes: &mut Steps<P>,
    ) -> Result<BracketTable, AskFault>
        ensures bracket { IfOk result (λ table. IsBracketFor self.old.network ask table) }
        ensures leaves { IsAsked ask self.old self.new pushes.old pushes.new result }
    {
        self.table_of(ask, products, pushes)
    }

    /// A table of an ask for the network as it is now, which stays as it is.
    fn table_of<T: PlannedTable, M: Ledger, P: Ledger>(
        &mut self,
        ask: Ask,
        products: &mut Steps<M>,
        pushes: &mut Steps<P>,
    ) -> Result<T, AskFault>
        ensures table { IfOk result (λ table. T.is_for self.old.network ask table) }
        ensures leaves { IsAsked ask self.old self.new pushes.old pushes.new result }
    {
        let region = plan(
            self.alloc,
            &mut self.roads,
            &mut self.tables,
            &ask,
            products,
            pushes,
        )?;
        let network = self.roads.network();
        let table = T::make(self.alloc, network, &ask, &region, &self.tables)?;
        self.roads.keep_times(ask.dest, region.least);
        Ok(table)
    }

    /// Gives an arc another time, by which the asks that follow are answered. A closed time closes
    /// the arc. Entries that it can change are kept no more, and all others are. NoArc exactly
    /// where the number is not from 1 to the number of arcs. After a refusal all is unchanged.
    pub fn edit(&mut self, arc: ArcId, time: Histogram) -> Result<(), EditFault>
        requires { total time ≤ self.old.network.scale }
        ensures no_arc { (result ≡ Err edits.NoArc) ↔ (arc_at self.old.network arc ≡ None) }
        ensures replaced { OnOk result (self.new.network ≡ replaced self.old.network arc time) }
        ensures state { OnOk result (kept_state self.new
            ≡ state_edited self.old.network arc time (kept_state self.old)) }
        ensures unchanged { OnErr result (self.new ≡ self.old) }
        ensures right { IsKept self.new.tables self.new.network }
        ensures valid { IsNet self.new.network }
    {
        tables_stay_right();
        views_are_lists();
        let cuts = self.cuts(arc, &time)?;
        let _ = self.roads.replace(arc, time);
        if let Some(budgets) = cuts {
            cut_all(&mut self.tables, &budgets);
        }
        Ok(())
    }

    /// The first affected budgets of an edit. None exactly where nothing is kept for a destination,
    /// or the arc has this time already.
    fn cuts(&self, arc: ArcId, time: &Histogram) -> Result<Option<Vec<LeastTime>>, EditFault>
        ensures no_arc { (result ≡ Err edits.NoArc) ↔ (arc_at self.now.network arc ≡ None) }
        ensures cuts { IfOk result (λ cuts. IsCutFor self.now.network self.now.tables.dest arc
            time.now (option_map (λ budgets. budgets.items) cuts)) }
        ensures valid { IsNet self.now.network }
    {
        edits_affect();
        let network = self.roads.network();
        let Some(edited) = network.arc(arc) else {
            return Err(EditFault::NoArc);
        };
        match (self.tables.dest(), edited.time.first_difference(time)) {
            (Some(dest), Some(first)) => {
                let budgets = self.roads.first_affected(self.alloc, dest, arc, first)?;
                Ok(Some(budgets))
            }
            _ => Ok(None),
        }
    }
}
