// What is planned for one ask.
ghost use Rattle.std.specs.Prelude.{◌≡◌};

use sota_bounds::AskRegion;
use sota_fill::{ArcMap, Summers};
use sota_online::{Summer, Workspace};
use sota_order::Order;
use std::marker::Model;

/// What an ask is planned with: its region, the order in which the missing entries are filled, two
/// summers for each broad arc, and the room in which these work. One is fed the lower values at the
/// arc's head, the other the upper ones.
#[derive(Drop)]
pub struct Run<'a, Z: Summer> {
    pub(crate) region: &'a AskRegion,
    pub(crate) order: Order,
    pub(crate) broad: ArcMap<Summers<Z>>,
    pub(crate) workspace: Workspace,
}

impl<'a, Z: Summer> Model for Run<'a, Z> {
    ghost use Rattle.std.specs.Prelude.{map};
    ghost use Rattle.sota_plan.specs.Runs.{RunView, states_of};

    ghost Value = { RunView };

    ghost view = { λ r. record {
      region = r.region.now;
      order = r.order;
      sums = map (states_of Z.state) r.broad;
      places = r.workspace;
    } };
}

impl<'a, Z: Summer> Run<'a, Z> {
    /// The region of the ask.
    pub fn region(&self) -> &'a AskRegion
        ensures { result.now ≡ self.now.region }
    {
        self.region
    }
}
