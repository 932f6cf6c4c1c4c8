// A table of what was planned for an ask.
ghost use Rattle.std.specs.Prelude.{◌≡◌, IfOk};
ghost use Rattle.sota_network.specs.Network.{Net};
ghost use Rattle.sota_session.specs.Asks.{IsInRange};
ghost use Rattle.sota_session.specs.Rows.{IsPlanned};
ghost use Rattle.sota_session.specs.declared.ask.Ask.{Ask};

use crate::ask::Ask;
use sota_bounds::AskRegion;
use sota_network::Network;
use sota_tables::Tables;
use sota_units::NoMemory;
use std::alloc::Global;

/// A table that is made of what was planned for an ask.
pub(crate) trait PlannedTable: Sized + Drop {
    /// What holds of the table of an ask on a network.
    ghost is_for: { Net → Ask → Self → Type 0 };

    /// The table of an ask, out of the region that was planned for it and the tables.
    fn make(
        alloc: Global,
        network: &Network,
        ask: &Ask,
        region: &AskRegion,
        tables: &Tables,
    ) -> Result<Self, NoMemory>
        requires in_range { IsInRange network.now ask.now }
        requires asked { (region.now.origin ≡ ask.now.origin)
            × (region.now.dest ≡ ask.now.dest) × (region.now.budget ≡ ask.now.budget) }
        requires planned { IsPlanned region.now tables.now network.now }
        ensures { IfOk result (λ table. is_for network.now ask.now table) };
}
