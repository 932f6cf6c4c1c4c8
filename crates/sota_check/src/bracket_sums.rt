// What an arc is worth by either side of a bracket table.
ghost use Rattle.std.specs.Prelude.{◌≡◌, ◌^◌, ◌<◌, ◌≤◌};
ghost use Rattle.sota_units.specs.Rounding.{ONE, SCALE_LIMIT};
ghost use Rattle.sota_hist.specs.Time.{total};
ghost use Rattle.sota_network.specs.Grid.{plain_sum};
ghost use Rattle.sota_check.specs.Bracketed.{row_upper};
ghost use Rattle.sota_check.specs.Sides.{side_of, row_side};

use crate::sums::{Values, values_sum, whole_sum};
use sota_network::Arc;
use sota_polfile::{BracketRow, BracketTable};
use sota_units::{Grain, Tick};

/// One of the two values of an entry.
#[derive(Clone, Copy)]
pub(crate) enum Side {
    Lower,
    Upper,
}

/// A row, and the one of its two values that is summed.
#[derive(Clone, Copy)]
struct RowSide<'a> {
    row: &'a BracketRow,
    side: Side,
}

impl Values for RowSide<'_> {
    ghost value = { λ of. row_side of.side of.row.now };

    fn value_at(&self, budget: u32) -> u64 {
        side_in(self.row, self.side, budget)
    }
}

/// The plain sum of an arc at a budget, over the values of one side.
pub(crate) fn side_sum(table: &BracketTable, side: Side, arc: &Arc, budget: u32) -> u128
    requires total { total arc.now.time ≤ SCALE_LIMIT }
    requires head { (1 ≤ arc.now.head) × (arc.now.head ≤ table.now.head.nodes) }
    ensures value { result ≡ plain_sum arc.now (side_of side table.now) budget }
    ensures within { result < 2 ^ 94 }
{
    let pairs = arc.time.within(Tick(budget));
    let head = arc.head.get();
    if head == table.head().dest {
        return whole_sum(pairs);
    }
    let row = &table.rows()[head as usize - 1];
    values_sum(&RowSide { row, side }, pairs, budget)
}

/// The value of a row at a budget.
pub(crate) fn side_in(row: &BracketRow, side: Side, budget: u32) -> u64
    ensures { result ≡ row_side side row.now budget }
{
    match side {
        Side::Lower => row.entry(budget).map_or(0, |entry| entry.lower),
        Side::Upper => upper_in(row, budget),
    }
}

/// The upper value of a row at a budget.
fn upper_in(row: &BracketRow, budget: u32) -> u64
    ensures { result ≡ row_upper row.now budget }
{
    if budget < row.first {
        return 0;
    }
    match row.entry(budget) {
        Some(entry) => entry.upper.min(Grain::ONE.get()),
        None => Grain::ONE.get(),
    }
}
