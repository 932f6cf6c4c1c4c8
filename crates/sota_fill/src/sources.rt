// What the sums of arcs are made from.
use crate::arc_map::ArcMap;
use crate::broad::Summers;
use crate::target::Target;
use sota_online::Summer;
use sota_tables::Tables;

/// What the sums of arcs are made from: where they lead, the tables of their heads, and the summers
/// of those that have them.
#[derive(Drop)]
pub(crate) struct Sources<'net, 'ask, 'held, 'fed, Z: Summer> {
    pub(crate) target: &'ask Target<'net>,
    pub(crate) tables: &'held Tables,
    pub(crate) broad: &'fed ArcMap<Summers<Z>>,
}
