// One trip.
ghost use Rattle.std.specs.Prelude.{◌≡◌, IfSome};
ghost use Rattle.std.specs.Option.{option_copied};
ghost use Rattle.sota_hist.specs.Time.{IsTime};
ghost use Rattle.sota_replay.specs.Trip.{road, trip};

use crate::Ending;
use crate::laws::trips_recur;
use sota_network::laws::arcs_by_number;
use sota_network::{Arc, Network};
use sota_polfile::PolicyTable;
use sota_units::ArcId;
use sota_words::Words;

/// A trip from the policy's origin with its whole budget: it follows the policy's arcs, and draws
/// each time by one word. It takes no memory. A move costs a search for the row of its node, and
/// the pairs of its arc up to the tick that is drawn.
pub fn trip(network: &Network, table: &PolicyTable, words: &mut Words) -> Ending
    ensures { (result, words.new) ≡ trip network.now table.now words.old }
{
    trips_recur();
    let head = table.head();
    let scale = network.scale();
    let mut node = head.origin;
    let mut left = head.budget;
    while node != head.dest {
        let Some(arc) = road(network, table, node, left) else {
            return Ending::NoChoice;
        };
        let Some(tick) = arc.time.pick(words.draw(scale)) else {
            return Ending::Lost;
        };
        if tick.get() > left {
            return Ending::Late;
        }
        node = arc.head.get();
        left -= tick.get();
    }
    Ending::Arrived(head.budget - left)
}

/// The arc to take from a node with so many ticks left.
fn road<'a>(network: &'a Network, table: &PolicyTable, node: u32, left: u32) -> Option<&'a Arc>
    ensures value { option_copied result ≡ road network.now table.now node left }
    ensures valid { IfSome result (λ arc. IsTime arc.now.time) }
{
    arcs_by_number();
    let entry = table.entry(node, left)?;
    network.arc(ArcId(entry.arc))
}
