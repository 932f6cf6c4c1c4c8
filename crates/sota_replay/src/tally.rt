// The tally of trips.
ghost use Rattle.std.specs.Prelude.{◌≡◌, ◌+◌, ◌<◌, ◌^◌};
ghost use Rattle.sota_replay.specs.Tally.{tallied, trip_count, trips};

use crate::{Ending, trip};
use sota_network::Network;
use sota_polfile::PolicyTable;
use sota_words::Words;

/// How many trips ended in each way.
#[derive(Clone, Copy, Debug, Default, PartialEq, Eq)]
pub struct Tally {
    /// In time.
    pub arrived: u32,
    /// Too late.
    pub late: u32,
    /// At a node and a number of ticks for which the policy has no arc.
    pub stuck: u32,
    /// On a traversal that never ended.
    pub lost: u32,
}

impl Tally {
    /// Counts a trip.
    fn count(&mut self, ending: Ending)
        requires { trip_count self.old + 1 < 2 ^ 32 }
        ensures { self.new ≡ tallied ending self.old }
    {
        match ending {
            Ending::Arrived(_) => self.arrived += 1,
            Ending::Late => self.late += 1,
            Ending::NoChoice => self.stuck += 1,
            Ending::Lost => self.lost += 1,
        }
    }
}

/// The tally of so many trips, each of which begins with the words that the one before left. It
/// takes no memory.
pub fn trips(network: &Network, table: &PolicyTable, words: &mut Words, count: u32) -> Tally
    ensures value { (result, words.new) ≡ trips network.now table.now count words.old }
    ensures whole { result.arrived + result.late + result.stuck + result.lost ≡ count }
{
    let mut tally = Tally::default();
    for _trip in 0..count {
        tally.count(trip(network, table, words));
    }
    tally
}
