// The network of a histogram text and a graph.
ghost use Rattle.std.specs.Prelude.{◌≡◌, ◌≤◌, length};
ghost use Rattle.sota_units.specs.Limits.{TEXT_LIMIT};
ghost use Rattle.sota_units.specs.Memory.{Answers};
ghost use Rattle.sota_dimacs.specs.Graph.{IsGraph};
ghost use Rattle.sota_histcsv.specs.Words.{is_shortage};
ghost use Rattle.sota_histcsv.specs.Records.{is_marked, without_mark};
ghost use Rattle.sota_histcsv.specs.Histograms.{hist_net};

use crate::fault::HistFileFault;
use crate::table::read_table;
use crate::times::timed_arcs;
use sota_dimacs::RawGraph;
use sota_hist::laws::order_of_pairs;
use sota_network::Network;
use std::alloc::Global;

/// The network of a graph whose arcs take the times of a histogram text, or the first fault.
///
/// The text is CSV with the header `arc,tick,mass/Q`; one byte order mark may stand before it. Each
/// further record gives a mass over the scale `Q` to a tick of an arc, and a mass of 0 is dropped.
/// What the masses of an arc lack of the scale is the chance that a traversal never ends. An arc
/// that no record gives mass takes its weight. A record's fault comes before those of arcs, the
/// least record or arc first. It takes time linear in the text and the graph, but for sorting the
/// records by their arcs and ticks. The bytes are let go once the records are read, and the records
/// and the graph's arcs once each arc has its time.
pub fn read_histograms(
    alloc: Global,
    bytes: Vec<u8>,
    graph: RawGraph,
) -> Result<Network, HistFileFault>
    requires size { length bytes.items ≤ TEXT_LIMIT }
    requires graph { IsGraph graph }
    ensures { Answers is_shortage result (hist_net bytes.items graph) }
{
    order_of_pairs();
    let text = without_mark(&bytes);
    if is_marked(text) {
        return Err(HistFileFault::Header);
    }
    let table = read_table(alloc, text, graph.arcs.as_slice().len() as u32)?;
    drop(bytes);
    let arcs = timed_arcs(alloc, &table, graph.arcs.as_slice())?;
    let scale = table.scale;
    drop(table);
    drop(graph.arcs);
    Ok(Network::build(alloc, graph.nodes, scale, arcs)?)
}

/// The byte order mark of UTF-8.
const ORDER_MARK: &[u8] = b"\xEF\xBB\xBF";

fn is_marked(bytes: &[u8]) -> bool
    ensures { result ≡ is_marked bytes.now }
{
    bytes.starts_with(ORDER_MARK)
}

/// The bytes after a byte order mark, if they begin with one.
fn without_mark(bytes: &[u8]) -> &[u8]
    ensures { result.now ≡ without_mark bytes.now }
{
    match bytes.strip_prefix(ORDER_MARK) {
        Some(text) => text,
        None => bytes,
    }
}
