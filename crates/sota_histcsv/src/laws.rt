// What is true of the definitions themselves. The functions do nothing: their contracts are the
// theorems.
ghost use Rattle.std.specs.Prelude.{ℕ, ◌≡◌, List, Ok};
ghost use Rattle.sota_dimacs.specs.Graph.{IsGraph};
ghost use Rattle.sota_dimacs.specs.declared.graph.RawGraph.{RawGraph};
ghost use Rattle.sota_network.specs.Network.{Net, IsNet};
ghost use Rattle.sota_histcsv.specs.Certain.{certain_net};
ghost use Rattle.sota_histcsv.specs.Histograms.{hist_net};
ghost use Rattle.sota_histcsv.specs.Texts.{IsHistTextOf};

use sota_hist::laws::order_of_pairs;

/// An accepted histogram text means a network, and so does a graph whose arcs take their weights.
pub fn texts_mean_networks()
    ensures text { (bytes : List ℕ) (graph : RawGraph) (net : Net)
        → IsGraph graph → hist_net bytes graph ≡ Ok net → IsNet net }
    ensures weights { (graph : RawGraph) (net : Net)
        → IsGraph graph → certain_net graph ≡ Ok net → IsNet net }
{
    order_of_pairs();
}

/// A histogram text is accepted, and means this network, exactly where it is a text of it.
pub fn accepted_texts()
    ensures accepted { (bytes : List ℕ) (graph : RawGraph) (net : Net)
        → IsGraph graph → hist_net bytes graph ≡ Ok net → IsHistTextOf bytes graph net }
    ensures accepts { (bytes : List ℕ) (graph : RawGraph) (net : Net)
        → IsHistTextOf bytes graph net → hist_net bytes graph ≡ Ok net }
{
    order_of_pairs();
}
