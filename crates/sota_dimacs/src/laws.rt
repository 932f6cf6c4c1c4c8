// What is true of the definitions themselves. The functions do nothing: their contracts are the
// theorems.
ghost use Rattle.std.specs.Prelude.{ℕ, ◌≡◌, List, Ok};
ghost use Rattle.sota_dimacs.specs.Graph.{graph_text, IsGraph};
ghost use Rattle.sota_dimacs.specs.declared.graph.RawGraph.{RawGraph};

/// What an accepted text means is a graph.
pub fn texts_mean_graphs()
    ensures { (bytes : List ℕ) (graph : RawGraph) → graph_text bytes ≡ Ok graph → IsGraph graph }
{}
