//! What is proved of the definitions, apart from any code. A law is a function without a body,
//! whose contract is its statement.
ghost use Rattle.std.specs.Prelude.{ℕ, ◌≡◌, List, Some, None};
ghost use Rattle.sota_network.specs.Network.{Net, IsNet};
ghost use Rattle.sota_route.specs.Faults.{route_fault};
ghost use Rattle.sota_route.specs.Routes.{start_of};
ghost use Rattle.sota_route.specs.Bounds.{IsRouteBracket, route_answer};

use sota_network::laws::{arcs_by_number, grid_encloses, sums_and_scores};

/// The two bounds of a route that is not refused enclose the exact chance of keeping to it, they
/// differ by at most one unit an arc, and the lower one is at most the upper bound of an ask.
pub fn routes_are_enclosed()
    ensures { (net : Net) (dest t o : ℕ) (route : List ℕ) → IsNet net
        → route_fault net dest t route ≡ None → start_of net route ≡ Some o
        → IsRouteBracket net dest route o t (route_answer net dest route t) }
{
    arcs_by_number();
    grid_encloses();
    sums_and_scores();
}
