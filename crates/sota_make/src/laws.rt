// What is true of the definitions themselves. The functions do nothing but name the law that they
// rest on: their contracts are the theorems.
ghost use Rattle.std.specs.Prelude.{ℕ, ◌≡◌, ◌≤◌, ◌+◌, true, length};
ghost use Rattle.rand_pcg.specs.Lcg.{Lcg};
ghost use Rattle.sota_hist.specs.Time.{IsTime, total};
ghost use Rattle.sota_network.specs.Network.{IsNet};
ghost use Rattle.sota_make.specs.Made.{is_size, made, pairs_from};

use sota_words::laws::draws_are_below;

/// What is made of numbers in their ranges is a network with so many arcs.
pub fn made_networks()
    ensures valid { (seed nodes arcs span : ℕ) → is_size nodes arcs span ≡ true
        → IsNet (made seed nodes arcs span) }
    ensures count { (seed nodes arcs span : ℕ) → length (made seed nodes arcs span).arcs ≡ arcs }
{
    draws_are_below();
}

/// So many pairs make a travel time, and their masses are one each and the rest.
pub fn pairs_make_times()
    ensures time { (span tick rest : ℕ) (words : Lcg) → 1 ≤ tick
        → IsTime (pairs_from span tick rest words).0 }
    ensures total { (span tick rest : ℕ) (words : Lcg) → 1 ≤ span
        → total (pairs_from span tick rest words).0 ≡ span + rest }
    ensures count { (span tick rest : ℕ) (words : Lcg)
        → length (pairs_from span tick rest words).0 ≡ span }
{
    draws_are_below();
}
