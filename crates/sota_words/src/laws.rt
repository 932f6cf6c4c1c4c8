// What is true of the definitions themselves. The function does nothing: its contract is the
// theorem.
ghost use Rattle.std.specs.Prelude.{ℕ, ◌<◌, ◌≤◌};
ghost use Rattle.rand_pcg.specs.Lcg.{Lcg};
ghost use Rattle.sota_words.specs.Drawn.{drawn};

/// A word is less than 2^64, so a number that is drawn is below its bound.
pub fn draws_are_below()
    ensures { (bound : ℕ) (words : Lcg) → 1 ≤ bound → (drawn bound words).0 < bound }
{}
