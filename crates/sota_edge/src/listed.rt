// Calls that are planned to fail.
ghost use Rattle.std.specs.Prelude.{◌≡◌};
ghost use Rattle.sota_edge.specs.Counts.{counted};
ghost use Rattle.sota_edge.specs.MemoryDesk.{is_listed};

/// Counts a call, and says whether its number is one of those listed. Calls are counted from 1.
pub fn count_call(calls: &mut u64, fails: &[u32]) -> bool
    ensures calls { calls.new ≡ counted calls.old }
    ensures listed { result ≡ is_listed fails.now calls.new }
{
    *calls = calls.saturating_add(1);
    let call = *calls;
    fails.iter().any(|number| u64::from(*number) == call)
}
