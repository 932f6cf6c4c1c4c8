// Where two lists of pairs part.
ghost use Rattle.std.specs.Prelude.{◌≡◌};
ghost use Rattle.sota_hist.specs.Time.{IsTime, first_difference};

use sota_units::{Mass, Tick};

/// The least tick at which two times have different masses.
pub(crate) fn first_difference_of(ours: &[(Tick, Mass)], theirs: &[(Tick, Mass)]) -> Option<Tick>
    requires ours { IsTime ours.now }
    requires theirs { IsTime theirs.now }
    ensures { result ≡ first_difference ours.now theirs.now }
{
    for (index, our) in ours.iter().enumerate() {
        match theirs.get(index) {
            Some(their) if our == their => {}
            Some(their) => return Some(Tick(our.0.get().min(their.0.get()))),
            None => return Some(our.0),
        }
    }
    match theirs.get(ours.len()) {
        Some(their) => Some(their.0),
        None => None,
    }
}
