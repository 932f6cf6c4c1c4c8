// Values that stand for some of a network's arcs.
ghost use Rattle.std.specs.Prelude.{ℕ, ◌≡◌, ◌-◌, ◌≤◌, length, replicate, slice_index_or};
ghost use Rattle.std.specs.Prelude.{slice_set, is_some, true, None, Some, IfOk, OnOk, OnErr};
ghost use Rattle.std.specs.Option.{option_copied, option_copied_mut};
ghost use Rattle.std.specs.Borrow.{sem};

use sota_units::{ArcId, NoMemory};
use std::alloc::Global;
use std::marker::Model;

/// Values that stand for some of a network's arcs, by the arcs' numbers. An arc without one takes
/// four bytes. Contracts see a list with the value of each arc, or none: that of arc `e` stands at
/// index `e - 1`.
#[derive(Drop)]
pub struct ArcMap<T> {
    // For each arc 0, or one more than the index of its value.
    places: Vec<u32>,
    values: Vec<Box<T>>,
}

impl<T> Model for ArcMap<T> {
    ghost use Rattle.std.specs.Prelude.{List, Option, length, map};
    ghost use Rattle.std.specs.Box.{box_value};
    ghost use Rattle.sota_fill.specs.ArcPlaces.{placed, ArePlaces};

    ghost Value = { List (Option T) };

    ghost view = { λ m. map (placed (map box_value m.values.items)) m.places.items };

    ghost invariant = { λ m. ArePlaces m.places.items (length m.values.items) };
}

impl<T: Drop> ArcMap<T> {
    ghost use Rattle.sota_fill.specs.ArcLends.{lends_value, lends_found};

    /// As many arcs, none of which has a value.
    pub fn new(alloc: Global, arcs: u32) -> Result<ArcMap<T>, NoMemory>
        ensures { IfOk result (λ made. made ≡ replicate arcs None) }
    {
        let places = vec![in alloc; 0; arcs as usize]?;
        Ok(ArcMap {
            places,
            values: Vec::new(alloc),
        })
    }

    /// The value of an arc, where it has one.
    pub fn get(&self, arc: ArcId) -> Option<&T>
        requires { (1 ≤ arc) × (arc ≤ length self.now) }
        ensures { option_copied result ≡ slice_index_or self.now (arc - 1) None }
    {
        match self.places[arc.get() as usize - 1] {
            0 => None,
            place => Some(self.values[place as usize - 1].as_ref()),
        }
    }

    /// Whether an arc has a value.
    fn has(&self, arc: ArcId) -> bool
        requires { (1 ≤ arc) × (arc ≤ length self.now) }
        ensures { result ≡ is_some (slice_index_or self.now (arc - 1) None) }
    {
        self.places[arc.get() as usize - 1] > 0
    }

    /// The value of an arc that has one, for writing.
    fn value_mut(&mut self, arc: ArcId) -> &mut T
        requires number { (1 ≤ arc) × (arc ≤ length self.old) }
        requires some { is_some (slice_index_or self.old (arc - 1) None) ≡ true }
        ensures* writes_back { sem 𝓛 (lends_value T.row self.entry arc result) }
        ensures value { slice_index_or self.old (arc - 1) None ≡ Some result.now }
    {
        let place = self.places[arc.get() as usize - 1];
        self.values[place as usize - 1].as_mut()
    }

    /// The value of an arc for writing, where it has one.
    pub fn get_mut(&mut self, arc: ArcId) -> Option<&mut T>
        requires { (1 ≤ arc) × (arc ≤ length self.old) }
        ensures* writes_back { sem 𝓛 (lends_found T.row self.entry arc result) }
        ensures value { option_copied_mut result ≡ slice_index_or self.old (arc - 1) None }
    {
        if self.has(arc) {
            Some(self.value_mut(arc))
        } else {
            None
        }
    }

    /// Gives an arc that has no value the one that is found, where one is.
    pub fn put(&mut self, alloc: Global, arc: ArcId, found: Option<T>) -> Result<(), NoMemory>
        requires number { (1 ≤ arc) × (arc ≤ length self.old) }
        requires none { slice_index_or self.old (arc - 1) None ≡ None }
        ensures placed { OnOk result (self.new ≡ slice_set self.old (arc - 1) found) }
        ensures refused { OnErr result (self.new ≡ self.old) }
    {
        let Some(value) = found else {
            return Ok(());
        };
        self.values.push(Box::new(alloc, value)?)?;
        self.places[arc.get() as usize - 1] = self.values.len() as u32;
        Ok(())
    }
}
