//! The calls of the small table, which has the part of the single-column tables of datafusion-physical-plan 55.0.0, src/aggregates/group_values/single_group_by.

ghost use Rattle.std.specs.Prelude.{◌≡◌, []};
ghost use Rattle.group_values.specs.Slots.{small_key};
ghost use Rattle.group_values.specs.Smalls.{small_keys};
ghost use Rattle.group_values.specs.SlotsLemmas.{slots_distinct, slots_admitted};
ghost use Rattle.group_values.specs.SmallsLemmas.{small_bounded};

use crate::group_values::GroupValues;
use crate::slot::{SLOTS, places_of, slot_key, slot_of};
use crate::small_table::GroupValuesSmall;
use arrayvec::ArrayVec;
use cells::{EmitTo, Key};

impl GroupValuesSmall {
    /// A table of no keys, which needs no memory beyond its own.
    pub fn new() -> GroupValuesSmall
        ensures { small_keys result ≡ [] }
    {
        GroupValuesSmall {
            slots: ArrayVec::new(),
            places: [None; SLOTS],
        }
    }
}

impl GroupValues for GroupValuesSmall {
    ghost keys = { small_keys };

    ghost admitted = { small_key };

    ghost distinct = { λ t. slots_distinct t.slots.items t.places t.indexed };

    ghost bounded = { small_bounded };

    ghost held = { λ t. slots_admitted t.slots.items t.places t.indexed };

    fn admits(&self, key: &Key) -> bool {
        slot_of(key).is_some()
    }

    fn intern(&mut self, key: &Key) -> Option<usize> {
        let slot = slot_of(key)?;
        if let Some(place) = self.places[slot] {
            return Some(usize::from(place));
        }
        let place = self.slots.len();
        self.slots.push(slot as u8);
        self.places[slot] = Some(place as u8);
        Some(place)
    }

    fn len(&self) -> usize {
        self.slots.len()
    }

    fn key(&self, place: usize) -> Key {
        self.slots
            .get(place)
            .map_or(Key::new(), |slot| slot_key(*slot))
    }

    fn emit(&mut self, emit_to: EmitTo) {
        // `shift` is for a Vec; these slots lie in the table itself.
        let count = emit_to.count(self.slots.len());
        self.slots.drain(..count);
        self.places = places_of(&self.slots);
    }
}
