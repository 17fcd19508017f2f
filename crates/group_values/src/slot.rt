//! The index of the small table: a slot for each key that it admits.

ghost use Rattle.std.specs.Prelude.{◌≡◌, ◌≤◌, map, length};
ghost use Rattle.group_values.specs.Slots.{Below, Slot, SlotIndex, slot_key};
ghost use Rattle.group_values.specs.Tables.{Distinct};

use cells::Key;

/// How many keys have a slot: those of an absent cell, and of 0 to 63.
pub(crate) const SLOTS: usize = 65;

/// The slot of a key that the small table admits.
pub(crate) fn slot_of(key: &Key) -> Option<usize>
    ensures { Slot key.now result }
{
    match key.as_slice() {
        [None] => Some(0),
        [Some(value @ 0..=63)] => Some(*value as usize + 1),
        _ => None,
    }
}

/// The key of a slot.
pub(crate) fn slot_key(slot: u8) -> Key
    ensures { result ≡ slot_key slot }
{
    let mut key = Key::new();
    key.push(slot.checked_sub(1).map(i64::from));
    key
}

/// The place of each slot, if it is held.
pub(crate) fn places_of(slots: &[u8]) -> [Option<u8>; SLOTS]
    requires { (length slots.now ≤ 65) × ((Below slots.now) × (Distinct (map slot_key slots.now))) }
    ensures { SlotIndex slots.now result }
{
    let mut places = [None; SLOTS];
    for (place, slot) in slots.iter().enumerate() {
        places[usize::from(*slot)] = Some(place as u8);
    }
    places
}
