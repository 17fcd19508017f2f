//! The index of the row table: the place of each key.

ghost use Rattle.std.specs.Prelude.{◌≡◌, ◌+◌, ◌<◌, ◌≤◌, length, Some, None};
ghost use Rattle.std.specs.HashMap.{get, hash_map_len, spare, Updates};
ghost use Rattle.group_values.specs.Places.{key_eq, Indexed, Roomy};
ghost use Rattle.group_values.specs.Tables.{Distinct};

use cells::Key;
use std::collections::HashMap;

/// Adds a key. The map has room to spare, so this cannot fail.
pub(crate) fn add_place(places: &mut HashMap<Key, usize>, key: &Key, place: usize)
    requires { (get key_eq places.old key.now ≡ None) × (0 < spare places.old) }
    ensures updates { Updates key_eq places.old places.new key.now (Some place) }
    ensures len { hash_map_len places.new ≡ hash_map_len places.old + 1 }
    ensures spare { spare places.old ≤ spare places.new + 1 }
{
    let _ = places.insert(*key, place);
}

/// Makes the index of the keys anew.
pub(crate) fn rebuild(places: &mut HashMap<Key, usize>, keys: &[Key])
    requires { Distinct keys.now × (length keys.now ≤ 512) × (512 ≤ hash_map_len places.old + spare places.old) }
    ensures indexed { Indexed keys.now places.new }
    ensures room { Roomy keys.now places.new }
{
    places.clear();
    for (place, key) in keys.iter().enumerate() {
        add_place(places, key, place);
    }
}
