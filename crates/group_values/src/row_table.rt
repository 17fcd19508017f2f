//! The row table, with what ties its parts.

ghost use Rattle.std.specs.Prelude.{◌≤◌, length, vec_capacity};
ghost use Rattle.group_values.specs.Places.{Indexed, Roomy};

use cells::Key;
use std::collections::HashMap;

/// Admits every key, and finds it by a hash that equal keys share.
#[derive(Drop)]
pub struct GroupValuesRows {
    pub(crate) keys: Vec<Key>,
    /// The place of each key. An `IndexMap` would hold both, but its `drain` does not keep the room that `new` made.
    pub(crate) places: HashMap<Key, usize>,
    ghost indexed: { Indexed keys.items places },
    ghost room: { (length keys.items ≤ 512) × (512 ≤ vec_capacity keys) × Roomy keys.items places },
}
