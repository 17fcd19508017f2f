//! The held groups.

ghost use Rattle.std.specs.Prelude.{◌≤◌, vec_capacity};

use accumulators::GroupsAccumulator;
use cells::Key;
use group_values::GroupValues;
use order::GroupOrdering;

/// The groups that are held, and the buffers of the batch at hand.
#[derive(Drop)]
pub struct HeldGroups<G: GroupValues, A: GroupsAccumulator> {
    pub(crate) group_values: G,
    pub(crate) accumulator: A,
    pub(crate) group_ordering: GroupOrdering,
    /// The keys of the batch's rows.
    pub(crate) current_group_keys: Vec<Key>,
    /// The places of the batch's rows, in a vector of their own: an accumulator is handed the places alone.
    pub(crate) current_group_indices: Vec<usize>,
    ghost keys_room: { 512 ≤ vec_capacity current_group_keys },
    ghost places_room: { 512 ≤ vec_capacity current_group_indices },
}

/// The parts of held groups for whose buffers there was no memory, as they were passed; that is the only fault.
#[derive(Drop)]
pub struct HeldRefused<G, A> {
    pub group_values: G,
    pub accumulator: A,
}
