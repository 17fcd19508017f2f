//! Held groups as they are made.
//!
//! Ported from datafusion-physical-plan 55.0.0, src/aggregates/grouped_hash_stream.rs, and changed.

ghost use Rattle.std.specs.Prelude.{◌≡◌, ◌≤◌, IfOk, vec_capacity};
ghost use Rattle.order.specs.Orders.{start};
ghost use Rattle.order.specs.Tracked.{order_of, mode_of};
ghost use Rattle.groups.specs.Held.{HasHeld};

use crate::held::{HeldGroups, HeldRefused};
use accumulators::GroupsAccumulator;
use cells::{Key, MAX_BATCH_ROWS};
use group_values::GroupValues;
use order::{GroupOrdering, InputOrderMode};
use std::alloc::{AllocError, Global};

/// The ordering before any group, and room for the keys and the places of a batch.
fn buffers(
    heap: Global,
    order: &InputOrderMode,
) -> Result<(GroupOrdering, Vec<Key>, Vec<usize>), AllocError>
    ensures ordering { IfOk result (λ b. order_of b.0 ≡ start (mode_of order.now)) }
    ensures room { IfOk result (λ b. (512 ≤ vec_capacity b.1) × (512 ≤ vec_capacity b.2)) }
{
    let group_ordering = GroupOrdering::try_new(heap, order)?;
    let keys = Vec::with_capacity(heap, MAX_BATCH_ROWS)?;
    let places = Vec::with_capacity(heap, MAX_BATCH_ROWS)?;
    Ok((group_ordering, keys, places))
}

impl<G: GroupValues, A: GroupsAccumulator> HeldGroups<G, A> {
    /// The groups of a table and of an accumulator, with buffers for a batch; the two come back where there is no
    /// memory.
    pub fn new(
        heap: Global,
        group_values: G,
        accumulator: A,
        order: &InputOrderMode,
    ) -> Result<HeldGroups<G, A>, HeldRefused<G, A>>
        ensures { HasHeld group_values accumulator (mode_of order.now) result }
    {
        match buffers(heap, order) {
            Ok((group_ordering, current_group_keys, current_group_indices)) => Ok(HeldGroups {
                group_values,
                accumulator,
                group_ordering,
                current_group_keys,
                current_group_indices,
            }),
            Err(AllocError) => Err(HeldRefused {
                group_values,
                accumulator,
            }),
        }
    }

    /// The table of the groups' keys.
    pub fn group_values(&self) -> &G
        ensures { result.now ≡ self.now.group_values }
    {
        &self.group_values
    }

    /// The table and the accumulator, as they are.
    pub fn into_parts(self) -> (G, A)
        ensures { (result.0 ≡ self.group_values) × (result.1 ≡ self.accumulator) }
    {
        let HeldGroups {
            group_values,
            accumulator,
            group_ordering: _,
            current_group_keys: _,
            current_group_indices: _,
        } = self;
        (group_values, accumulator)
    }
}
