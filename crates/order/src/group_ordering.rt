//! The ordering of the groups, whichever it is.
//!
//! Ported from datafusion-physical-plan 55.0.0, src/aggregates/order/mod.rs, and changed.

ghost use Rattle.std.specs.Prelude.{◌≡◌, map, IfOk};
ghost use Rattle.order.specs.Orders.{start, opened, emit_to, oom_emit_to, removed, done};
ghost use Rattle.order.specs.Tracked.{order_of, mode_of};

use crate::full::GroupOrderingFull;
use crate::ordering::InputOrderMode;
use crate::partial::GroupOrderingPartial;
use cells::{EmitTo, Key};
use std::alloc::{AllocError, Global};

/// What is known of the groups that are held.
// One of three kinds; a trait object would need the heap.
#[derive(Drop)]
pub enum GroupOrdering {
    /// Nothing: a later row may belong to any of them.
    None,
    /// Groups of one sort key follow one another.
    Partial(GroupOrderingPartial),
    /// Rows of one group follow one another.
    Full(GroupOrderingFull),
}

impl GroupOrdering {
    /// The ordering of an input, before any group.
    pub fn try_new(heap: Global, mode: &InputOrderMode) -> Result<GroupOrdering, AllocError>
        ensures { IfOk result (λ o. order_of o ≡ start (mode_of mode.now)) }
    {
        match mode {
            InputOrderMode::Linear => Ok(GroupOrdering::None),
            InputOrderMode::PartiallySorted(positions) => {
                let order_indices = Vec::from_slice(heap, positions)?;
                Ok(GroupOrdering::Partial(GroupOrderingPartial::new(order_indices)))
            }
            InputOrderMode::Sorted => Ok(GroupOrdering::Full(GroupOrderingFull::new())),
        }
    }

    /// The groups that are finished, if any are.
    pub fn emit_to(&self) -> Option<EmitTo>
        ensures { result ≡ emit_to (order_of self.now) }
    {
        match self {
            GroupOrdering::None => None,
            GroupOrdering::Partial(partial) => partial.emit_to(),
            GroupOrdering::Full(full) => full.emit_to(),
        }
    }

    /// The groups to emit where memory is short and `n` of them are wanted: no more than are finished, if an order
    /// is declared.
    pub fn oom_emit_to(&self, n: usize) -> Option<EmitTo>
        ensures { result ≡ oom_emit_to (order_of self.now) n }
    {
        if n == 0 {
            return None;
        }
        if let GroupOrdering::None = self {
            return Some(EmitTo::First(n));
        }
        Some(EmitTo::First(self.emit_to()?.count(n)))
    }

    /// The first `n` groups are gone, and the others have moved down.
    pub fn remove_groups(&mut self, n: usize)
        ensures { order_of self.new ≡ removed (order_of self.old) n }
    {
        match self {
            GroupOrdering::None => {}
            GroupOrdering::Partial(partial) => partial.remove_groups(n),
            GroupOrdering::Full(full) => full.remove_groups(n),
        }
    }

    /// The input is at its end: all groups are finished.
    pub fn input_done(&mut self)
        ensures { order_of self.new ≡ done (order_of self.old) }
    {
        match self {
            GroupOrdering::None => {}
            GroupOrdering::Partial(partial) => partial.input_done(),
            GroupOrdering::Full(full) => full.input_done(),
        }
    }

    /// A batch has opened groups; its rows have these keys and places, and so many groups are held now.
    pub fn new_groups(&mut self, keys: &[Key], places: &[usize], total_num_groups: usize)
        ensures { order_of self.new ≡ opened (order_of self.old) keys.now places.now total_num_groups }
    {
        match self {
            GroupOrdering::None => {}
            GroupOrdering::Partial(partial) => partial.new_groups(keys, places),
            GroupOrdering::Full(full) => full.new_groups(total_num_groups),
        }
    }
}
