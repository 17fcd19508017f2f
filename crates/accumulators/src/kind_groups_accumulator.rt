//! The accumulator of one aggregate, of any kind.

ghost use Rattle.std.specs.Prelude.{◌≡◌, ◌≤◌, [], IfOk, slice_index_or, vec_capacity};
ghost use Rattle.accumulators.specs.Aggregations.{of_kind};
ghost use Rattle.std.proofs.Common.{rules};

use crate::groups_accumulator::GroupsAccumulator;
use aggregates::{AggregateExpr, AggregateKind, first_argument};
use cells::{Batch, Cell, EmitTo, MAX_GROUPS, put};
use std::alloc::{AllocError, Global};

/// The accumulator of one aggregate, of any kind.
#[derive(Drop)]
pub struct KindGroupsAccumulator<K: AggregateKind> {
    /// The state of each held group, by its place.
    states: Vec<K::State>,
    ghost room: { 512 ≤ vec_capacity states },
}

impl<K: AggregateKind> KindGroupsAccumulator<K> {
    /// An accumulator of no groups, with room for all that it will ever hold.
    pub fn new(heap: Global) -> Result<KindGroupsAccumulator<K>, AllocError>
        ensures { IfOk result (λ a. a.states.items ≡ []) }
    {
        let states = Vec::with_capacity(heap, MAX_GROUPS)?;
        Ok(KindGroupsAccumulator { states })
    }

    /// The state of a group; one that is not held is neutral.
    fn held(&self, group: usize) -> K::State
        ensures { result ≡ slice_index_or self.now.states.items group K.kind.neutral }
    {
        self.states.get(group).copied().unwrap_or(K::neutral())
    }
}

impl<K: AggregateKind> GroupsAccumulator for KindGroupsAccumulator<K> {
    type State = K::State;

    ghost states = { λ a. a.states.items };

    ghost aggregation = { of_kind K.kind };

    ghost lawful = { Prim.search rules };

    fn aggregates() -> usize {
        1
    }

    fn state_cells() -> usize {
        K::STATE_CELLS
    }

    fn num_groups(&self) -> usize {
        self.states.len()
    }

    fn update_batch(
        &mut self,
        batch: &Batch<'_, '_>,
        exprs: &[AggregateExpr],
        places: &[usize],
        total_num_groups: usize,
    ) {
        let total = total_num_groups.min(MAX_GROUPS);
        if self.states.len() < total {
            // `new` made the room, so this cannot fail.
            let _ = self.states.resize(total, K::neutral());
        }
        for (row, place) in places.iter().enumerate() {
            if *place < total {
                let own = K::own(first_argument(batch, row, exprs));
                let state = &mut self.states[*place];
                *state = K::join(*state, own);
            }
        }
    }

    fn convert_to_state(
        &self,
        batch: &Batch<'_, '_>,
        exprs: &[AggregateExpr],
        row: usize,
        out: &mut [Cell],
    ) {
        K::write(K::own(first_argument(batch, row, exprs)), out);
    }

    fn state(&self, group: usize, out: &mut [Cell]) {
        K::write(self.held(group), out);
    }

    fn evaluate(&self, group: usize, out: &mut [Cell]) {
        put(out, 0, K::result(self.held(group)));
    }

    fn emit(&mut self, emit_to: EmitTo) {
        emit_to.shift(&mut self.states);
    }
}
