//! Two accumulators over the same groups.

ghost use Rattle.std.specs.Prelude.{◌≡◌, take, drop};
ghost use Rattle.accumulators.specs.Aggregations.{paired};
ghost use Rattle.accumulators.specs.Groups.{side_by_side};
ghost use Rattle.accumulators.specs.LawsOfPairs.{pair_lawful};

use crate::groups_accumulator::GroupsAccumulator;
use aggregates::AggregateExpr;
use cells::{Batch, Cell, EmitTo};

/// Any two accumulators are one, their states side by side.
#[derive(Drop)]
pub struct PairGroupsAccumulator<P: GroupsAccumulator, Q: GroupsAccumulator> {
    first: P,
    second: Q,
}

impl<P: GroupsAccumulator, Q: GroupsAccumulator> PairGroupsAccumulator<P, Q> {
    /// The two as one. If one holds fewer groups, its others are neutral.
    pub fn new(first: P, second: Q) -> PairGroupsAccumulator<P, Q>
        ensures first { result.first ≡ first }
        ensures second { result.second ≡ second }
    {
        PairGroupsAccumulator { first, second }
    }
}

/// The columns of an accumulator's aggregates, and those behind them.
fn split_exprs<A: GroupsAccumulator>(
    exprs: &[AggregateExpr],
) -> (&[AggregateExpr], &[AggregateExpr])
    ensures front { result.0.now ≡ take A.aggregation.aggregates exprs.now }
    ensures back { result.1.now ≡ drop A.aggregation.aggregates exprs.now }
{
    exprs.split_at(A::aggregates().min(exprs.len()))
}

impl<P, Q> GroupsAccumulator for PairGroupsAccumulator<P, Q>
where
    P: GroupsAccumulator,
    Q: GroupsAccumulator,
{
    type State = (P::State, Q::State);

    ghost states = { λ p. side_by_side P.aggregation.neutral Q.aggregation.neutral (P.states p.first) (Q.states p.second) };

    ghost aggregation = { paired P.aggregation Q.aggregation };

    ghost lawful = { pair_lawful _ _ P.lawful Q.lawful };

    fn aggregates() -> usize {
        P::aggregates().saturating_add(Q::aggregates())
    }

    fn state_cells() -> usize {
        P::state_cells().saturating_add(Q::state_cells())
    }

    fn num_groups(&self) -> usize {
        self.first.num_groups().max(self.second.num_groups())
    }

    fn update_batch(
        &mut self,
        batch: &Batch<'_, '_>,
        exprs: &[AggregateExpr],
        places: &[usize],
        total_num_groups: usize,
    ) {
        let (front, back) = split_exprs::<P>(exprs);
        self.first
            .update_batch(batch, front, places, total_num_groups);
        self.second
            .update_batch(batch, back, places, total_num_groups);
    }

    fn convert_to_state(
        &self,
        batch: &Batch<'_, '_>,
        exprs: &[AggregateExpr],
        row: usize,
        out: &mut [Cell],
    ) {
        let (front, back) = split_exprs::<P>(exprs);
        let (left, right) = out.split_at_mut(P::state_cells().min(out.len()));
        self.first.convert_to_state(batch, front, row, left);
        self.second.convert_to_state(batch, back, row, right);
    }

    fn state(&self, group: usize, out: &mut [Cell]) {
        let (left, right) = out.split_at_mut(P::state_cells().min(out.len()));
        self.first.state(group, left);
        self.second.state(group, right);
    }

    fn evaluate(&self, group: usize, out: &mut [Cell]) {
        let (left, right) = out.split_at_mut(P::aggregates().min(out.len()));
        self.first.evaluate(group, left);
        self.second.evaluate(group, right);
    }

    fn emit(&mut self, emit_to: EmitTo) {
        self.first.emit(emit_to);
        self.second.emit(emit_to);
    }
}
