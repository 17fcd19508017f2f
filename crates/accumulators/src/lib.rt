//! Accumulators: one state for each held group, in the order of the groups.
//!
//! `KindGroupsAccumulator` keeps the states of one aggregate of any kind, and `PairGroupsAccumulator` makes one accumulator of two.
//! Room for 512 groups is made in `new`, so that no later call can fail.

#![tactic(auto)]

mod groups_accumulator;
mod kind_groups_accumulator;
mod pair;

pub use groups_accumulator::GroupsAccumulator;
pub use kind_groups_accumulator::KindGroupsAccumulator;
pub use pair::PairGroupsAccumulator;

#[cfg(test)]
mod tests {
    use super::*;
    use aggregates::{AggregateExpr, Earliest, Mean};
    use cells::{Batch, EmitTo};
    use std::test::Fail;

    #[test]
    fn the_next_group_becomes_the_first(rt: HostRuntime) -> Result<(), Fail> {
        let means = KindGroupsAccumulator::<Mean>::new(rt.alloc())?;
        let earliest = KindGroupsAccumulator::<Earliest>::new(rt.alloc())?;
        let mut all = PairGroupsAccumulator::new(means, earliest);
        let batch = Batch::new(&[7, 1, 8, 0, -3, 1, -4, 1], &[1; 8], 2)
            .ok()
            .ok_or("no batch")?;
        let expr = AggregateExpr {
            argument: 0,
            filter: Some(1),
        };
        all.update_batch(&batch, &[expr, expr], &[0, 1, 1, 1], 2);
        all.emit(EmitTo::First(1));
        let mut row = [None; 2];
        all.evaluate(0, &mut row);
        assert_eq!(rt; row[0], Some(-3));
        assert_eq!(rt; row[1], Some(-3));
        assert_eq!(rt; all.num_groups(), 1);
        Ok(())
    }
}
