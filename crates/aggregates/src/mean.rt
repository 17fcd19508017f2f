//! The mean of the arguments.

ghost use Rattle.std.specs.Prelude.{refl};
ghost use Rattle.aggregates.specs.Means.{mean_kind};
ghost use Rattle.aggregates.specs.LawsOfKinds.{mean_lawful};

use crate::aggregate_kind::AggregateKind;
use cells::{Cell, put};

/// How many arguments came, and their sum.
#[derive(Clone, Copy, Debug)]
pub struct MeanState {
    pub count: i64,
    pub sum: i64,
}

/// The mean of the arguments, cut towards zero; absent while there is none.
#[derive(Clone, Copy)]
pub struct Mean;

impl AggregateKind for Mean {
    type State = MeanState;

    const STATE_CELLS: usize = 2;

    ghost STATE_CELLS = { 2 };

    ghost kind = { mean_kind };

    ghost lawful = { mean_lawful };

    ghost same_cells = { refl };

    fn neutral() -> MeanState {
        MeanState { count: 0, sum: 0 }
    }

    fn join(earlier: MeanState, later: MeanState) -> MeanState {
        MeanState {
            count: earlier.count.wrapping_add(later.count),
            sum: earlier.sum.wrapping_add(later.sum),
        }
    }

    fn own(argument: Cell) -> MeanState {
        match argument {
            Some(sum) => MeanState { count: 1, sum },
            None => Self::neutral(),
        }
    }

    fn write(state: MeanState, out: &mut [Cell]) {
        put(out, 0, Some(state.count));
        put(out, 1, Some(state.sum));
    }

    fn result(state: MeanState) -> Cell {
        (state.count > 0).then(|| state.sum / state.count)
    }
}
