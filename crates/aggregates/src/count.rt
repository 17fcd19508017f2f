//! How many rows have an argument.

ghost use Rattle.std.specs.Prelude.{refl};
ghost use Rattle.aggregates.specs.Counts.{count_kind};
ghost use Rattle.aggregates.specs.LawsOfKinds.{count-lawful};

use crate::aggregate_kind::AggregateKind;
use cells::{Cell, put};

/// How many rows have an argument, wrapping at 64 bits.
#[derive(Clone, Copy)]
pub struct Count;

impl AggregateKind for Count {
    type State = i64;

    const STATE_CELLS: usize = 1;

    ghost STATE_CELLS = { 1 };

    ghost kind = { count_kind };

    ghost lawful = { count-lawful };

    ghost same_cells = { refl };

    fn neutral() -> i64 {
        0
    }

    fn join(earlier: i64, later: i64) -> i64 {
        earlier.wrapping_add(later)
    }

    fn own(argument: Cell) -> i64 {
        i64::from(argument.is_some())
    }

    fn write(state: i64, out: &mut [Cell]) {
        put(out, 0, Some(state));
    }

    fn result(state: i64) -> Cell {
        Some(state)
    }
}
