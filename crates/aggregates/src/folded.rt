//! Kinds whose state is one value, made of the arguments two by two.

ghost use Rattle.std.specs.Prelude.{◌≡◌, ℤ, refl};
ghost use Rattle.aggregates.specs.Values.{LawfulFold, value_kind};
ghost use Rattle.aggregates.specs.LawsOfKinds.{value_lawful};

use crate::aggregate_kind::AggregateKind;
use cells::{Cell, put};
use std::marker::PhantomData;

/// How two values become one, the later behind.
pub trait Fold {
    // What the two become.
    ghost op: { ℤ → ℤ → ℤ };

    /// The two as one, the later behind.
    fn fold(earlier: i64, later: i64) -> i64
        ensures { result ≡ op earlier later };

    ghost lawful: { LawfulFold op };
}

/// The arguments made one value by `F`; absent until one comes.
#[derive(Clone, Copy)]
pub struct Folded<F>(pub(crate) PhantomData<F>);

impl<F: Fold> AggregateKind for Folded<F> {
    type State = Cell;

    const STATE_CELLS: usize = 1;

    ghost STATE_CELLS = { 1 };

    ghost kind = { value_kind F.op };

    ghost lawful = { value_lawful F.op F.lawful };

    ghost same_cells = { refl };

    fn neutral() -> Cell {
        None
    }

    fn join(earlier: Cell, later: Cell) -> Cell {
        match (earlier, later) {
            (Some(a), Some(b)) => Some(F::fold(a, b)),
            (Some(_), None) => earlier,
            (None, _) => later,
        }
    }

    fn own(argument: Cell) -> Cell {
        argument
    }

    fn write(state: Cell, out: &mut [Cell]) {
        put(out, 0, state);
    }

    fn result(state: Cell) -> Cell {
        state
    }
}
