//! The columns of an aggregate, and the argument that a row gives it.

ghost use Rattle.std.specs.Prelude.{◌≡◌, [], slice_index_or};
ghost use Rattle.cells.specs.Views.{view_rows};
ghost use Rattle.aggregates.specs.Arguments.{argument_of, first_argument, is_true};

use cells::{Batch, Cell};

/// The columns of one aggregate. A filter passes a row whose cell is present and not 0.
#[derive(Clone, Copy, Debug)]
pub struct AggregateExpr {
    pub argument: usize,
    pub filter: Option<usize>,
}

fn is_true(cell: Cell) -> bool
    ensures { result ≡ is_true cell }
{
    cell.is_some_and(|value| value != 0)
}

/// The argument of a row, absent where the filter fails.
pub fn argument(batch: &Batch<'_, '_>, row: usize, expr: AggregateExpr) -> Cell
    ensures { result ≡ argument_of expr (slice_index_or (view_rows batch.now) row []) }
{
    // A closure over a batch would need its contract written out.
    let passes = match expr.filter {
        Some(column) => is_true(batch.cell(row, column)),
        None => true,
    };
    if passes {
        batch.cell(row, expr.argument)
    } else {
        None
    }
}

/// The argument of the first aggregate, absent where none is named.
pub fn first_argument(batch: &Batch<'_, '_>, row: usize, exprs: &[AggregateExpr]) -> Cell
    ensures { result ≡ first_argument exprs.now (slice_index_or (view_rows batch.now) row []) }
{
    argument(batch, row, *exprs.first()?)
}
