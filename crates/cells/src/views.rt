//! The calls of a batch.

ghost use Rattle.std.specs.Prelude.{◌≡◌, ◌≤◌, [], length, None, position, nat_lt, slice_index_or};
ghost use Rattle.cells.specs.Refusals.{batch_refusal};
ghost use Rattle.cells.specs.Views.{Views, view_rows};

use crate::batch::{Batch, BatchFault, Cell, MAX_BATCH_ROWS};

impl BatchFault {
    /// The refusal's number, by which documents and programs name it.
    pub fn number(self) -> u32
        ensures { result ≡ (batch_refusal self).number }
    {
        match self {
            BatchFault::Size => 9,
            BatchFault::Flag { .. } => 10,
        }
    }
}

/// The place of the first flag that is neither 0 nor 1.
fn bad_flag(flags: &[u8]) -> Option<usize>
    ensures { result ≡ position (λ f. nat_lt 1 f) flags.now }
{
    flags.iter().position(|flag| *flag > 1)
}

impl<'v, 'f> Batch<'v, 'f> {
    /// The view of whole rows, or the first thing that is wrong with them.
    pub fn new(
        values: &'v [i64],
        flags: &'f [u8],
        columns: usize,
    ) -> Result<Batch<'v, 'f>, BatchFault>
        ensures { Views columns values.now flags.now result }
    {
        if columns == 0 || values.len() % columns != 0 || flags.len() != values.len() {
            return Err(BatchFault::Size);
        }
        let rows = values.len() / columns;
        if rows > MAX_BATCH_ROWS {
            return Err(BatchFault::Size);
        }
        match bad_flag(flags) {
            Some(place) => Err(BatchFault::Flag {
                row: place / columns,
                column: place % columns,
            }),
            None => Ok(Batch {
                values,
                flags,
                columns,
                rows,
            }),
        }
    }

    /// How many rows the batch has.
    pub fn num_rows(&self) -> usize
        ensures value { result ≡ length (view_rows self.now) }
        ensures bound { result ≤ 512 }
    {
        self.rows
    }

    /// The cell of a row and a column; absent outside the batch.
    pub fn cell(&self, row: usize, column: usize) -> Cell
        ensures { result ≡ slice_index_or (slice_index_or (view_rows self.now) row []) column None }
    {
        if row >= self.rows || column >= self.columns {
            return None;
        }
        let place = row * self.columns + column;
        // `then_some` says the same, and needs a lemma of its own.
        if self.flags[place] == 1 {
            Some(self.values[place])
        } else {
            None
        }
    }
}
