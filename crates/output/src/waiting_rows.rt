//! The calls of the rows that wait.

ghost use Rattle.std.specs.Prelude.{◌≡◌, ◌+◌, ◌≤◌, ◌==◌, [], ◌∷◌, ◌++◌, map, length, take, drop, IfOk, if◌then◌else◌, nat_lt};
ghost use Rattle.cells.specs.Rows.{overlaid};
ghost use Rattle.output.specs.Slices.{value_of, flag_of, padded, flat, put_at};
ghost use Rattle.output.specs.Waits.{waiting_rows, stored};

use crate::output_row::OutputRow;
use crate::waiting::{MAX_WAITING_ROWS, Waiting};
use cells::{Cell, put};
use std::alloc::{AllocError, Global};

/// The value and the flag that a cell is written as.
fn parts(cell: Cell) -> (i64, u8)
    ensures value { result.0 ≡ value_of cell }
    ensures flag { result.1 ≡ flag_of cell }
{
    (cell.unwrap_or(0), u8::from(cell.is_some()))
}

/// Writes a row's first `width` cells from `start` on.
// The two slices are the caller's, and a struct of both would be made anew at each call.
fn write_row(row: &OutputRow, start: usize, width: usize, values: &mut [i64], flags: &mut [u8])
    ensures values { values.new ≡ put_at start (map value_of (padded width row.now)) values.old }
    ensures flags { flags.new ≡ put_at start (map flag_of (padded width row.now)) flags.old }
{
    for column in 0..width {
        let place = start.saturating_add(column);
        let (value, flag) = parts(row.cell(column));
        put(values, place, value);
        put(flags, place, flag);
    }
}

/// Writes the rows, each `width` cells long: cell `c` of row `r` comes to `r * width + c`.
fn write_rows(rows: &[OutputRow], width: usize, values: &mut [i64], flags: &mut [u8])
    ensures values { values.new ≡ overlaid (map value_of (flat width rows.now)) values.old }
    ensures flags { flags.new ≡ overlaid (map flag_of (flat width rows.now)) flags.old }
{
    for (number, row) in rows.iter().enumerate() {
        write_row(row, number.saturating_mul(width), width, values, flags);
    }
}

impl Waiting {
    /// No rows, with room for all that are ever stored.
    pub fn new(heap: Global) -> Result<Waiting, AllocError>
        ensures { IfOk result (λ w. (waiting_rows w ≡ []) × (stored w ≡ 0)) }
    {
        let rows = Vec::with_capacity(heap, MAX_WAITING_ROWS)?;
        Ok(Waiting { rows, at: 0 })
    }

    /// How many rows wait.
    pub fn len(&self) -> usize
        ensures value { result ≡ length (waiting_rows self.now) }
        ensures bound { result ≤ 512 }
    {
        self.rows.len() - self.at
    }

    /// Whether no row waits.
    pub fn is_empty(&self) -> bool
        ensures { result ≡ (length (waiting_rows self.now) == 0) }
    {
        self.len() == 0
    }

    /// Forgets all rows.
    pub fn clear(&mut self)
        ensures waiting { waiting_rows self.new ≡ [] }
        ensures stored { stored self.new ≡ 0 }
    {
        self.at = 0;
        self.rows.clear();
    }

    /// One row more; where no place is left, nothing changes.
    pub fn push(&mut self, row: OutputRow)
        ensures waiting { waiting_rows self.new ≡ (if nat_lt (stored self.old) 512 then waiting_rows self.old ++ (row ∷ []) else waiting_rows self.old) }
        ensures stored { stored self.new ≡ (if nat_lt (stored self.old) 512 then stored self.old + 1 else stored self.old) }
    {
        if self.rows.len() < MAX_WAITING_ROWS {
            self.rows.push_reserved(row);
        }
    }

    /// Hands the first `n` rows out, or all if fewer wait.
    pub fn hand_out(&mut self, n: usize, width: usize, values: &mut [i64], flags: &mut [u8])
        ensures waiting { waiting_rows self.new ≡ drop n (waiting_rows self.old) }
        ensures stored { stored self.new ≡ stored self.old }
        ensures values { values.new ≡ overlaid (map value_of (flat width (take n (waiting_rows self.old)))) values.old }
        ensures flags { flags.new ≡ overlaid (map flag_of (flat width (take n (waiting_rows self.old)))) flags.old }
    {
        let at = self.at;
        let end = at + n.min(self.rows.len() - at);
        write_rows(&self.rows[at..end], width, values, flags);
        self.at = end;
    }
}
