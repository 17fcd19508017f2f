//! The making of a row.

ghost use Rattle.std.specs.Prelude.{◌≡◌, ◌≤◌, min, List, [], ◌++◌, length, take, replicate, None, slice_index_or};
ghost use Rattle.std.specs.Fn.{FnOnceReturnsAtMut};
ghost use Rattle.cells.specs.Rows.{CellOf, overlaid};
ghost use Rattle.cells.specs.Views.{view_rows};

use crate::output_row::{MAX_ROW_CELLS, OutputRow};
use accumulators::GroupsAccumulator;
use aggregates::AggregateExpr;
use cells::{Batch, Cell, Key};

/// The most cells that stand behind a key.
const MAX_STATE_CELLS: usize = 8;

/// Writes the key to the front of a row, and answers its length.
fn put_key(row: &mut [Cell; MAX_ROW_CELLS], key: &Key) -> usize
    ensures cells { row.new ≡ overlaid key.now row.old }
    ensures len { result ≡ length key.now }
    ensures bound { result ≤ 7 }
{
    let cells = key.as_slice();
    let len = cells.len();
    row[..len].copy_from_slice(cells);
    len
}

/// The key, and behind it what is written to so many cells, or to as many as there is room for.
fn built<F: FnOnce(&mut [Cell])>(key: &Key, cells: usize, write: F) -> OutputRow
    requires { F.IsAlwaysCallable write }
    ensures { (part : List CellOf) × FnOnceReturnsAtMut F.FnOnce write (replicate (min cells 8) None) tt part × (result ≡ key.now ++ part) }
{
    let mut row: [Cell; MAX_ROW_CELLS] = [None; MAX_ROW_CELLS];
    let start = put_key(&mut row, key);
    let end = start + cells.min(MAX_STATE_CELLS);
    write(&mut row[start..end]);
    OutputRow::from_slice(&row[..end])
}

/// The key and the state of a group.
pub fn state_row<A: GroupsAccumulator>(key: &Key, accumulator: &A, group: usize) -> OutputRow
    ensures { result ≡ key.now ++ take 8 (A.aggregation.shows (slice_index_or (A.states accumulator.now) group A.aggregation.neutral)) }
{
    built(key, A::state_cells(), |out| accumulator.state(group, out))
}

/// The key and the results of a group.
pub fn result_row<A: GroupsAccumulator>(key: &Key, accumulator: &A, group: usize) -> OutputRow
    ensures { result ≡ key.now ++ take 8 (A.aggregation.results (slice_index_or (A.states accumulator.now) group A.aggregation.neutral)) }
{
    built(key, A::aggregates(), |out| accumulator.evaluate(group, out))
}

/// The key and the own state of a batch's row.
pub fn converted_row<A: GroupsAccumulator>(
    key: &Key,
    accumulator: &A,
    batch: &Batch<'_, '_>,
    exprs: &[AggregateExpr],
    number: usize,
) -> OutputRow
    ensures { result ≡ key.now ++ take 8 (A.aggregation.shows (A.aggregation.own exprs.now (slice_index_or (view_rows batch.now) number []))) }
{
    let convert = |out: &mut [Cell]|
        ensures { out.new ≡ overlaid (A.aggregation.shows (A.aggregation.own exprs.entry.now (slice_index_or (view_rows batch.entry.now) number []))) out.old }
    { accumulator.convert_to_state(batch, exprs, number, out) };
    built(key, A::state_cells(), convert)
}
