//! The view of a batch over the caller's two slices.

ghost use Rattle.std.specs.Prelude.{◌≡◌, ◌*◌, ◌≤◌, length};

/// A signed 64-bit value, or absent.
pub type Cell = Option<i64>;

/// The most rows that a batch may have.
pub const MAX_BATCH_ROWS: usize = 512;

/// Why two slices are no batch.
#[derive(Clone, Copy, PartialEq, Eq, Debug)]
pub enum BatchFault {
    /// The slices are not equally long, break a row off, or hold too many rows.
    Size,
    /// The first flag that is neither 0 nor 1.
    Flag { row: usize, column: usize },
}

/// The rows in the caller's two slices: cell `c` of row `r` stands at `r * columns + c`.
///
/// Values and flags stay two slices, since callers have them so.
#[derive(Clone, Copy)]
pub struct Batch<'v, 'f> {
    pub(crate) values: &'v [i64],
    pub(crate) flags: &'f [u8],
    pub(crate) columns: usize,
    pub(crate) rows: usize,
    ghost whole: { length values.now ≡ rows * columns },
    ghost few: { rows ≤ 512 },
    ghost even: { length flags.now ≡ rows * columns },
}
