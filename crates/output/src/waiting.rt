//! Rows that wait.

ghost use Rattle.std.specs.Prelude.{◌≤◌, vec_len, vec_capacity};

use crate::output_row::OutputRow;

/// The most rows that are stored at a time.
pub const MAX_WAITING_ROWS: usize = 512;

/// Rows that wait to be taken, in their order.
#[derive(Drop)]
pub struct Waiting {
    pub(crate) rows: Vec<OutputRow>,
    /// The rows before this place have been handed out. A queue would move or wrap those that wait.
    pub(crate) at: usize,
    ghost within: { at ≤ vec_len rows },
    ghost few: { vec_len rows ≤ 512 },
    ghost room: { 512 ≤ vec_capacity rows },
}
