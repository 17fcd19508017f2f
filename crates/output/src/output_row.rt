//! A row that goes out.

use cells::CellRow;

/// Seven cells of a key and eight of a state.
pub const MAX_ROW_CELLS: usize = 15;

/// The cells of a row, at most fifteen.
pub type OutputRow = CellRow<MAX_ROW_CELLS>;
