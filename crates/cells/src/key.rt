//! The key of a group.

use crate::cell_row::CellRow;

/// Six key columns and a group id.
pub const MAX_KEY_CELLS: usize = 7;

/// The cells of a key, at most seven.
pub type Key = CellRow<MAX_KEY_CELLS>;
