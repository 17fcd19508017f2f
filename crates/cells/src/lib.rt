//! Cells, the keys made of them, and the view of a caller's batch.
//!
//! A cell is a signed 64-bit value or absent. A batch is the caller's two slices, values and flags, row by row.

#![tactic(auto)]

mod batch;
mod cell_row;
mod emit_to;
mod key;
mod refused;
mod views;
mod writing;

pub use batch::{Batch, BatchFault, Cell, MAX_BATCH_ROWS};
pub use cell_row::CellRow;
pub use emit_to::{EmitTo, MAX_GROUPS};
pub use key::{Key, MAX_KEY_CELLS};
pub use refused::Refused;
pub use writing::put;
