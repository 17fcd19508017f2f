//! Rows on their way out: a key's cells, and behind them those of a state or of results.
//! They wait in their order until a caller takes them, and are written to the caller's slices.

#![tactic(auto)]

mod output_row;
mod rows;
mod waiting;
mod waiting_rows;

pub use output_row::{MAX_ROW_CELLS, OutputRow};
pub use rows::{converted_row, result_row, state_row};
pub use waiting::{MAX_WAITING_ROWS, Waiting};
