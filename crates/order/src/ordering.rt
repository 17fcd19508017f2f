//! How an input is ordered.
//!
//! Ported from datafusion-physical-plan 55.0.0, src/ordering.rs, and changed.

/// The order that is declared of the rows by their keys.
#[derive(Drop)]
pub enum InputOrderMode {
    /// None.
    Linear,
    /// Rows that are alike in these positions of the key follow one another.
    PartiallySorted(Vec<usize>),
    /// Rows of one key follow one another.
    Sorted,
}
