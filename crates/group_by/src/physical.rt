//! What is grouped by.
//!
//! Ported from datafusion-physical-plan 55.0.0, src/aggregates/mod.rs, and changed.

use crate::grouping_sets::GroupByFault;
use cells::Refused;

/// The key columns, and which of them each grouping set masks.
#[derive(Drop)]
pub struct PhysicalGroupBy {
    /// The numbers of the key columns.
    pub columns: Vec<usize>,
    /// The grouping sets, with a mark for each key column: true where it is masked.
    pub groups: Vec<Vec<bool>>,
    /// Whether a key ends in the id of its set.
    pub has_grouping_set: bool,
}

/// A grouping whose ids could not be worked out.
pub type GroupByRefused = Refused<PhysicalGroupBy, GroupByFault>;
