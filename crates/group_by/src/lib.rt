//! Which key columns a row is grouped by: grouping sets, their ids, and the key of a row.
//!
//! Ported from datafusion-physical-plan 55.0.0, src/aggregates/mod.rs (its group-by items), and changed.

#![tactic(auto)]

mod count;
mod evaluate;
mod group_id;
mod grouping_sets;
mod keys;
mod physical;

pub use count::{count_equal, distinct_positions};
pub use evaluate::masked_key;
pub use group_id::{GroupIdFault, group_id_array, ordinal_bits};
pub use grouping_sets::{GroupByFault, group_ids, max_duplicate_ordinal};
pub use keys::GroupByKeys;
pub use physical::{GroupByRefused, PhysicalGroupBy};
