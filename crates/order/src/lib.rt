//! Which groups of an ordered input are finished, and whether grouping pays at all.
//!
//! An ordering is known by its mark: the groups before it will get no more rows.

#![tactic(auto)]

mod full;
mod group_ordering;
mod ordering;
mod partial;
mod progress;
mod skip_partial;

pub use full::GroupOrderingFull;
pub use group_ordering::GroupOrdering;
pub use ordering::InputOrderMode;
pub use partial::GroupOrderingPartial;
pub use skip_partial::SkipAggregationProbe;
