//! The grouped aggregation stream.

#![tactic(auto)]

mod calls;
mod closing;
mod faults;
mod grouped_hash_stream;
mod making;
mod state;

pub use faults::{OfferFault, TakeFault};
pub use state::{ClosingStream, GroupedHashAggregateStream, StreamParts, StreamRefused};
