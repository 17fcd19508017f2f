//! How many bytes a part may hold: a reservation that may refuse to grow, and three kinds of it.
//!
//! It stands for the `MemoryReservation` of datafusion-execution, of which datafusion-physical-plan 55.0.0 asks
//! `try_resize` and `size`.

#![tactic(auto)]

mod bounded;
mod peak;
mod recorded;
mod reservation;
mod ruled;

pub use bounded::BoundedReservation;
pub use peak::PeakReservation;
pub use recorded::RecordedReservation;
pub use reservation::MemoryReservation;
