//! A reservation with a limit.

ghost use Rattle.std.specs.Prelude.{◌≡◌};
ghost use Rattle.memory.specs.Bounded.{bounded_new, bounded_asks};

use crate::ruled::{GrowthRule, RuledReservation};

/// Grows up to its limit.
pub type BoundedReservation = RuledReservation<Limit>;

/// The most bytes that are granted.
#[derive(Debug, Drop)]
pub struct Limit {
    limit: usize,
}

impl BoundedReservation {
    /// Holds nothing yet.
    pub fn new(limit: usize) -> BoundedReservation
        ensures { result ≡ bounded_new limit }
    {
        RuledReservation::with_rule(Limit { limit })
    }
}

impl GrowthRule for Limit {
    ghost asks = { bounded_asks };

    fn grant(&mut self, capacity: usize) -> bool {
        capacity <= self.limit
    }
}
