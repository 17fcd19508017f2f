//! A reservation that grows by a rule.

ghost use Rattle.std.specs.Prelude.{◌≡◌, Bool, ℕ};
ghost use Rattle.memory.specs.Ruled.{ruled_new, RuledAsks};
ghost use Rattle.std.proofs.Common.{rules};

use crate::reservation::MemoryReservation;

/// Which growths are granted.
pub trait GrowthRule {
    // Asked for a growth to so many bytes, it may answer so, and become that.
    ghost asks: { Self → ℕ → Bool → Self → Type 0 };

    /// Says whether a growth to `capacity` bytes in all is granted.
    fn grant(&mut self, capacity: usize) -> bool
        ensures { asks self.old capacity result self.new };
}

/// Asks its rule for each growth, and grants whatever is no growth.
#[derive(Debug, Drop)]
pub struct RuledReservation<G> {
    rule: G,
    size: usize,
    last_answer: bool,
}

impl<G: GrowthRule> RuledReservation<G> {
    /// Holds nothing yet.
    pub(crate) fn with_rule(rule: G) -> RuledReservation<G>
        ensures { result ≡ ruled_new rule }
    {
        RuledReservation {
            rule,
            size: 0,
            last_answer: true,
        }
    }
}

impl<G: GrowthRule> MemoryReservation for RuledReservation<G> {
    ghost bytes = { λ s. s.size };

    ghost granted = { λ s. s.last_answer };

    ghost asks = { RuledAsks G.GrowthRule.asks };

    ghost lawful = { Prim.search rules };

    fn try_resize(&mut self, capacity: usize) -> bool {
        let granted = capacity <= self.size || self.rule.grant(capacity);
        if granted {
            self.size = capacity;
        }
        self.last_answer = granted;
        granted
    }

    fn size(&self) -> usize {
        self.size
    }

    fn last_answer(&self) -> bool {
        self.last_answer
    }
}
