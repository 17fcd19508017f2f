//! A reservation whose answers were written down before.

ghost use Rattle.std.specs.Prelude.{◌≡◌};
ghost use Rattle.memory.specs.Recorded.{recorded_new, recorded_asks};

use crate::ruled::{GrowthRule, RuledReservation};

/// Answers the growths by the bits of a word, the lowest first, where 1 grants.
///
/// It grants the growths after the 64th, and whatever is no growth.
pub type RecordedReservation = RuledReservation<Recording>;

/// The answers to the growths.
#[derive(Debug, Drop)]
pub struct Recording {
    word: u64,
    /// How many growths were asked for, up to 64.
    growths: u32,
}

impl RecordedReservation {
    /// Holds nothing yet.
    pub fn new(word: u64) -> RecordedReservation
        ensures { result ≡ recorded_new word }
    {
        RuledReservation::with_rule(Recording { word, growths: 0 })
    }
}

impl GrowthRule for Recording {
    ghost asks = { recorded_asks };

    fn grant(&mut self, _capacity: usize) -> bool {
        let Some(answers) = self.word.checked_shr(self.growths) else {
            return true;
        };
        self.growths += 1;
        answers % 2 == 1
    }
}
