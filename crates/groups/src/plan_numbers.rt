//! What a plan says of numbers.

ghost use Rattle.std.specs.Prelude.{◌≡◌};
ghost use Rattle.std.specs.Option.{option_map};
ghost use Rattle.order.specs.Skip.{probe};
ghost use Rattle.model.specs.Setups.{is_linear, probes, first_probe};
ghost use Rattle.model.specs.Steps.{wanted, limited, piece};
ghost use Rattle.groups.specs.Plans.{settings_of};

use crate::plan::Plan;
use crate::settings::AggregateMode;
use order::{InputOrderMode, SkipAggregationProbe};

impl Plan {
    /// Whether states are handed out, and not results.
    pub fn is_partial(&self) -> bool
        ensures { result ≡ (settings_of self.now).partial }
    {
        self.settings.mode == AggregateMode::Partial
    }

    /// How many cells a row of the input has.
    pub fn columns(&self) -> usize
        ensures { result ≡ (settings_of self.now).columns }
    {
        self.settings.columns
    }

    /// Of the held groups, those wanted where memory is refused: whole batches, or all if there is less than one.
    pub fn wanted(&self, held: usize) -> usize
        ensures { result ≡ wanted (settings_of self.now).batch_size held }
    {
        if held >= self.settings.batch_size {
            held / self.settings.batch_size * self.settings.batch_size
        } else {
            held
        }
    }

    /// Whether so many held groups end the reading.
    pub fn is_limited(&self, held: usize) -> bool
        ensures { result ≡ limited (settings_of self.now).soft_limit held }
    {
        self.settings.soft_limit.is_some_and(|limit| limit <= held)
    }

    /// How many of the rows that wait one take hands out.
    pub fn piece(&self, whole: bool, waiting: usize) -> usize
        ensures { result ≡ piece (settings_of self.now).batch_size whole waiting }
    {
        if whole {
            waiting
        } else {
            self.settings.batch_size.min(waiting)
        }
    }

    /// Whether no order is declared.
    fn is_linear(&self) -> bool
        ensures { result ≡ is_linear (settings_of self.now).order }
    {
        matches!(self.settings.order, InputOrderMode::Linear)
    }

    /// Whether rows may be passed on ungrouped.
    fn probes(&self) -> bool
        ensures { result ≡ probes (settings_of self.now) }
    {
        self.is_partial()
            && self.is_linear()
            && !self.group_by().has_grouping_set
            && self.settings.probe_ratio < 1.0
    }

    /// The probe of a new stream, if it has one.
    pub fn new_probe(&self) -> Option<SkipAggregationProbe>
        ensures { option_map probe result ≡ first_probe (settings_of self.now) }
    {
        self.probes().then(|| SkipAggregationProbe::new(
            self.settings.probe_rows,
            self.settings.probe_ratio,
        ))
    }
}
