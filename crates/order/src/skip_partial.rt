//! Whether grouping pays, or rows are better passed on as they come.
//!
//! Ported from datafusion-physical-plan 55.0.0, src/aggregates/skip_partial.rs, and changed.

ghost use Rattle.std.specs.Prelude.{◌≡◌};
ghost use Rattle.order.specs.Skip.{probe, fresh, told};

/// Counts the rows read, and compares the groups they made with them.
#[derive(Drop)]
pub struct SkipAggregationProbe {
    /// The rows that have to be read before the probe says anything.
    probe_rows_threshold: u64,
    /// The groups for each row above which grouping does not pay.
    probe_ratio_threshold: f64,
    /// The rows read so far.
    input_rows: u64,
    /// Whether the probe has said skip, which is final.
    should_skip: bool,
}

impl SkipAggregationProbe {
    /// A probe that has read no row.
    pub fn new(probe_rows_threshold: u64, probe_ratio_threshold: f64) -> SkipAggregationProbe
        ensures { probe result ≡ fresh probe_rows_threshold probe_ratio_threshold }
    {
        SkipAggregationProbe {
            probe_rows_threshold,
            probe_ratio_threshold,
            input_rows: 0,
            should_skip: false,
        }
    }

    /// So many rows more were read, and so many groups are held.
    pub fn update_state(&mut self, input_rows: u64, num_groups: u64)
        ensures { probe self.new ≡ told (probe self.old) input_rows num_groups }
    {
        if self.should_skip {
            return;
        }
        self.input_rows = self.input_rows.saturating_add(input_rows);
        if self.input_rows >= self.probe_rows_threshold {
            let groups = std::num::nearest_u64_to_f64(num_groups);
            let rows = std::num::nearest_u64_to_f64(self.input_rows);
            self.should_skip = groups / rows > self.probe_ratio_threshold;
        }
    }

    /// Whether rows are better passed on.
    pub fn should_skip(&self) -> bool
        ensures { result ≡ (probe self.now).skips }
    {
        self.should_skip // a yes is final
    }
}
