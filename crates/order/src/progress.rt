//! How far an ordered input has come.
//!
//! Ported from datafusion-physical-plan 55.0.0, src/aggregates/order/full.rs and partial.rs, and changed.

ghost use Rattle.std.specs.Prelude.{◌≡◌, ◌≢◌, Option, List, cond};
ghost use Rattle.cells.specs.Rows.{CellOf};
ghost use Rattle.order.specs.Orders.{Mode, linear, marked, emit_to, removed, done};
ghost use Rattle.order.specs.Tracked.{progress_order};

use cells::EmitTo;

/// Which groups are finished, whatever key tells the runs apart.
#[derive(Clone, Copy)]
pub(crate) enum Progress<K> {
    /// No group yet.
    Start,
    /// Groups have been opened.
    InProgress {
        /// The first group that may still get rows; those before it may not.
        current: usize,
        /// The key of the run that was counted last.
        sort_key: K,
    },
    /// The input is at its end: all groups are finished.
    Complete,
}

impl<K: Copy> Progress<K> {
    /// The groups that are finished, if any are.
    pub(crate) fn emit_to(&self) -> Option<EmitTo>
        ensures { (m : Mode) (key : K → Option (List CellOf)) → m ≢ linear → result ≡ emit_to (progress_order m key self.now) }
    {
        match *self {
            Progress::Start | Progress::InProgress { current: 0, .. } => None,
            Progress::InProgress { current, .. } => Some(EmitTo::First(current)),
            Progress::Complete => Some(EmitTo::All),
        }
    }

    /// The first `n` groups are gone, and the others have moved down.
    pub(crate) fn remove_groups(&mut self, n: usize)
        ensures { (m : Mode) (key : K → Option (List CellOf)) → m ≢ linear → progress_order m key self.new ≡ removed (progress_order m key self.old) n }
    {
        if let Progress::InProgress { current, .. } = self {
            *current = current.saturating_sub(n);
        }
    }

    /// The input is at its end.
    pub(crate) fn input_done(&mut self)
        ensures { (m : Mode) (key : K → Option (List CellOf)) → m ≢ linear → progress_order m key self.new ≡ done (progress_order m key self.old) }
    {
        *self = Progress::Complete;
    }

    /// A run begins at the group `current`; at the input's end nothing changes.
    pub(crate) fn begin_run(&mut self, current: usize, sort_key: K)
        ensures { (m : Mode) (key : K → Option (List CellOf)) → let o = progress_order m key self.old in progress_order m key self.new ≡ cond o.ended o (marked o current (key sort_key)) }
    {
        if !matches!(self, Progress::Complete) {
            *self = Progress::InProgress { current, sort_key };
        }
    }
}
