//! Groups of an input that is ordered by the whole key.
//!
//! Ported from datafusion-physical-plan 55.0.0, src/aggregates/order/full.rs, and changed.

ghost use Rattle.std.specs.Prelude.{◌≡◌, ℕ, List};
ghost use Rattle.order.specs.Orders.{start, sorted, opened, emit_to, removed, done};
ghost use Rattle.order.specs.Tracked.{full_order};
ghost use Rattle.cells.specs.Rows.{CellOf};

use crate::progress::Progress;
use cells::EmitTo;

/// Rows of one key follow one another, so a new group finishes those before it.
#[derive(Drop)]
pub struct GroupOrderingFull {
    /// A run is a group here, and needs no key beside its place.
    progress: Progress<()>,
}

impl GroupOrderingFull {
    /// The ordering before any group.
    pub fn new() -> GroupOrderingFull
        ensures { full_order result ≡ start sorted }
    {
        GroupOrderingFull {
            progress: Progress::Start,
        }
    }

    /// The groups that are finished, if any are.
    pub fn emit_to(&self) -> Option<EmitTo>
        ensures { result ≡ emit_to (full_order self.now) }
    {
        self.progress.emit_to()
    }

    /// The first `n` groups are gone, and the others have moved down.
    pub fn remove_groups(&mut self, n: usize)
        ensures { full_order self.new ≡ removed (full_order self.old) n }
    {
        self.progress.remove_groups(n)
    }

    /// The input is at its end.
    pub fn input_done(&mut self)
        ensures { full_order self.new ≡ done (full_order self.old) }
    {
        self.progress.input_done()
    }

    /// A batch has opened groups, and so many are held now.
    pub fn new_groups(&mut self, total_num_groups: usize)
        ensures { (keys : List (List CellOf)) (places : List ℕ) → full_order self.new ≡ opened (full_order self.old) keys places total_num_groups }
    {
        self.progress
            .begin_run(total_num_groups.saturating_sub(1), ())
    }
}
