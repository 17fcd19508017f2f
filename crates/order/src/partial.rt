//! Groups of an input that is ordered by a part of the key.
//!
//! Ported from datafusion-physical-plan 55.0.0, src/aggregates/order/partial.rs, and changed.

ghost use Rattle.std.specs.Prelude.{◌≡◌, ℕ, ◌&&◌, [], map, ◌==◌, slice_index_or, MatchOption};
ghost use Rattle.order.specs.Runs.{sort_key, sort_keys, LastRun};
ghost use Rattle.order.specs.Orders.{start, partially, opened, is_counted, emit_to, removed, done};
ghost use Rattle.order.specs.Tracked.{partial_order};

use crate::progress::Progress;
use cells::{EmitTo, Key};

/// Rows of one sort key follow one another, so a new sort key finishes the groups of those before it.
#[derive(Drop)]
pub struct GroupOrderingPartial {
    progress: Progress<Key>,
    /// The positions of the key that make up the sort key.
    order_indices: Vec<usize>,
}

/// The last run of rows with one sort key.
#[derive(Clone, Copy)]
struct Run {
    start: usize,
    sort_key: Key,
}

impl GroupOrderingPartial {
    /// The ordering before any group.
    pub fn new(order_indices: Vec<usize>) -> GroupOrderingPartial
        ensures { partial_order result ≡ start (partially order_indices.items) }
    {
        GroupOrderingPartial {
            progress: Progress::Start,
            order_indices,
        }
    }

    /// The groups that are finished, if any are.
    pub fn emit_to(&self) -> Option<EmitTo>
        ensures { result ≡ emit_to (partial_order self.now) }
    {
        self.progress.emit_to()
    }

    /// The first `n` groups are gone, and the others have moved down.
    pub fn remove_groups(&mut self, n: usize)
        ensures { partial_order self.new ≡ removed (partial_order self.old) n }
    {
        self.progress.remove_groups(n)
    }

    /// The input is at its end.
    pub fn input_done(&mut self)
        ensures { partial_order self.new ≡ done (partial_order self.old) }
    {
        self.progress.input_done()
    }

    /// The cells of a key at the sort positions.
    #[tactic(auto, using(crate::proofs::SortKeys::sort_key_more))]
    fn sort_key(&self, key: &Key) -> Key
        ensures { result ≡ sort_key self.now.order_indices.items key.now }
    {
        let mut sort_key = Key::new();
        for &position in &self.order_indices {
            sort_key.push(key.cell(position));
        }
        sort_key
    }

    /// The last run of the batch, if it has rows.
    fn last_run(&self, keys: &[Key]) -> Option<Run>
        ensures { let ks = sort_keys self.now.order_indices.items keys.now in MatchOption result (keys.now ≡ []) (λ run. LastRun ks run.start × (run.sort_key ≡ slice_index_or ks run.start [])) }
    {
        let sort_key = self.sort_key(keys.last()?);
        let before = keys.iter().rposition(|key| self.sort_key(key) != sort_key);
        Some(Run {
            start: before.map_or(0, |row| row + 1),
            sort_key,
        })
    }

    /// Whether the run is the whole batch and goes on with the run that was counted last.
    #[tactic(auto, using(cells::proofs::Same::key_decides))]
    fn goes_on(&self, run: &Run) -> bool
        ensures { result ≡ (run.now.start == 0 && is_counted (partial_order self.now).counted run.now.sort_key) }
    {
        matches!(self.progress, Progress::InProgress { sort_key, .. } if run.start == 0 && sort_key == run.sort_key)
    }

    /// A batch has opened groups; its rows have these keys and places.
    pub fn new_groups(&mut self, keys: &[Key], places: &[usize])
        ensures { (total : ℕ) → partial_order self.new ≡ opened (partial_order self.old) keys.now places.now total }
    {
        // At the input's end nothing changes, so that the keys need not be looked at.
        if matches!(self.progress, Progress::Complete) {
            return;
        }
        let Some(run) = self.last_run(keys) else {
            return;
        };
        if !self.goes_on(&run) {
            let current = places.get(run.start).copied().unwrap_or(0);
            self.progress.begin_run(current, run.sort_key);
        }
    }
}
