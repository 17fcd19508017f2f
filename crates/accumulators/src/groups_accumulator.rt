//! What every accumulator promises, under the names of DataFusion's `GroupsAccumulator`.

ghost use Rattle.std.specs.Prelude.{◌≡◌, ◌-◌, ◌^◌, min, List, [], length, slice_index_or};
ghost use Rattle.cells.specs.Rows.{overlaid};
ghost use Rattle.cells.specs.Views.{view_rows};
ghost use Rattle.cells.specs.Emits.{left as remaining};
ghost use Rattle.accumulators.specs.Aggregations.{Aggregation, Lawful};
ghost use Rattle.accumulators.specs.Groups.{updated};

use aggregates::AggregateExpr;
use cells::{Batch, Cell, EmitTo};

/// One state for each held group, in the order of the groups.
// A batch, the columns and a row stand for the arrays that the original's calls take.
pub trait GroupsAccumulator {
    type State;

    // One state for each held group, by its place.
    ghost states: { Self → List Self.State };

    // What a state is: how two join, what a row's own is, and what is shown of it.
    ghost aggregation: { Aggregation Self.State };

    /// How many aggregates the accumulator carries, or the greatest number if there are more.
    fn aggregates() -> usize
        ensures { result ≡ min aggregation.aggregates (2 ^ 64 - 1) };

    /// How many cells a state has, or the greatest number if there are more.
    fn state_cells() -> usize
        ensures { result ≡ min aggregation.state_cells (2 ^ 64 - 1) };

    /// How many groups are held.
    fn num_groups(&self) -> usize
        ensures { result ≡ length (states self.now) };

    /// Each row's own state goes behind that of its group; a new group starts neutral.
    fn update_batch(
        &mut self,
        batch: &Batch<'_, '_>,
        exprs: &[AggregateExpr],
        places: &[usize],
        total_num_groups: usize,
    )
        ensures { states self.new ≡ updated aggregation exprs.now (view_rows batch.now) places.now total_num_groups (states self.old) };

    /// Writes a row's own state, as far as there is room.
    fn convert_to_state(
        &self,
        batch: &Batch<'_, '_>,
        exprs: &[AggregateExpr],
        row: usize,
        out: &mut [Cell],
    )
        ensures { out.new ≡ overlaid (aggregation.shows (aggregation.own exprs.now (slice_index_or (view_rows batch.now) row []))) out.old };

    /// Writes a group's state, as far as there is room; a group that is not held is neutral.
    fn state(&self, group: usize, out: &mut [Cell])
        ensures { out.new ≡ overlaid (aggregation.shows (slice_index_or (states self.now) group aggregation.neutral)) out.old };

    /// Writes a group's results, as far as there is room; a group that is not held is neutral.
    fn evaluate(&self, group: usize, out: &mut [Cell])
        ensures { out.new ≡ overlaid (aggregation.results (slice_index_or (states self.now) group aggregation.neutral)) out.old };

    /// Lets the groups that are handed out go; the next one becomes the first.
    fn emit(&mut self, emit_to: EmitTo)
        ensures { states self.new ≡ remaining emit_to (states self.old) };

    ghost lawful: { Lawful aggregation };
}
