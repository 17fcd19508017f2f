//! What is done to the held groups.
//!
//! Ported from datafusion-physical-plan 55.0.0, src/aggregates/grouped_hash_stream.rs, and changed.

ghost use Rattle.std.specs.Prelude.{◌≡◌, ℕ, ◌≤◌, true, [], map, length, slice_index_or};
ghost use Rattle.cells.specs.Views.{view_rows};
ghost use Rattle.output.specs.Waits.{waiting_rows};
ghost use Rattle.accumulators.specs.Groups.{updated};
ghost use Rattle.order.specs.Orders.{done};
ghost use Rattle.order.specs.Tracked.{order_of};
ghost use Rattle.model.specs.Setups.{row_key, need, out_row};
ghost use Rattle.model.specs.Machine.{interned_all, placed_all, absorbed_set, absorbed, shed, emission, converted, groups, grand_keys, totalled};
ghost use Rattle.groups.specs.Plans.{settings_of, setup_of};
ghost use Rattle.groups.specs.Settings.{is_partial};
ghost use Rattle.model.specs.Steps.{key_out};
ghost use Rattle.groups.specs.Held.{held_of, Narrow};

use crate::held::HeldGroups;
use crate::plan::Plan;
use crate::settings::AggregateMode;
use accumulators::GroupsAccumulator;
use cells::{Batch, EmitTo, MAX_GROUPS};
use group_values::GroupValues;
use output::{OutputRow, Waiting, converted_row, result_row, state_row};

// A plan is lent to each step: it is made when the groups are, whose parts come back where it cannot be. Any accumulator may
// hold groups, so that a row has room for a state is a premise here; a stream has it in its type.
impl<G: GroupValues, A: GroupsAccumulator> HeldGroups<G, A> {
    /// Interns the keys of the batch's rows for a set, and keeps keys and places.
    fn intern_rows(&mut self, plan: &Plan, batch: &Batch<'_, '_>, set: usize)
        ensures table { G.keys self.new.group_values ≡ interned_all G.admitted (G.keys self.old.group_values) (map (row_key (settings_of plan.now) set) (view_rows batch.now)) }
        ensures keys { self.new.current_group_keys.items ≡ map (row_key (settings_of plan.now) set) (view_rows batch.now) }
        ensures places { self.new.current_group_indices.items ≡ placed_all G.admitted (G.keys self.old.group_values) (map (row_key (settings_of plan.now) set) (view_rows batch.now)) }
        ensures accumulator { self.new.accumulator ≡ self.old.accumulator }
        ensures ordering { self.new.group_ordering ≡ self.old.group_ordering }
    {
        self.current_group_keys.clear();
        self.current_group_indices.clear();
        for row in 0..batch.num_rows() {
            let key = plan.row_key(batch, row, set);
            // A key that stays out has a place past all groups, which accumulators pass over.
            let place = self.group_values.intern(&key).unwrap_or(MAX_GROUPS);
            self.current_group_keys.push_reserved(key);
            self.current_group_indices.push_reserved(place);
        }
    }

    /// The batch's rows are interned and accumulated under their keys for a set.
    pub fn absorb_set(&mut self, plan: &Plan, batch: &Batch<'_, '_>, set: usize)
        ensures { held_of self.new ≡ absorbed_set (setup_of A.aggregation G.admitted plan.now) (held_of self.old) (view_rows batch.now) set }
    {
        let starting_num_groups = self.group_values.len();
        self.intern_rows(plan, batch, set);
        let total_num_groups = self.group_values.len();
        self.accumulator.update_batch(
            batch,
            &plan.settings.exprs,
            &self.current_group_indices,
            total_num_groups,
        );
        if total_num_groups > starting_num_groups {
            self.group_ordering.new_groups(
                &self.current_group_keys,
                &self.current_group_indices,
                total_num_groups,
            );
        }
    }

    /// The same for each set, one after the other.
    pub fn absorb(&mut self, plan: &Plan, batch: &Batch<'_, '_>)
        ensures { held_of self.new ≡ absorbed (setup_of A.aggregation G.admitted plan.now) (held_of self.old) (view_rows batch.now) }
    {
        for set in 0..plan.num_sets() {
            self.absorb_set(plan, batch, set);
        }
    }

    /// Interns the key of each wholly masked grouping set; its state is neutral.
    fn make_totals(&mut self, plan: &Plan)
        ensures table { G.keys self.new.group_values ≡ interned_all G.admitted (G.keys self.old.group_values) (grand_keys (setup_of A.aggregation G.admitted plan.now)) }
        ensures states { A.states self.new.accumulator ≡ updated A.aggregation plan.now.settings.exprs.items [] [] (length (G.keys self.new.group_values)) (A.states self.old.accumulator) }
        ensures ordering { self.new.group_ordering ≡ self.old.group_ordering }
    {
        for set in 0..plan.num_sets() {
            if plan.is_grand(set) {
                self.group_values.intern(&plan.masked_key(set));
            }
        }
        if let Ok(no_rows) = Batch::new(&[], &[], 1) {
            let total_num_groups = self.group_values.len();
            self.accumulator
                .update_batch(&no_rows, &plan.settings.exprs, &[], total_num_groups);
        }
    }

    /// The input is at its end: all groups are finished, and where none is held the totals are made.
    pub fn end(&mut self, plan: &Plan)
        ensures { held_of self.new ≡ totalled (setup_of A.aggregation G.admitted plan.now) (groups (G.keys self.old.group_values) (A.states self.old.accumulator) (done (order_of self.old.group_ordering))) }
    {
        self.group_ordering.input_done();
        if self.group_values.is_empty() {
            self.make_totals(plan);
        }
    }

    /// The groups that go out are gone, and the others move down.
    pub fn shed(&mut self, emit_to: EmitTo)
        ensures { held_of self.new ≡ shed emit_to (held_of self.old) }
    {
        self.group_values.emit(emit_to);
        self.accumulator.emit(emit_to);
        if let EmitTo::First(n) = emit_to {
            self.group_ordering.remove_groups(n);
        }
    }

    /// How many groups are held.
    pub fn len(&self) -> usize
        ensures { result ≡ length (held_of self.now).keys }
    {
        self.group_values.len()
    }

    /// The bytes that the groups need, if a state's cells are few.
    pub fn need(&self, plan: &Plan) -> usize
        ensures { Narrow A.aggregation → result ≡ need (setup_of A.aggregation G.admitted plan.now) (length (held_of self.now).keys) }
    {
        let cells = plan.key_width().saturating_add(A::state_cells());
        self.group_values
            .len()
            .saturating_mul(8)
            .saturating_mul(cells)
    }

    /// The first row, and its first set, whose key the table does not admit.
    pub fn first_refused(&self, plan: &Plan, batch: &Batch<'_, '_>) -> Option<(usize, usize)>
        ensures { result ≡ key_out (setup_of A.aggregation G.admitted plan.now) 0 (view_rows batch.now) }
    {
        // Two loops with their places say plainly what is found; `find_map` in `find_map` would hide the order.
        'scan: {
            for row in 0..batch.num_rows() {
                for set in 0..plan.num_sets() {
                    if !self.group_values.admits(&plan.row_key(batch, row, set)) {
                        break 'scan Some((row, set));
                    }
                }
            }
            None
        }
    }

    /// A group as it goes out: its key, and behind it its state or its results.
    fn row(&self, plan: &Plan, group: usize) -> OutputRow
        ensures { Narrow A.aggregation → result ≡ out_row (setup_of A.aggregation G.admitted plan.now) (slice_index_or (G.keys self.now.group_values) group []) (slice_index_or (A.states self.now.accumulator) group A.aggregation.neutral) }
    {
        let key = self.group_values.key(group);
        // Two arms say which; a writer chosen beforehand would be longer.
        match plan.settings.mode {
            AggregateMode::Partial => state_row(&key, &self.accumulator, group),
            AggregateMode::Single => result_row(&key, &self.accumulator, group),
        }
    }

    /// Puts the groups that go out to wait, in the place of whatever waited.
    pub fn write_rows(&self, plan: &Plan, emit_to: EmitTo, waiting: &mut Waiting)
        ensures { Narrow A.aggregation → waiting_rows waiting.new ≡ emission (setup_of A.aggregation G.admitted plan.now) emit_to (held_of self.now) }
    {
        waiting.clear();
        for group in 0..emit_to.count(self.group_values.len()) {
            waiting.push(self.row(plan, group));
        }
    }

    /// Puts the rows of a batch to wait, each with its own state, in the place of whatever waited.
    pub fn convert_rows(&self, plan: &Plan, batch: &Batch<'_, '_>, waiting: &mut Waiting)
        ensures { Narrow A.aggregation → is_partial plan.now.settings.mode ≡ true → waiting_rows waiting.new ≡ converted (setup_of A.aggregation G.admitted plan.now) (view_rows batch.now) }
    {
        waiting.clear();
        for row in 0..batch.num_rows() {
            let key = plan.row_key(batch, row, 0);
            waiting.push(converted_row(&key, &self.accumulator, batch, &plan.settings.exprs, row));
        }
    }
}
