//! What a stream does.
//!
//! Ported from datafusion-physical-plan 55.0.0, src/aggregates/grouped_hash_stream.rs, and changed.

ghost use Rattle.std.specs.Prelude.{◌≡◌, Bool, true, []};
ghost use Rattle.model.specs.Setups.{need};
ghost use Rattle.std.specs.Option.{option_map};
ghost use Rattle.order.specs.Skip.{told};
ghost use Rattle.model.specs.Machine.{emits, count, says, with_probe};
ghost use Rattle.model.specs.Steps.{accepted, reserved, probed, settled, ended, grouped, bypassed};
ghost use Rattle.cells.specs.Views.{view_rows};
ghost use Rattle.groups.specs.Settings.{is_partial};
ghost use Rattle.stream.specs.Refusals.{offer_answer, UnlessNoMemory};
ghost use Rattle.stream.specs.Streams.{model_of, setup_in, Countable, CountableIn, handled, Does, Goes};

use crate::faults::OfferFault;
use crate::state::{ExecutionState, GroupedHashAggregateStream, InputEvent};
use accumulators::GroupsAccumulator;
use cells::{Batch, EmitTo};
use group_values::GroupValues;
use memory::MemoryReservation;

impl<G: GroupValues, A: GroupsAccumulator, R: MemoryReservation> GroupedHashAggregateStream<
    G,
    A,
    R,
> {
    /// Asks for what the held groups need.
    fn update_memory_reservation(&mut self) -> bool
        ensures asks { R.asks self.old.reservation (need (setup_in self.old) (count (model_of self.old))) result self.new.reservation }
        ensures model { model_of self.new ≡ model_of self.old }
        ensures plan { self.new.plan ≡ self.old.plan }
    {
        self.reservation.try_resize(self.held.need(&self.plan))
    }

    /// Groups go to wait, and the others move down. The memory they leave is given back; should even that be refused,
    /// the next emission gives it back.
    fn emit(&mut self, emit_to: EmitTo)
        ensures model { model_of self.new ≡ emits (setup_in self.old) emit_to (model_of self.old) }
        ensures asks { (g : Bool) × R.asks self.old.reservation (need (setup_in self.old) (count (model_of self.new))) g self.new.reservation }
        ensures plan { self.new.plan ≡ self.old.plan }
    {
        self.held.write_rows(&self.plan, emit_to, &mut self.waiting);
        self.held.shed(emit_to);
        self.exec_state = ExecutionState::ProducingOutput { whole: false };
        let _ = self.update_memory_reservation();
    }

    // `refused` says that memory alone can be wanting. An error type of one value would say so too, and be turned into an
    // `OfferFault` at each call that has it.
    /// Asks for memory. Where it is refused, Partial mode with more than one group sends groups out early.
    fn try_update_memory_reservation(&mut self) -> Result<(), OfferFault>
        ensures does { Does reserved self.old self.new (offer_answer result) }
        ensures refused { UnlessNoMemory result ⊥ }
    {
        if self.update_memory_reservation() {
            return Ok(());
        }
        let held = self.held.len();
        if self.plan.is_partial() && held > 1 {
            if let Some(emit_to) = self.held.oom_emit_to(self.plan.wanted(held)) {
                self.emit(emit_to);
                return Ok(());
            }
        }
        Err(OfferFault::NoMemory)
    }

    /// The end step: all groups are finished, and go out.
    pub(crate) fn set_input_done_and_produce_output(&mut self)
        ensures { Goes ended self.old self.new }
    {
        self.held.end(&self.plan);
        self.input_done = true;
        if self.held.len() == 0 {
            self.exec_state = ExecutionState::Done;
        } else {
            self.emit(EmitTo::All);
        }
    }

    /// The probe learns of more rows.
    fn update_skip_aggregation_probe(&mut self, input_rows: usize)
        ensures model { model_of self.new ≡ with_probe (model_of self.old) (option_map (λ p. told p input_rows (count (model_of self.old))) (model_of self.old).probe) }
        ensures plan { self.new.plan ≡ self.old.plan }
        ensures reservation { self.new.reservation ≡ self.old.reservation }
    {
        let groups = self.held.len() as u64;
        if let Some(probe) = &mut self.skip_aggregation_probe {
            probe.update_state(input_rows as u64, groups);
        }
    }

    /// Whether the probe has said skip.
    pub(crate) fn should_skip_aggregation(&self) -> bool
        ensures { result ≡ says (model_of self.now).probe }
    {
        self.skip_aggregation_probe
            .as_ref()
            .is_some_and(|probe| probe.should_skip())
    }

    /// The probe is told; where it says skip, all groups go out, and otherwise memory is asked for.
    fn probe_and_reserve(&mut self, input_rows: usize) -> Result<(), OfferFault>
        ensures does { Does (λ u m. probed u m input_rows) self.old self.new (offer_answer result) }
        ensures refused { UnlessNoMemory result ⊥ }
    {
        self.update_skip_aggregation_probe(input_rows);
        if self.should_skip_aggregation() && self.held.len() > 0 {
            self.emit(EmitTo::All);
            return Ok(());
        }
        self.try_update_memory_reservation()
    }

    /// What follows the grouping of a batch.
    fn settle(&mut self, input_rows: usize) -> Result<(), OfferFault>
        ensures does { Does (λ u m. settled u m input_rows) self.old self.new (offer_answer result) }
        ensures refused { UnlessNoMemory result ⊥ }
    {
        if self.plan.is_limited(self.held.len()) {
            self.set_input_done_and_produce_output();
            return Ok(());
        }
        if let Some(emit_to) = self.held.emit_to() {
            self.emit(emit_to);
            return Ok(());
        }
        if self.plan.is_partial() {
            self.probe_and_reserve(input_rows)
        } else {
            self.try_update_memory_reservation()
        }
    }

    /// The batch's rows are grouped.
    fn group_aggregate_batch(&mut self, batch: &Batch<'_, '_>) -> Result<(), OfferFault>
        requires { Countable self.old.rows batch.now }
        ensures does { Does (λ u m. grouped u m (view_rows batch.now)) self.old self.new (offer_answer result) }
        ensures refused { UnlessNoMemory result ⊥ }
    {
        self.held.absorb(&self.plan, batch);
        self.rows += batch.num_rows() as u64;
        self.settle(batch.num_rows())
    }

    /// The batch's rows go to wait as they are, each with its own state.
    fn transform_to_states(&mut self, batch: &Batch<'_, '_>)
        requires countable { Countable self.old.rows batch.now }
        requires partial { is_partial self.old.plan.settings.mode ≡ true }
        ensures { Does (λ u m _ _. bypassed u m (view_rows batch.now)) self.old self.new accepted }
    {
        self.held.convert_rows(&self.plan, batch, &mut self.waiting);
        self.rows += batch.num_rows() as u64;
        self.exec_state = ExecutionState::ProducingOutput { whole: true };
    }

    /// What the input brings, by what the stream is at.
    pub(crate) fn handle(&mut self, event: InputEvent<'_, '_>) -> Result<(), OfferFault>
        requires { CountableIn self.old.rows event }
        ensures does { Does (λ u m. handled u m event.entry) self.old self.new (offer_answer result) }
        ensures unaltered { UnlessNoMemory result (self.new ≡ self.old) }
    {
        // Each pair of state and event has its arm, so that none is forgotten.
        match (self.exec_state, event) {
            (ExecutionState::ReadingInput, InputEvent::Batch(batch)) => {
                self.group_aggregate_batch(&batch)
            }
            (ExecutionState::SkippingAggregation, InputEvent::Batch(batch)) => {
                self.transform_to_states(&batch);
                Ok(())
            }
            (ExecutionState::ProducingOutput { .. }, InputEvent::Batch(_)) => {
                Err(OfferFault::RowsWait)
            }
            (ExecutionState::Done, InputEvent::Batch(_)) => Err(OfferFault::Ended),
            (ExecutionState::ReadingInput, InputEvent::End)
            | (ExecutionState::SkippingAggregation, InputEvent::End) => {
                self.set_input_done_and_produce_output();
                Ok(())
            }
            (ExecutionState::ProducingOutput { .. }, InputEvent::End)
            | (ExecutionState::Done, InputEvent::End) => Ok(()),
        }
    }
}
