//! The calls of a stream: offer, take and finish.
//!
//! Ported from datafusion-physical-plan 55.0.0, src/aggregates/grouped_hash_stream.rs, and changed: polling is split into
//! calls.

ghost use Rattle.std.specs.Prelude.{◌≡◌};
ghost use Rattle.cells.specs.Views.{view_rows};
ghost use Rattle.model.specs.Setups.{out_width};
ghost use Rattle.model.specs.Steps.{reading_fault, total_fault, grouping_fault, emptied};
ghost use Rattle.stream.specs.Refusals.{offer_fault_of, UnlessNoMemory, UnlessHanded};
ghost use Rattle.stream.specs.Streams.{model_of, setup_in, Goes};
ghost use Rattle.stream.specs.Calls.{Offers, Takes, Finishes};

use crate::faults::{OfferFault, TakeFault};
use crate::state::{ClosingStream, ExecutionState, GroupedHashAggregateStream, InputEvent};
use accumulators::GroupsAccumulator;
use cells::{Batch, MAX_GROUPS};
use group_values::GroupValues;
use memory::MemoryReservation;

/// The most rows that a stream accepts, 2^40.
const MAX_ACCEPTED_ROWS: u64 = 1 << 40;

impl<G: GroupValues, A: GroupsAccumulator, R: MemoryReservation> GroupedHashAggregateStream<
    G,
    A,
    R,
> {
    /// Whether the stream still reads, and nothing waits.
    fn ask_reading(&self) -> Result<(), OfferFault>
        ensures { offer_fault_of result ≡ reading_fault (setup_in self.now) (model_of self.now).phase self.now.input_done }
    {
        if self.input_done {
            return Err(OfferFault::Ended);
        }
        // Each state has its arm, so that none is forgotten.
        match self.exec_state {
            ExecutionState::ReadingInput | ExecutionState::SkippingAggregation => Ok(()),
            ExecutionState::ProducingOutput { .. } => Err(OfferFault::RowsWait),
            ExecutionState::Done => Err(OfferFault::Ended),
        }
    }

    /// Whether every key is admitted, and there is room for as many groups as the batch may open.
    fn ask_groups(&self, batch: &Batch<'_, '_>) -> Result<(), OfferFault>
        ensures { offer_fault_of result ≡ grouping_fault (setup_in self.now) (model_of self.now).phase (model_of self.now) (view_rows batch.now) }
    {
        let ExecutionState::ReadingInput = self.exec_state else {
            return Ok(());
        };
        if let Some((row, set)) = self.held.first_refused(&self.plan, batch) {
            return Err(OfferFault::NotAdmitted { row, set });
        }
        let opened = batch.num_rows().saturating_mul(self.plan.num_sets());
        if self.held.len().saturating_add(opened) > MAX_GROUPS {
            return Err(OfferFault::TooManyGroups);
        }
        Ok(())
    }

    /// Whether the rows can be counted.
    fn ask_rows(&self, batch: &Batch<'_, '_>) -> Result<(), OfferFault>
        ensures { offer_fault_of result ≡ total_fault (setup_in self.now) (model_of self.now) (view_rows batch.now) }
    {
        if self.rows.saturating_add(batch.num_rows() as u64) > MAX_ACCEPTED_ROWS {
            return Err(OfferFault::TooManyRows);
        }
        Ok(())
    }

    /// Takes a batch in. Cell `c` of row `r` stands at `r * columns + c` of both slices.
    pub fn offer(&mut self, values: &[i64], flags: &[u8]) -> Result<(), OfferFault>
        ensures offers { Offers self.old values.now flags.now result self.new }
        ensures unaltered { UnlessNoMemory result (self.new ≡ self.old) }
        ensures plan { self.new.plan ≡ self.old.plan }
    {
        self.ask_reading()?;
        let batch = Batch::new(values, flags, self.plan.columns())?;
        self.ask_rows(&batch)?;
        self.ask_groups(&batch)?;
        self.handle(InputEvent::Batch(batch))
    }

    /// How many cells a row has as it is handed out.
    pub fn row_width(&self) -> usize
        ensures { result ≡ out_width (setup_in self.now) }
    {
        if self.plan.is_partial() {
            self.plan.key_width().saturating_add(A::state_cells())
        } else {
            self.plan.key_width().saturating_add(A::aggregates())
        }
    }

    /// Nothing waits any more: the end step of a closing stream that has not had it, or what comes next.
    fn output_taken(&mut self)
        ensures { Goes emptied self.old self.new }
    {
        if self.input_done {
            self.exec_state = ExecutionState::Done;
        } else if self.closing {
            self.set_input_done_and_produce_output();
        } else if self.should_skip_aggregation() {
            self.exec_state = ExecutionState::SkippingAggregation;
        } else {
            self.exec_state = ExecutionState::ReadingInput;
        }
    }

    /// Hands the next rows out to the front of the slices, and answers how many; none if nothing waits.
    pub fn take(&mut self, values: &mut [i64], flags: &mut [u8]) -> Result<Option<usize>, TakeFault>
        ensures takes { Takes self.old values.old flags.old result self.new values.new flags.new }
        ensures unaltered { UnlessHanded result ((self.new ≡ self.old) × (values.new ≡ values.old) × (flags.new ≡ flags.old)) }
        ensures plan { self.new.plan ≡ self.old.plan }
    {
        let ExecutionState::ProducingOutput { whole } = self.exec_state else {
            return Ok(None);
        };
        let rows = self.plan.piece(whole, self.waiting.len());
        let width = self.row_width();
        let cells = rows.saturating_mul(width);
        if values.len() < cells || flags.len() < cells {
            return Err(TakeFault::Short);
        }
        self.waiting.hand_out(rows, width, values, flags);
        if self.waiting.is_empty() {
            self.output_taken();
        }
        Ok(Some(rows))
    }

    /// The input is finished; what is held goes out once nothing waits.
    pub fn finish(mut self) -> ClosingStream<G, A, R>
        ensures finishes { Finishes self result.stream }
        ensures plan { result.stream.plan ≡ self.plan }
    {
        self.closing = true;
        let _ = self.handle(InputEvent::End);
        ClosingStream { stream: self }
    }

    /// The reservation that is asked for memory.
    pub fn reservation(&self) -> &R
        ensures { result.now ≡ self.now.reservation }
    {
        &self.reservation
    }
}
