//! The stream.

ghost use Rattle.std.specs.Prelude.{◌≡◌, true, is_some};
ghost use Rattle.groups.specs.Held.{Narrow};
ghost use Rattle.groups.specs.Settings.{is_partial};
ghost use Rattle.stream.specs.Passing.{passes_on};

use accumulators::GroupsAccumulator;
use cells::{Batch, Refused};
use group_values::GroupValues;
use groups::{HeldGroups, Plan, Settings, SettingsFault};
use memory::MemoryReservation;
use order::SkipAggregationProbe;
use output::Waiting;

/// What the next call finds.
#[derive(Clone, Copy)]
pub(crate) enum ExecutionState {
    /// Rows are grouped.
    ReadingInput,
    /// Rows wait: in pieces of the batch size, or whole.
    ProducingOutput { whole: bool },
    /// Rows are passed on ungrouped.
    SkippingAggregation,
    /// All is over.
    Done,
}

/// What the input brings.
// An Option would say the same, but not that none means the input's end.
#[derive(Drop)]
pub(crate) enum InputEvent<'v, 'f> {
    Batch(Batch<'v, 'f>),
    End,
}

/// A grouped aggregation over any key table, accumulator and reservation.
#[derive(Drop)]
pub struct GroupedHashAggregateStream<G: GroupValues, A: GroupsAccumulator, R: MemoryReservation> {
    /// What does not change.
    pub(crate) plan: Plan,
    /// The groups that are held.
    pub(crate) held: HeldGroups<G, A>,
    pub(crate) skip_aggregation_probe: Option<SkipAggregationProbe>,
    pub(crate) exec_state: ExecutionState,
    /// Whether the end step has run.
    pub(crate) input_done: bool,
    /// Whether the input is finished.
    pub(crate) closing: bool,
    /// How many rows were accepted.
    pub(crate) rows: u64,
    /// The rows that wait to be taken.
    pub(crate) waiting: Waiting,
    pub(crate) reservation: R,
    // A row has room for the states and for the results.
    ghost narrow: { Narrow A.aggregation },
    // Only Partial mode has a probe, and passes rows on.
    ghost probing: { is_some skip_aggregation_probe ≡ true → is_partial plan.settings.mode ≡ true },
    ghost passing: { passes_on exec_state ≡ true → is_partial plan.settings.mode ≡ true },
}

/// A stream whose input is finished: what it still holds is taken, and nothing is offered any more.
#[derive(Drop)]
pub struct ClosingStream<G: GroupValues, A: GroupsAccumulator, R: MemoryReservation> {
    pub(crate) stream: GroupedHashAggregateStream<G, A, R>,
}

/// What a stream is made of.
#[derive(Drop)]
pub struct StreamParts<G, A, R> {
    pub settings: Settings,
    pub group_values: G,
    pub accumulator: A,
    pub reservation: R,
}

/// The parts of a stream that could not be made.
pub type StreamRefused<G, A, R> = Refused<StreamParts<G, A, R>, SettingsFault>;
