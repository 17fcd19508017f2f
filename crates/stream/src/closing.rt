//! The calls of a stream whose input is finished.

ghost use Rattle.std.specs.Prelude.{◌≡◌};
ghost use Rattle.model.specs.Setups.{out_width};
ghost use Rattle.stream.specs.Refusals.{UnlessHanded};
ghost use Rattle.stream.specs.Streams.{setup_in};
ghost use Rattle.stream.specs.Calls.{Takes};

use crate::faults::TakeFault;
use crate::state::ClosingStream;
use accumulators::GroupsAccumulator;
use group_values::GroupValues;
use memory::MemoryReservation;

impl<G: GroupValues, A: GroupsAccumulator, R: MemoryReservation> ClosingStream<G, A, R> {
    /// Hands the next rows out, as `GroupedHashAggregateStream::take` does.
    pub fn take(&mut self, values: &mut [i64], flags: &mut [u8]) -> Result<Option<usize>, TakeFault>
        ensures takes { Takes self.old.stream values.old flags.old result self.new.stream values.new flags.new }
        ensures unaltered { UnlessHanded result ((self.new ≡ self.old) × (values.new ≡ values.old) × (flags.new ≡ flags.old)) }
        ensures plan { self.new.stream.plan ≡ self.old.stream.plan }
    {
        self.stream.take(values, flags)
    }

    /// How many cells a row has as it is handed out.
    pub fn row_width(&self) -> usize
        ensures { result ≡ out_width (setup_in self.now.stream) }
    {
        self.stream.row_width()
    }

    /// The reservation that was asked for memory.
    pub fn reservation(&self) -> &R
        ensures { result.now ≡ self.now.stream.reservation }
    {
        self.stream.reservation()
    }
}
