//! A stream as it is made.
//!
//! Ported from datafusion-physical-plan 55.0.0, src/aggregates/grouped_hash_stream.rs, and changed.

ghost use Rattle.std.specs.Prelude.{◌≡◌, None};
ghost use Rattle.order.specs.Orders.{start};
ghost use Rattle.order.specs.Tracked.{mode_of};
ghost use Rattle.model.specs.Questions.{settings_fault};
ghost use Rattle.groups.specs.Settings.{given_setup};
ghost use Rattle.groups.specs.Held.{held_of};
ghost use Rattle.stream.specs.Making.{are_new, parts_in, Founded};

use crate::state::{ExecutionState, GroupedHashAggregateStream, StreamParts, StreamRefused};
use accumulators::GroupsAccumulator;
use cells::Refused;
use group_values::GroupValues;
use groups::{HeldGroups, Plan, Settings, SettingsFault};
use memory::MemoryReservation;
use output::Waiting;
use std::alloc::Global;

impl<G: GroupValues, A: GroupsAccumulator, R: MemoryReservation> StreamParts<G, A, R> {
    /// Whether nothing was done yet with the parts.
    fn are_new(&self) -> bool
        ensures { result ≡ are_new G.GroupValues A.GroupsAccumulator R.MemoryReservation self.now }
    {
        self.group_values.is_empty()
            && self.accumulator.num_groups() == 0
            && self.reservation.size() == 0
            && self.reservation.last_answer()
    }
}

impl<G: GroupValues, A: GroupsAccumulator, R: MemoryReservation> GroupedHashAggregateStream<
    G,
    A,
    R,
> {
    /// A stream of new parts; they come back with the first question that is answered no, or where there is no memory. No
    /// other call allocates.
    pub fn try_new(
        heap: Global,
        parts: StreamParts<G, A, R>,
    ) -> Result<GroupedHashAggregateStream<G, A, R>, StreamRefused<G, A, R>>
        ensures { Founded parts result }
    {
        let new = parts.are_new();
        if let Err(fault) = parts.settings.check::<G, A>(&parts.group_values, new) {
            return Err(Refused {
                given: parts,
                fault,
            });
        }
        let StreamParts {
            settings,
            group_values,
            accumulator,
            reservation,
        } = parts;
        // The other parts go back with these, so that `?` would not do.
        match HeldGroups::new(heap, group_values, accumulator, &settings.order) {
            Ok(held) => Self::over(heap, settings, held, reservation, new),
            Err(back) => Err(Refused {
                given: StreamParts {
                    settings,
                    group_values: back.group_values,
                    accumulator: back.accumulator,
                    reservation,
                },
                fault: SettingsFault::Memory,
            }),
        }
    }

    /// The stream over these groups, of which none is held yet.
    fn over(
        heap: Global,
        settings: Settings,
        held: HeldGroups<G, A>,
        reservation: R,
        parts_are_new: bool,
    ) -> Result<GroupedHashAggregateStream<G, A, R>, StreamRefused<G, A, R>>
        requires asked { settings_fault (given_setup A.aggregation G.admitted settings) parts_are_new ≡ None }
        requires new { parts_are_new ≡ are_new G.GroupValues A.GroupsAccumulator R.MemoryReservation (parts_in settings held reservation) }
        requires order { (held_of held).order ≡ start (mode_of settings.order) }
        ensures { Founded (parts_in settings held reservation) result }
    {
        // The parts go back with each fault, so that `?` would not do.
        let Ok(waiting) = Waiting::new(heap) else {
            return Err(Self::back(settings, held, reservation, SettingsFault::Memory));
        };
        match Plan::try_new::<G, A>(heap, settings, held.group_values(), parts_are_new) {
            Ok(plan) => Ok(GroupedHashAggregateStream {
                skip_aggregation_probe: plan.new_probe(),
                plan,
                held,
                exec_state: ExecutionState::ReadingInput,
                input_done: false,
                closing: false,
                rows: 0,
                waiting,
                reservation,
            }),
            Err(refused) => Err(Self::back(refused.given, held, reservation, refused.fault)),
        }
    }

    /// What was passed, as it was.
    fn back(
        settings: Settings,
        held: HeldGroups<G, A>,
        reservation: R,
        fault: SettingsFault,
    ) -> StreamRefused<G, A, R>
        ensures given { result.given ≡ parts_in settings held reservation }
        ensures fault { result.fault ≡ fault }
    {
        let (group_values, accumulator) = held.into_parts();
        Refused {
            given: StreamParts {
                settings,
                group_values,
                accumulator,
                reservation,
            },
            fault,
        }
    }
}
