//! What the order of the held groups says.

ghost use Rattle.std.specs.Prelude.{◌≡◌};
ghost use Rattle.order.specs.Orders.{emit_to, oom_emit_to};
ghost use Rattle.groups.specs.Held.{held_of};

use crate::held::HeldGroups;
use accumulators::GroupsAccumulator;
use cells::EmitTo;
use group_values::GroupValues;

impl<G: GroupValues, A: GroupsAccumulator> HeldGroups<G, A> {
    /// The groups that are finished, if any are.
    pub fn emit_to(&self) -> Option<EmitTo>
        ensures { result ≡ emit_to (held_of self.now).order }
    {
        self.group_ordering.emit_to()
    }

    /// The groups to emit where memory is refused and `n` of them are wanted.
    pub fn oom_emit_to(&self, n: usize) -> Option<EmitTo>
        ensures { result ≡ oom_emit_to (held_of self.now).order n }
    {
        self.group_ordering.oom_emit_to(n)
    }
}
