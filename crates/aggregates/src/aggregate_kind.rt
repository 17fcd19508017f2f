//! One kind of aggregate.

ghost use Rattle.std.specs.Prelude.{◌≡◌, ℕ};
ghost use Rattle.cells.specs.Rows.{overlaid};
ghost use Rattle.aggregates.specs.Kinds.{Kind, LawfulKind};

use cells::Cell;

/// What one kind of aggregate keeps of a group, and how two states join.
pub trait AggregateKind {
    type State: Copy;

    /// How many cells a state has.
    const STATE_CELLS: usize;

    ghost STATE_CELLS: { ℕ };

    // What a state is: how two join, what a row's own is, and what is shown of it.
    ghost kind: { Kind Self.State };

    /// What a group holds before its first row.
    fn neutral() -> Self::State
        ensures { result ≡ kind.neutral };

    /// The two as one, the later behind.
    fn join(earlier: Self::State, later: Self::State) -> Self::State
        ensures { result ≡ kind.join earlier later };

    /// The state of one row alone, by its argument.
    fn own(argument: Cell) -> Self::State
        ensures { result ≡ kind.own argument };

    /// Writes the state's cells, as far as there is room.
    fn write(state: Self::State, out: &mut [Cell])
        ensures { out.new ≡ overlaid (kind.shows state) out.old };

    /// What the aggregate answers.
    fn result(state: Self::State) -> Cell
        ensures { result ≡ kind.result state };

    ghost lawful: { LawfulKind kind };

    ghost same_cells: { STATE_CELLS ≡ kind.cells };
}
