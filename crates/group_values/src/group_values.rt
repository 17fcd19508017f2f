//! What every table of keys offers.
//!
//! Ported from datafusion-physical-plan 55.0.0, src/aggregates/group_values/mod.rs, and changed.

ghost use Rattle.std.specs.Prelude.{◌≡◌, ◌≤◌, Bool, List, [], length, ◌==◌, slice_index_or};
ghost use Rattle.cells.specs.Rows.{CellOf};
ghost use Rattle.cells.specs.Emits.{left};
ghost use Rattle.group_values.specs.Tables.{Distinct, Admitted, interned, placed};

use cells::{EmitTo, Key};

/// A list of distinct keys, in the order first seen.
pub trait GroupValues {
    // The keys held, in the order first seen.
    ghost keys: { Self → List (List CellOf) };

    // The keys that this kind of table takes in.
    ghost admitted: { List CellOf → Bool };

    /// Whether the table takes in the key: a matter of the kind of table and the key alone.
    fn admits(&self, key: &Key) -> bool
        ensures { result ≡ admitted key.now };

    /// The place of the key, which is added if it is new; none if it stays out.
    fn intern(&mut self, key: &Key) -> Option<usize>
        ensures answer { result ≡ placed admitted (keys self.old) key.now }
        ensures after { keys self.new ≡ interned admitted (keys self.old) key.now };

    /// How many keys are held.
    fn len(&self) -> usize
        ensures { result ≡ length (keys self.now) };

    /// Whether no key is held.
    fn is_empty(&self) -> bool
        ensures { result ≡ (length (keys self.now) == 0) }
    {
        self.len() == 0
    }

    /// The key at a place; the key of no cells past the last.
    fn key(&self, place: usize) -> Key
        ensures { result ≡ slice_index_or (keys self.now) place [] };

    /// Drops all keys or the first so many; the rest move down.
    fn emit(&mut self, emit_to: EmitTo)
        ensures { keys self.new ≡ left emit_to (keys self.old) };

    ghost distinct: { (s : Self) → Distinct (keys s) };

    ghost bounded: { (s : Self) → length (keys s) ≤ 512 };

    ghost held: { (s : Self) → Admitted admitted (keys s) };
}
