//! A row of cells, as many as a bound allows.

ghost use Rattle.std.specs.Prelude.{◌≡◌, ◌≤◌, [], ◌∷◌, ◌++◌, length, take, None, Decides, slice_index_or};

use crate::batch::Cell;
use std::hash::{Hash, Hasher};
use std::marker::Model;

/// At most `N` cells. They lie in an array, so that a row needs no heap and can be copied.
///
/// Absent cells are equal to each other.
#[derive(Clone, Copy, Debug)]
pub struct CellRow<const N: usize> {
    cells: [Cell; N],
    /// How many of `cells` belong to the row; the others are absent.
    len: usize,
}

// Clauses see a row as the list of its cells.
impl<const N: usize> Model for CellRow<N> {
    ghost use Rattle.std.specs.Prelude.{◌≡◌, ◌≤◌, List, length, take};
    ghost use Rattle.std.proofs.Common.{sym, arith, length-take-le};
    ghost use Rattle.cells.specs.Rows.{CellOf};
    ghost use Rattle.cells.specs.Filled.{filled};

    ghost Value = { List CellOf };

    ghost view = { λ r. take r.len r.cells };

    ghost invariant = { λ r. (r.len ≤ N) × (length r.cells ≡ N) × (r.cells ≡ filled N (take r.len r.cells)) };

    ghost inverse = { λ xs. record { cells = filled N xs; len = length xs } };

    ghost inverse_ok = { λ r h i. record {
      cells = sym h.2 i;
      len = length-take-le r.len r.cells (Prim.omega (arith, h.0, h.1)) i;
    } };
}

impl<const N: usize> CellRow<N> {
    /// The row of no cells.
    pub fn new() -> CellRow<N>
        ensures { result ≡ [] }
    {
        CellRow {
            cells: [None; N],
            len: 0,
        }
    }

    /// One cell more; a full row stays as it is.
    pub fn push(&mut self, cell: Cell)
        ensures { self.new ≡ take N (self.old ++ (cell ∷ [])) }
    {
        if self.len < N {
            self.cells[self.len] = cell;
            self.len += 1;
        }
    }

    /// The cell at a place; absent past the last.
    pub fn cell(&self, place: usize) -> Cell
        ensures { result ≡ slice_index_or self.now place None }
    {
        // `get` would give an Option of a Cell, which is one itself.
        if place < self.len {
            self.cells[place]
        } else {
            None
        }
    }

    /// The row of these cells, as far as it goes.
    pub fn from_slice(cells: &[Cell]) -> CellRow<N>
        ensures { result ≡ take N cells.now }
    {
        let len = cells.len().min(N);
        let mut row: [Cell; N] = [None; N];
        row[..len].copy_from_slice(&cells[..len]);
        CellRow { cells: row, len }
    }

    /// The cells, in their order.
    pub fn as_slice(&self) -> &[Cell]
        ensures value { result.now ≡ self.now }
        ensures bound { length self.now ≤ N }
    {
        let cells = &self.cells[..];
        &cells[..self.len]
    }
}

// A derive would compare the unused places as well, and promise no more than that they were compared.
impl<const N: usize> PartialEq for CellRow<N> {
    ghost use Rattle.std.specs.Ordering.{int_eq};
    ghost use Rattle.std.specs.Option.{option_eq};
    ghost use Rattle.std.specs.Cmp.Lexicographic.{pointwise};
    ghost use Rattle.std.specs.Cmp.Rules.{comparing};
    ghost use Rattle.std.proofs.Common.{rules};

    ghost eq = { pointwise (option_eq int_eq) };

    ghost laws = { Prim.search (comparing, rules) };

    fn eq(&self, other: &CellRow<N>) -> bool
        ensures value { result ≡ pointwise (option_eq int_eq) self.now other.now }
        ensures decides { Decides result (self.now ≡ other.now) }
    {
        self.as_slice() == other.as_slice()
    }
}

impl<const N: usize> Eq for CellRow<N> {
    ghost use Rattle.std.specs.Cmp.Rules.{comparing};
    ghost use Rattle.std.proofs.Common.{rules};

    ghost laws = { Prim.search (comparing, rules) };
}

// Equal rows are hashed alike: the cells, and not the unused places.
impl<const N: usize> Hash for CellRow<N> {
    ghost use Rattle.std.specs.Hash.{same_Alike};
    ghost use Rattle.std.specs.Hash as fed;
    ghost use Rattle.cells.specs.Alike.{cells_decide};

    ghost hash_input = { fed.slice (fed.option fed.i64) };

    ghost respects_eq = { (same_Alike (fed.slice (fed.option fed.i64)) cells_decide).fed };

    fn hash<H: Hasher>(&self, state: &mut H) {
        self.as_slice().hash(state);
    }
}
