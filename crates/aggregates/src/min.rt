//! The smallest argument; absent until one comes.

ghost use Rattle.std.specs.Int.{int_min};
ghost use Rattle.aggregates.specs.LawsOfKinds.{min_folds};

use crate::folded::{Fold, Folded};
use std::marker::PhantomData;

/// The smallest argument; absent until one comes.
pub type Min = Folded<Lesser>;

/// The kind as a value.
pub const Min: Min = Folded(PhantomData);

/// The lesser of two.
#[derive(Clone, Copy)]
pub struct Lesser;

impl Fold for Lesser {
    ghost op = { int_min };

    ghost lawful = { min_folds };

    fn fold(earlier: i64, later: i64) -> i64 {
        earlier.min(later)
    }
}
