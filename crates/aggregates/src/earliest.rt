//! The argument that came first; absent until one comes.

ghost use Rattle.aggregates.specs.LawsOfKinds.{earliest_folds};

use crate::folded::{Fold, Folded};
use std::marker::PhantomData;

/// The argument that came first; absent until one comes.
pub type Earliest = Folded<Earlier>;

/// The kind as a value.
pub const Earliest: Earliest = Folded(PhantomData);

/// The earlier of two.
#[derive(Clone, Copy)]
pub struct Earlier;

impl Fold for Earlier {
    ghost op = { λ earlier later. earlier };

    ghost lawful = { earliest_folds };

    fn fold(earlier: i64, _later: i64) -> i64 {
        earlier
    }
}
