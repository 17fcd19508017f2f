//! The sum of the arguments, wrapping at 64 bits; absent until one comes.

ghost use Rattle.aggregates.specs.Wrapping.{added};
ghost use Rattle.aggregates.specs.LawsOfKinds.{sum_folds};

use crate::folded::{Fold, Folded};
use std::marker::PhantomData;

/// The sum of the arguments, wrapping at 64 bits; absent until one comes.
pub type Sum = Folded<Plus>;

/// The kind as a value.
pub const Sum: Sum = Folded(PhantomData);

/// The sum of two, wrapping at 64 bits.
#[derive(Clone, Copy)]
pub struct Plus;

impl Fold for Plus {
    ghost op = { added };

    ghost lawful = { sum_folds };

    fn fold(earlier: i64, later: i64) -> i64 {
        earlier.wrapping_add(later)
    }
}
