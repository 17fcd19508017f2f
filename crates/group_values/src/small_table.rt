//! The small table, with what ties its parts.

ghost use Rattle.group_values.specs.Slots.{SlotIndex};

use crate::slot::SLOTS;
use arrayvec::ArrayVec;

/// Admits keys of one cell that is absent or 0 to 63, and finds them by index.
#[derive(Drop)]
pub struct GroupValuesSmall {
    /// The slots of the keys held, in the order first seen.
    pub(crate) slots: ArrayVec<u8, SLOTS>,
    /// The place of each slot.
    pub(crate) places: [Option<u8>; SLOTS],
    ghost indexed: { SlotIndex slots.items places },
}
