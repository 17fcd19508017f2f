//! Tables of the keys of groups: distinct, in the order first seen, at most 512.
//!
//! The row table admits every key and finds it by a hash; the small table admits keys of one small cell and finds them by index.

#![tactic(auto)]

mod group_values;
mod places;
mod row;
mod row_table;
mod slot;
mod small;
mod small_table;

pub use group_values::GroupValues;
pub use row_table::GroupValuesRows;
pub use small_table::GroupValuesSmall;

#[cfg(test)]
mod tests {
    use super::*;
    use cells::{Cell, EmitTo, Key};
    use std::test::Fail;

    fn key(cell: Cell) -> Key {
        let mut key = Key::new();
        key.push(cell);
        key
    }

    #[test]
    fn rows_are_found(rt: HostRuntime) -> Result<(), Fail> {
        let mut table = GroupValuesRows::new(rt.alloc())?;
        assert_eq!(rt; table.intern(&key(Some(7))), Some(0));
        assert_eq!(rt; table.intern(&key(None)), Some(1));
        assert_eq!(rt; table.intern(&key(Some(1031))), Some(2));
        assert_eq!(rt; table.intern(&key(Some(7))), Some(0));
        table.emit(EmitTo::First(1));
        assert_eq!(rt; table.intern(&key(Some(1031))), Some(1));
        Ok(())
    }

    #[test]
    fn small_keys_are_found(rt: HostRuntime) {
        let mut table = GroupValuesSmall::new();
        assert_eq!(rt; table.intern(&key(Some(63))), Some(0));
        assert_eq!(rt; table.intern(&key(Some(64))), None);
        assert_eq!(rt; table.intern(&key(None)), Some(1));
        table.emit(EmitTo::First(1));
        assert_eq!(rt; table.intern(&key(None)), Some(0));
    }
}
