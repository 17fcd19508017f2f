//! A grouping with the ids of its sets.

ghost use Rattle.std.specs.Prelude.{◌≡◌, Some, None, vec_items, if◌then◌else◌};
ghost use Rattle.std.specs.Option.{option_map};
ghost use Rattle.group_by.specs.Sets.{sets_of, ids as ids_of};

use crate::physical::PhysicalGroupBy;

/// A grouping with the ids of its sets worked out, so that a row's key takes no more than a look-up.
#[derive(Drop)]
pub struct GroupByKeys {
    pub(crate) group_by: PhysicalGroupBy,
    /// The ids, where keys end in one.
    pub(crate) ids: Option<Vec<i64>>,
    ghost worked_out: { option_map vec_items ids ≡ (if group_by.has_grouping_set then Some (ids_of (sets_of group_by.groups.items)) else None) },
}
