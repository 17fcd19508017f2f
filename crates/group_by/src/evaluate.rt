//! The keys of rows.
//!
//! Ported from datafusion-physical-plan 55.0.0, src/aggregates/mod.rs, and changed.

ghost use Rattle.std.specs.Prelude.{◌≡◌, false, [], ◌∷◌, ◌++◌, length, replicate, take, Some, None, MatchOption, slice_index_or};
ghost use Rattle.std.specs.Option.{option_map, option_to_list};
ghost use Rattle.cells.specs.Views.{view_rows};
ghost use Rattle.group_by.specs.Groupings.{key_of, masked_key, id_cells};
ghost use Rattle.group_by.specs.Keys.{keys_of, HasKeys};

use crate::grouping_sets::group_ids;
use crate::keys::GroupByKeys;
use crate::physical::{GroupByRefused, PhysicalGroupBy};
use cells::{Batch, Key, Refused};
use std::alloc::Global;

/// The key of a row of which no column is kept, as far as a key goes.
pub fn masked_key(columns: usize, id: Option<i64>) -> Key
    ensures { result ≡ take 7 (replicate columns None ++ option_to_list (option_map Some id)) }
{
    let mut key = Key::new();
    for _ in 0..columns {
        key.push(None);
    }
    if let Some(id) = id {
        key.push(Some(id));
    }
    key
}

impl GroupByKeys {
    /// The grouping with its ids; it comes back where there are none.
    pub fn try_new(heap: Global, group_by: PhysicalGroupBy) -> Result<GroupByKeys, GroupByRefused>
        ensures { HasKeys group_by result }
    {
        if !group_by.has_grouping_set {
            return Ok(GroupByKeys {
                group_by,
                ids: None,
            });
        }
        // The grouping goes back with the fault, so that `?` would not do.
        match group_ids(heap, &group_by.groups) {
            Ok(ids) => Ok(GroupByKeys {
                group_by,
                ids: Some(ids),
            }),
            Err(fault) => Err(Refused {
                given: group_by,
                fault,
            }),
        }
    }

    /// What is grouped by.
    pub fn group_by(&self) -> &PhysicalGroupBy
        ensures { result.now ≡ self.now.group_by }
    {
        &self.group_by
    }

    /// How many grouping sets there are.
    pub fn num_sets(&self) -> usize
        ensures { result ≡ length (keys_of self.now).sets }
    {
        self.group_by.groups.len()
    }

    /// The key of a row for a grouping set, as far as a key goes.
    ///
    /// A row past the last has no cells, and a set past the last no marks and the id 0.
    pub fn evaluate_group_by(&self, batch: &Batch<'_, '_>, row: usize, set: usize) -> Key
        ensures { result ≡ take 7 (key_of (keys_of self.now) set (slice_index_or (view_rows batch.now) row [])) }
    {
        let mut key = Key::new();
        for (place, column) in self.group_by.columns.iter().enumerate() {
            let cell = if self.is_masked(set, place) {
                None
            } else {
                batch.cell(row, *column)
            };
            key.push(cell);
        }
        if let Some(id) = self.id(set) {
            key.push(Some(id));
        }
        key
    }

    /// The key of a row that is masked whole.
    pub fn masked_key(&self, set: usize) -> Key
        ensures { result ≡ take 7 (masked_key (keys_of self.now) set) }
    {
        masked_key(self.group_by.columns.len(), self.id(set))
    }

    fn is_masked(&self, set: usize, place: usize) -> bool
        ensures { result ≡ slice_index_or (slice_index_or (keys_of self.now).sets set []) place false }
    {
        let marks = self.group_by.groups.get(set);
        marks.is_some_and(|marks| marks.get(place).copied().unwrap_or(false))
    }

    /// The id of a set, 0 past the last, where keys end in one.
    fn id(&self, set: usize) -> Option<i64>
        ensures { MatchOption result (id_cells (keys_of self.now) set ≡ []) (λ id. id_cells (keys_of self.now) set ≡ Some id ∷ []) }
    {
        let ids = self.ids.as_ref()?;
        Some(ids.get(set).copied().unwrap_or(0))
    }
}
