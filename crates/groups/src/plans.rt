//! The calls of a plan.

ghost use Rattle.std.specs.Prelude.{◌≡◌, [], length, slice_index_or};
ghost use Rattle.cells.specs.Views.{view_rows};
ghost use Rattle.group_by.specs.Groupings.{masked_key};
ghost use Rattle.model.specs.Questions.{all_masked};
ghost use Rattle.model.specs.Setups.{num_sets, key_width, row_key};
ghost use Rattle.groups.specs.Plans.{settings_of, is_grand};

use crate::plan::Plan;
use crate::questions::all_masked;
use cells::{Batch, Key};
use group_by::PhysicalGroupBy;

impl Plan {
    /// What is grouped by.
    pub(crate) fn group_by(&self) -> &PhysicalGroupBy
        ensures { result.now ≡ self.now.settings.group_by.group_by }
    {
        self.settings.group_by.group_by()
    }

    /// How many grouping sets there are.
    pub fn num_sets(&self) -> usize
        ensures { result ≡ num_sets (settings_of self.now) }
    {
        self.settings.group_by.num_sets()
    }

    /// The key of a row for a set.
    pub fn row_key(&self, batch: &Batch<'_, '_>, row: usize, set: usize) -> Key
        ensures { result ≡ row_key (settings_of self.now) set (slice_index_or (view_rows batch.now) row []) }
    {
        self.settings.group_by.evaluate_group_by(batch, row, set)
    }

    /// How many cells a key has.
    pub fn key_width(&self) -> usize
        ensures { result ≡ key_width (settings_of self.now) }
    {
        let group_by = self.group_by();
        group_by.columns.len() + usize::from(group_by.has_grouping_set)
    }

    /// Whether a set is a grouping set that masks every column; past the last there is none.
    pub fn is_grand(&self, set: usize) -> bool
        ensures { result ≡ is_grand (settings_of self.now) set }
    {
        let group_by = self.group_by();
        group_by.has_grouping_set
            && group_by
                .groups
                .get(set)
                .is_some_and(|marks| all_masked(marks))
    }

    /// The key for a set of a row that is masked whole.
    pub fn masked_key(&self, set: usize) -> Key
        ensures { result ≡ masked_key (settings_of self.now).group_by set }
    {
        self.settings.group_by.masked_key(set)
    }
}
