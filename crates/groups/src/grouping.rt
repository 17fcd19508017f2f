//! The question on grouping sets.

ghost use Rattle.std.specs.Prelude.{◌≡◌, ◌<◌, ◌≤◌, true, false, [], length, replicate, nat_eq, slice_index_or};
ghost use Rattle.std.specs.List.{list_all};
ghost use Rattle.group_by.specs.Sets.{sets_of, same_marks, id_at};
ghost use Rattle.group_by.specs.Groupings.{group_by as grouping_of, masked_key};
ghost use Rattle.model.specs.Questions.{sets_ok, masks_ok};
ghost use Rattle.groups.specs.Settings.{given_settings, Sized};

use crate::questions::{all_masked, none_masked};
use crate::settings::Settings;
use cells::Key;
use group_by::{PhysicalGroupBy, count_equal, group_id_array, masked_key};
use group_values::GroupValues;

impl Settings {
    /// The fourth question.
    pub(crate) fn sets_ok<G: GroupValues>(&self, table: &G) -> bool
        requires { length self.now.group_by.columns.items ≤ 6 }
        ensures { result ≡ sets_ok (given_settings self.now) G.admitted }
    {
        let columns = self.group_by.columns.len();
        let groups = &self.group_by.groups;
        if self.group_by.has_grouping_set {
            (1..=8).contains(&groups.len()) && marks_fit(groups, columns) && self.masks_ok(table)
        } else {
            groups.len() == 1 && all_plain(groups, columns)
        }
    }

    /// Whether the table admits the key of each set that masks a row whole.
    fn masks_ok<G: GroupValues>(&self, table: &G) -> bool
        requires { Sized (grouping_of self.now.group_by) × ((grouping_of self.now.group_by).grouped ≡ true) }
        ensures { result ≡ masks_ok (given_settings self.now) G.admitted 0 (grouping_of self.now.group_by).sets }
    {
        // A loop, since a closure in a chain would not know that the set is one of them.
        for (set, marks) in self.group_by.groups.iter().enumerate() {
            if all_masked(marks) && !table.admits(&set_key(&self.group_by, set)) {
                return false;
            }
        }
        true
    }
}

/// Whether each set has a mark for each column.
fn marks_fit(groups: &[Vec<bool>], columns: usize) -> bool
    ensures { result ≡ list_all (λ marks. nat_eq (length marks) columns) (sets_of groups.now) }
{
    groups.iter().all(|marks| marks.len() == columns)
}

fn all_plain(groups: &[Vec<bool>], columns: usize) -> bool
    ensures { result ≡ list_all (λ marks. same_marks marks (replicate columns false)) (sets_of groups.now) }
{
    groups.iter().all(|marks| none_masked(marks, columns))
}

/// The key of a row that a set masks whole.
fn set_key(group_by: &PhysicalGroupBy, set: usize) -> Key
    requires { Sized (grouping_of group_by.now) × ((grouping_of group_by.now).grouped ≡ true) × (set < length (grouping_of group_by.now).sets) }
    ensures { result ≡ masked_key (grouping_of group_by.now) set }
{
    masked_key(group_by.columns.len(), Some(set_id(&group_by.groups, set)))
}

/// The id of a set, which few sets with few marks have.
fn set_id(groups: &[Vec<bool>], set: usize) -> i64
    requires { (set < length groups.now) × (length groups.now ≤ 8) × (length (slice_index_or (sets_of groups.now) set []) ≤ 6) }
    ensures { result ≡ id_at (sets_of groups.now) set }
{
    let ordinal = count_equal(&groups[..set], &groups[set]) as u64;
    group_id_array(&groups[set], ordinal, ordinal).map_or(0, |(id, _)| id.cast_signed())
}
