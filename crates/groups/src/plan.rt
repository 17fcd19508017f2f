//! Settings that passed their questions.

ghost use Rattle.std.specs.Prelude.{◌<◌, ◌≤◌, length};
ghost use Rattle.group_by.specs.Keys.{keys_of};

use crate::settings::Settings;
use group_by::GroupByKeys;

/// Settings that passed their questions, with the group ids worked out.
#[derive(Drop)]
pub struct Plan {
    pub(crate) settings: Settings<GroupByKeys>,
    ghost few_keys: { length (keys_of settings.group_by).columns ≤ 6 },
    ghost few_sets: { length (keys_of settings.group_by).sets ≤ 8 },
    ghost some_rows: { 0 < settings.batch_size },
}
