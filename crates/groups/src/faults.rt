//! The first question that is answered no.

ghost use Rattle.std.specs.Prelude.{◌≡◌, IsSome, IfErr};
ghost use Rattle.model.specs.Questions.{settings_fault};
ghost use Rattle.groups.specs.Settings.{given_setup, settings_refusal, refusal_of};

use crate::settings::{Settings, SettingsFault};
use accumulators::GroupsAccumulator;
use group_values::GroupValues;

impl Settings {
    /// Asks every question; the first that is answered no is why a stream cannot be set up so.
    pub fn check<G: GroupValues, A: GroupsAccumulator>(
        &self,
        table: &G,
        parts_are_new: bool,
    ) -> Result<(), SettingsFault>
        ensures first { refusal_of result ≡ settings_fault (given_setup A.aggregation G.admitted self.now) parts_are_new }
        ensures refused { IfErr result (λ e. IsSome (settings_refusal e)) }
    {
        if !self.batch_size_ok() {
            return Err(SettingsFault::BatchSize);
        }
        if !self.parts_ok::<A>() || !parts_are_new {
            return Err(SettingsFault::Parts);
        }
        if !self.columns_ok() {
            return Err(SettingsFault::Columns);
        }
        if !self.sets_ok(table) {
            return Err(SettingsFault::GroupingSets);
        }
        if !self.order_ok() {
            return Err(SettingsFault::Order);
        }
        if !self.ratio_ok() {
            return Err(SettingsFault::Ratio);
        }
        Ok(())
    }
}
