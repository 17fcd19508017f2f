//! How a plan is made.

ghost use Rattle.groups.specs.Making.{Planned};

use crate::plan::Plan;
use crate::settings::{PlanRefused, Settings, SettingsFault};
use accumulators::GroupsAccumulator;
use cells::Refused;
use group_by::GroupByKeys;
use group_values::GroupValues;
use std::alloc::Global;

impl Plan {
    /// The plan of settings that pass their questions; else they come back.
    pub fn try_new<G: GroupValues, A: GroupsAccumulator>(
        heap: Global,
        mut settings: Settings,
        table: &G,
        parts_are_new: bool,
    ) -> Result<Plan, PlanRefused>
        ensures { Planned A.aggregation G.admitted settings parts_are_new result }
    {
        if let Err(fault) = settings.check::<G, A>(table, parts_are_new) {
            return Err(Refused {
                given: settings,
                fault,
            });
        }
        match GroupByKeys::try_new(heap, settings.group_by) {
            // `..settings` cannot change the type of what is grouped by.
            Ok(keys) => Ok(Plan {
                settings: Settings {
                    mode: settings.mode,
                    batch_size: settings.batch_size,
                    columns: settings.columns,
                    group_by: keys,
                    exprs: settings.exprs,
                    order: settings.order,
                    soft_limit: settings.soft_limit,
                    probe_rows: settings.probe_rows,
                    probe_ratio: settings.probe_ratio,
                },
            }),
            // Few sets with few marks have ids, so that only memory can be wanting.
            Err(refused) => {
                settings.group_by = refused.given;
                Err(Refused {
                    given: settings,
                    fault: SettingsFault::Memory,
                })
            }
        }
    }
}
