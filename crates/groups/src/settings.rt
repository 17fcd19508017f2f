//! What a stream is set up with.

ghost use Rattle.std.specs.Prelude.{◌≡◌};
ghost use Rattle.std.specs.Option.{option_map};
ghost use Rattle.groups.specs.Settings.{settings_refusal};

use aggregates::AggregateExpr;
use cells::Refused;
use group_by::PhysicalGroupBy;
use order::InputOrderMode;

/// What is handed out.
#[derive(Clone, Copy, PartialEq, Eq)]
pub enum AggregateMode {
    /// States, which a later stage joins.
    Partial,
    /// Results.
    Single,
}

/// What a stream is set up with. A caller names what is grouped by; a plan knows the group ids as well.
#[derive(Drop)]
pub struct Settings<K = PhysicalGroupBy> {
    pub mode: AggregateMode,
    /// How many rows a take hands out.
    pub batch_size: usize,
    /// How many cells a row of the input has.
    pub columns: usize,
    pub group_by: K,
    pub exprs: Vec<AggregateExpr>,
    pub order: InputOrderMode,
    /// So many held groups end the reading.
    pub soft_limit: Option<usize>,
    pub probe_rows: u64,
    pub probe_ratio: f64,
}

/// Why there is no plan.
#[derive(Clone, Copy, PartialEq, Eq, Debug)]
pub enum SettingsFault {
    /// A take hands out no row, or more than 512.
    BatchSize,
    /// Too few or too many key columns, aggregates or state cells, or parts that are not new.
    Parts,
    /// No column or more than 16, or one named that is not there.
    Columns,
    /// Sets that do not fit the key columns, or a masked key that the table does not admit.
    GroupingSets,
    /// An order that the keys cannot have.
    Order,
    /// A ratio that is below 0 or no number.
    Ratio,
    /// There is no memory for the group ids.
    Memory,
}

impl SettingsFault {
    /// The refusal's number, by which documents and programs name it; want of memory has none.
    pub fn number(self) -> Option<u32>
        ensures { result ≡ option_map (λ e. e.number) (settings_refusal self) }
    {
        match self {
            SettingsFault::BatchSize => Some(1),
            SettingsFault::Parts => Some(2),
            SettingsFault::Columns => Some(3),
            SettingsFault::GroupingSets => Some(4),
            SettingsFault::Order => Some(5),
            SettingsFault::Ratio => Some(6),
            SettingsFault::Memory => None,
        }
    }
}

/// Settings that were turned down.
pub type PlanRefused = Refused<Settings, SettingsFault>;
