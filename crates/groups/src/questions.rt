//! The questions that settings are asked, one method for each.

ghost use Rattle.std.specs.Prelude.{◌≡◌, false, ◌&&◌, length, replicate, nat_lt};
ghost use Rattle.std.specs.List.{list_all};
ghost use Rattle.group_by.specs.Sets.{same_marks};
ghost use Rattle.model.specs.Questions.{distinct, between, expr_in, all_masked, batch_size_ok, parts_ok, columns_ok, order_ok, ratio_ok};
ghost use Rattle.groups.specs.Settings.{given_settings};

use crate::settings::Settings;
use accumulators::GroupsAccumulator;
use aggregates::AggregateExpr;
use cells::MAX_BATCH_ROWS;
use group_by::distinct_positions;
use order::InputOrderMode;

impl Settings {
    pub(crate) fn batch_size_ok(&self) -> bool
        ensures { result ≡ batch_size_ok (given_settings self.now) }
    {
        (1..=MAX_BATCH_ROWS).contains(&self.batch_size)
    }

    pub(crate) fn parts_ok<A: GroupsAccumulator>(&self) -> bool
        ensures { result ≡ parts_ok (given_settings self.now) A.aggregation }
    {
        let exprs = self.exprs.len();
        (1..=6).contains(&self.group_by.columns.len())
            && (1..=4).contains(&exprs)
            && exprs == A::aggregates()
            && A::state_cells() <= 8
    }

    pub(crate) fn columns_ok(&self) -> bool
        ensures { result ≡ columns_ok (given_settings self.now) }
    {
        (1..=16).contains(&self.columns)
            && all_below(&self.group_by.columns, self.columns)
            && self.exprs.iter().all(|expr| expr_in(*expr, self.columns))
    }

    pub(crate) fn order_ok(&self) -> bool
        ensures { result ≡ order_ok (given_settings self.now) }
    {
        let plain = !self.group_by.has_grouping_set;
        match &self.order {
            InputOrderMode::Linear => true,
            InputOrderMode::Sorted => plain,
            InputOrderMode::PartiallySorted(positions) => {
                plain && positions_ok(positions, self.group_by.columns.len())
            }
        }
    }

    pub(crate) fn ratio_ok(&self) -> bool
        ensures { result ≡ ratio_ok (given_settings self.now) }
    {
        self.probe_ratio >= 0.0
    }
}

fn all_below(numbers: &[usize], bound: usize) -> bool
    ensures { result ≡ list_all (λ n. nat_lt n bound) numbers.now }
{
    numbers.iter().all(|number| *number < bound)
}

fn expr_in(expr: AggregateExpr, columns: usize) -> bool
    ensures { result ≡ expr_in columns expr }
{
    expr.argument < columns && expr.filter.is_none_or(|column| column < columns)
}

fn positions_ok(positions: &[usize], columns: usize) -> bool
    ensures { result ≡ (between 1 columns (length positions.now) && (distinct positions.now && list_all (λ p. nat_lt p columns) positions.now)) }
{
    (1..=columns).contains(&positions.len())
        && distinct_positions(positions)
        && all_below(positions, columns)
}

pub(crate) fn all_masked(marks: &[bool]) -> bool
    ensures { result ≡ all_masked marks.now }
{
    marks.iter().all(|masked| *masked)
}

pub(crate) fn none_masked(marks: &[bool], columns: usize) -> bool
    ensures { result ≡ same_marks marks.now (replicate columns false) }
{
    marks.len() == columns && marks.iter().all(|masked| !*masked)
}
