//! Examples worked out by hand, proved of the definitions that the calls of the other crates promise to follow.

#![tactic(auto)]

ghost use Rattle.std.specs.Prelude.{◌≡◌, true};
ghost use Rattle.cases.specs.Worked.{WorkedCases};

use accumulators::GroupsAccumulator;
use group_values::GroupValues;

/// That the worked examples hold, which is proved and not worked out here.
pub fn worked_cases_hold<G: GroupValues, A: GroupsAccumulator>() -> bool
    ensures { (result ≡ true) × WorkedCases A.aggregation G.admitted }
{
    true
}
