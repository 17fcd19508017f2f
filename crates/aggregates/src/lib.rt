//! Aggregates: what is kept of a group, and how two states join, the later behind; joining is not commutative.
//!
//! A kind is Count, Sum, Min, Earliest or Mean; an aggregate names the columns of its argument and of its filter.

#![tactic(auto)]

mod aggregate_expr;
mod aggregate_kind;
mod count;
mod earliest;
mod folded;
mod mean;
mod min;
mod sum;

pub use aggregate_expr::{AggregateExpr, argument, first_argument};
pub use aggregate_kind::AggregateKind;
pub use count::Count;
pub use earliest::{Earlier, Earliest};
pub use folded::{Fold, Folded};
pub use mean::{Mean, MeanState};
pub use min::{Lesser, Min};
pub use sum::{Plus, Sum};

#[cfg(test)]
mod tests {
    use super::*;

    #[test]
    fn mean_is_cut_towards_zero(rt: HostRuntime) {
        let state = Mean::join(Mean::own(Some(-3)), Mean::own(Some(-4)));
        assert_eq!(rt; Mean::result(state), Some(-3));
        assert_eq!(rt; Mean::result(Mean::neutral()), None);
    }
}
