//! The groups that are held: their keys, their states, and what is known of their order.
//!
//! What a stream does to its groups, one step at a time: rows are absorbed, groups go out, the others move down.
//! A plan is made of settings that pass their questions.

#![tactic(auto)]

mod faults;
mod grouping;
mod held;
mod held_groups;
mod held_order;
mod making;
mod plan;
mod plan_numbers;
mod planning;
mod plans;
mod questions;
mod settings;

pub use held::{HeldGroups, HeldRefused};
pub use plan::Plan;
pub use settings::{AggregateMode, PlanRefused, Settings, SettingsFault};
