//! The ids of a list of grouping sets.
//!
//! Ported from datafusion-physical-plan 55.0.0, src/aggregates/mod.rs, and changed.

ghost use Rattle.std.specs.Prelude.{◌≡◌, ◌<◌, length};
ghost use Rattle.group_by.specs.Ids.{refusal_of};
ghost use Rattle.group_by.specs.declared.grouping_sets.GroupByFault.TheVariants.{Id, Memory};
ghost use Rattle.group_by.specs.Sets.{sets_of, ordinal_of, greatest_ordinal, sets_fault, HasIds};

use crate::count::count_equal;
use crate::group_id::{GroupIdFault, check_id, full_id};
use std::alloc::{AllocError, Global};

/// Why grouping sets have no ids.
#[derive(Clone, Copy, PartialEq, Eq, Debug)]
pub enum GroupByFault {
    /// One of the sets has none.
    Id(GroupIdFault),
    /// There is no memory for them.
    Memory,
}

impl From<GroupIdFault> for GroupByFault {
    ghost from_gives = { λ e r. r ≡ Id e };

    fn from(fault: GroupIdFault) -> GroupByFault {
        GroupByFault::Id(fault)
    }
}

impl From<AllocError> for GroupByFault {
    ghost from_gives = { λ _ r. r ≡ Memory };

    fn from(_: AllocError) -> GroupByFault {
        GroupByFault::Memory
    }
}

/// The greatest ordinal among the sets; 0 if there are none.
pub fn max_duplicate_ordinal(groups: &[Vec<bool>]) -> usize
    ensures { result ≡ greatest_ordinal (sets_of groups.now) }
{
    // A loop, since a closure in a chain would not know that the set is one of them.
    let mut greatest: usize = 0;
    for set in 0..groups.len() {
        greatest = greatest.max(duplicate_ordinal(groups, set));
    }
    greatest
}

/// The ids of the sets, each as a cell holds it: its 64 bits read as signed.
pub fn group_ids(heap: Global, groups: &[Vec<bool>]) -> Result<Vec<i64>, GroupByFault>
    ensures { HasIds (sets_of groups.now) result }
{
    check_sets(groups)?;
    let mut ids = Vec::with_capacity(heap, groups.len())?;
    for (set, marks) in groups.iter().enumerate() {
        let id = full_id(marks, duplicate_ordinal(groups, set) as u64);
        ids.push_reserved(id.cast_signed());
    }
    Ok(ids)
}

/// Whether each of the sets has an id.
fn check_sets(groups: &[Vec<bool>]) -> Result<(), GroupIdFault>
    ensures { refusal_of result ≡ sets_fault (sets_of groups.now) }
{
    let greatest = max_duplicate_ordinal(groups) as u64;
    for (set, marks) in groups.iter().enumerate() {
        check_id(marks, duplicate_ordinal(groups, set) as u64, greatest)?;
    }
    Ok(())
}

/// How many earlier sets equal the set.
fn duplicate_ordinal(groups: &[Vec<bool>], set: usize) -> usize
    requires { set < length groups.now }
    ensures { result ≡ ordinal_of (sets_of groups.now) set }
{
    count_equal(&groups[..set], &groups[set])
}
