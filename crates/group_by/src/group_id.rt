//! The id of a grouping set.
//!
//! Ported from datafusion-physical-plan 55.0.0, src/aggregates/mod.rs, and changed.

ghost use Rattle.std.specs.Prelude.{◌≡◌, ◌^◌, ◌<◌};
ghost use Rattle.group_by.specs.Marks.{digits, Digits, width_of};
ghost use Rattle.group_by.specs.Ids.{group_id_refusal, refusal_of, group_id_fault, group_id, id_of, told};
ghost use Rattle.group_by.specs.Cases.{GroupIdCases};

/// Why a grouping set has no id.
#[derive(Clone, Copy, PartialEq, Eq, Debug)]
pub enum GroupIdFault {
    /// More than 64 marks.
    TooManyColumns,
    /// The marks and the greatest ordinal take more than 64 bits.
    TooManyBits,
    /// The ordinal is above the greatest.
    OrdinalPastGreatest,
}

impl GroupIdFault {
    /// The refusal's number, by which documents and programs name it.
    pub fn number(self) -> u32
        ensures { result ≡ (group_id_refusal self).number }
    {
        match self {
            GroupIdFault::TooManyColumns => 16,
            GroupIdFault::TooManyBits => 17,
            GroupIdFault::OrdinalPastGreatest => 18,
        }
    }
}

/// The bits that the ordinals up to the greatest take.
pub fn ordinal_bits(max_ordinal: u64) -> u32
    ensures value { result ≡ digits max_ordinal }
    ensures least { Digits max_ordinal result }
{
    u64::BITS - max_ordinal.leading_zeros()
}

/// The id of a grouping set, and its width in bits.
pub fn group_id_array(
    group: &[bool],
    ordinal: u64,
    max_ordinal: u64,
) -> Result<(u64, u32), GroupIdFault>
    ensures answer { told result ≡ group_id group.now ordinal max_ordinal }
    ensures cases { GroupIdCases }
{
    check_id(group, ordinal, max_ordinal)?;
    let bits = group.len() as u32 + ordinal_bits(max_ordinal);
    Ok((full_id(group, ordinal), id_width(bits)))
}

/// Whether the set has an id.
pub(crate) fn check_id(group: &[bool], ordinal: u64, max_ordinal: u64) -> Result<(), GroupIdFault>
    ensures { refusal_of result ≡ group_id_fault group.now ordinal max_ordinal }
{
    let columns = group.len();
    if columns > 64 {
        return Err(GroupIdFault::TooManyColumns);
    }
    if columns as u32 + ordinal_bits(max_ordinal) > 64 {
        return Err(GroupIdFault::TooManyBits);
    }
    if ordinal > max_ordinal {
        return Err(GroupIdFault::OrdinalPastGreatest);
    }
    Ok(())
}

/// The ordinal with the marks behind it, one by one: 64 marks need no shift by 64.
pub(crate) fn full_id(group: &[bool], ordinal: u64) -> u64
    requires { id_of group.now ordinal < 2 ^ 64 }
    ensures { result ≡ id_of group.now ordinal }
{
    let mut id = ordinal;
    for masked in group {
        id = id * 2 + u64::from(*masked);
    }
    id
}

/// The least width that holds so many bits.
fn id_width(bits: u32) -> u32
    ensures { result ≡ width_of bits }
{
    match bits {
        0..=8 => 8,
        9..=16 => 16,
        17..=32 => 32,
        _ => 64,
    }
}
