//! Why a call is refused.

ghost use Rattle.std.specs.Prelude.{◌≡◌};
ghost use Rattle.stream.specs.declared.faults.OfferFault.TheVariants.{Batch};
ghost use Rattle.stream.specs.Refusals.{offer_refusal, take_refusal};

use cells::BatchFault;

/// Why a batch is not accepted, or, at `NoMemory`, not paid for.
#[derive(Clone, Copy, PartialEq, Eq, Debug)]
pub enum OfferFault {
    /// Reading is over.
    Ended,
    /// Rows wait to be taken.
    RowsWait,
    /// The slices are no batch.
    Batch(BatchFault),
    /// There would be more than 2^40 accepted rows.
    TooManyRows,
    /// The key of a row for a set is not admitted by the table.
    NotAdmitted { row: usize, set: usize },
    /// The batch might open more groups than there is room for.
    TooManyGroups,
    /// The batch was accepted, and memory for the groups refused.
    NoMemory,
}

impl OfferFault {
    /// The refusal's number, by which documents and programs name it.
    pub fn number(self) -> u32
        ensures { result ≡ (offer_refusal self).number }
    {
        match self {
            OfferFault::Ended => 7,
            OfferFault::RowsWait => 8,
            OfferFault::Batch(fault) => fault.number(),
            OfferFault::TooManyRows => 11,
            OfferFault::NotAdmitted { .. } => 12,
            OfferFault::TooManyGroups => 13,
            OfferFault::NoMemory => 14,
        }
    }
}

impl From<BatchFault> for OfferFault {
    ghost from_gives = { λ e r. r ≡ Batch e };

    fn from(fault: BatchFault) -> OfferFault {
        OfferFault::Batch(fault)
    }
}

/// Why nothing is handed out although rows wait.
#[derive(Clone, Copy, PartialEq, Eq, Debug)]
pub enum TakeFault {
    /// A slice is too short for the next output.
    Short,
}

impl TakeFault {
    /// The refusal's number, by which documents and programs name it.
    pub fn number(self) -> u32
        ensures { result ≡ (take_refusal self).number }
    {
        match self {
            TakeFault::Short => 15,
        }
    }
}
