//! The calls to make, and what came of them.

use accumulators::GroupsAccumulator;
use group_values::GroupValues;
use memory::MemoryReservation;
use stream::{ClosingStream, GroupedHashAggregateStream, OfferFault, TakeFault};

/// The two slices of a call, as its caller has them.
#[derive(Drop)]
pub struct Buffers {
    pub values: Vec<i64>,
    pub flags: Vec<u8>,
}

/// A call on a stream that reads.
#[derive(Drop)]
pub enum Call {
    /// These cells are offered.
    Offer(Buffers),
    /// Rows are taken into these slices.
    Take(Buffers),
}

/// Any list of calls: after the input is finished, rows are only taken.
#[derive(Drop)]
pub struct Script {
    pub reading: Vec<Call>,
    /// What is taken after finish, if finish is called.
    pub closing: Option<Vec<Buffers>>,
}

/// What a call answered.
#[derive(Clone, Copy, PartialEq, Eq, Debug)]
pub enum Answer {
    Offered(Result<(), OfferFault>),
    Took(Result<Option<usize>, TakeFault>),
    Finished,
}

/// A call's answer, and the reservation after it.
#[derive(Clone, Copy, PartialEq, Eq, Debug)]
pub struct Reply {
    pub answer: Answer,
    pub bytes: usize,
    pub granted: bool,
}

/// The stream that the calls led to.
#[derive(Drop)]
pub enum Stage<G: GroupValues, A: GroupsAccumulator, R: MemoryReservation> {
    Reading(GroupedHashAggregateStream<G, A, R>),
    Closing(ClosingStream<G, A, R>),
}

/// What came of a script: the stream, and a reply for each call, finish included.
#[derive(Drop)]
pub struct Run<G: GroupValues, A: GroupsAccumulator, R: MemoryReservation> {
    pub stage: Stage<G, A, R>,
    pub replies: Vec<Reply>,
}
