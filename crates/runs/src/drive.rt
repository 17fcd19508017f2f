//! The calls, one after the other.

ghost use Rattle.std.specs.Prelude.{◌≡◌, ◌+◌, ◌-◌, ◌^◌, ◌≤◌, min, false, List, map, length, vec_len, vec_capacity};
ghost use Rattle.model.specs.Steps.{offer};
ghost use Rattle.runs.specs.Noted.{Noted};
ghost use Rattle.runs.specs.Scripts.{take_of, request_of, requests_of, slices, call_slices, tells};
ghost use Rattle.runs.specs.Ran.{LeadsTo, CalledOn, WalkedOn, Runs};

use crate::script::{Answer, Buffers, Call, Reply, Run, Script, Stage};
use accumulators::GroupsAccumulator;
use cells::Refused;
use group_values::GroupValues;
use groups::SettingsFault;
use memory::MemoryReservation;
use std::alloc::Global;
use stream::{ClosingStream, GroupedHashAggregateStream, StreamParts, StreamRefused};

/// An answer, with what the reservation holds then.
fn reply<R: MemoryReservation>(answer: Answer, reservation: &R) -> Reply
    ensures answer { result.answer ≡ answer }
    ensures bytes { result.bytes ≡ R.bytes reservation.now }
    ensures granted { result.granted ≡ R.granted reservation.now }
{
    Reply {
        answer,
        bytes: reservation.size(),
        granted: reservation.last_answer(),
    }
}

/// Takes rows into the slices of a call.
fn take_into<G: GroupValues, A: GroupsAccumulator, R: MemoryReservation>(
    stream: &mut GroupedHashAggregateStream<G, A, R>,
    out: &mut Buffers,
) -> Reply
    ensures called { CalledOn stream.old (take_of out.old) (slices out.old) (slices out.new) result stream.new }
    ensures plan { stream.new.plan ≡ stream.old.plan }
    ensures request { take_of out.new ≡ take_of out.old }
{
    let answer = Answer::Took(stream.take(&mut out.values, &mut out.flags));
    reply(answer, stream.reservation())
}

/// Offers the cells of a call.
fn offer_from<G: GroupValues, A: GroupsAccumulator, R: MemoryReservation>(
    stream: &mut GroupedHashAggregateStream<G, A, R>,
    batch: &Buffers,
) -> Reply
    ensures called { CalledOn stream.old (offer batch.now.values.items batch.now.flags.items) (slices batch.now) (slices batch.now) result stream.new }
    ensures plan { stream.new.plan ≡ stream.old.plan }
{
    let answer = Answer::Offered(stream.offer(&batch.values, &batch.flags));
    reply(answer, stream.reservation())
}

/// Makes one call on a stream that reads.
fn make<G: GroupValues, A: GroupsAccumulator, R: MemoryReservation>(
    stream: &mut GroupedHashAggregateStream<G, A, R>,
    call: &mut Call,
) -> Reply
    ensures called { CalledOn stream.old (request_of call.old) (call_slices call.old) (call_slices call.new) result stream.new }
    ensures plan { stream.new.plan ≡ stream.old.plan }
    ensures request { request_of call.new ≡ request_of call.old }
{
    // The two calls of a script, each made as it is.
    match call {
        Call::Offer(batch) => offer_from(stream, batch),
        Call::Take(out) => take_into(stream, out),
    }
}

/// Makes the calls on a stream that reads.
fn read<G: GroupValues, A: GroupsAccumulator, R: MemoryReservation>(
    stream: &mut GroupedHashAggregateStream<G, A, R>,
    calls: &mut [Call],
    replies: &mut Vec<Reply>,
)
    requires { vec_len replies.old + length calls.old ≤ vec_capacity replies.old }
    ensures walked { (h : List Noted) → LeadsTo stream.old h → stream.old.closing ≡ false → WalkedOn stream.old h (map request_of calls.old) (map call_slices calls.old) (map call_slices calls.new) (map tells replies.old.items) (map tells replies.new.items) stream.new }
    ensures plan { stream.new.plan ≡ stream.old.plan }
    ensures closing { stream.new.closing ≡ stream.old.closing }
    ensures requests { map request_of calls.new ≡ map request_of calls.old }
    ensures len { vec_len replies.new ≡ vec_len replies.old + length calls.old }
    ensures capacity { vec_capacity replies.new ≡ vec_capacity replies.old }
{
    for call in calls.iter_mut() {
        let made = make(stream, call);
        replies.push_reserved(made);
    }
}

/// Takes rows of a stream whose input is finished into the slices of a call.
// A closing stream only takes, so it is a type of its own; a trait for two calls on either would be longer than this.
fn drain_into<G: GroupValues, A: GroupsAccumulator, R: MemoryReservation>(
    stream: &mut ClosingStream<G, A, R>,
    out: &mut Buffers,
) -> Reply
    ensures called { CalledOn stream.old.stream (take_of out.old) (slices out.old) (slices out.new) result stream.new.stream }
    ensures plan { stream.new.stream.plan ≡ stream.old.stream.plan }
    ensures request { take_of out.new ≡ take_of out.old }
{
    let answer = Answer::Took(stream.take(&mut out.values, &mut out.flags));
    reply(answer, stream.reservation())
}

/// Takes from a stream whose input is finished.
// As `read`, of the other type; see `drain_into`.
fn drain<G: GroupValues, A: GroupsAccumulator, R: MemoryReservation>(
    stream: &mut ClosingStream<G, A, R>,
    takes: &mut [Buffers],
    replies: &mut Vec<Reply>,
)
    requires { vec_len replies.old + length takes.old ≤ vec_capacity replies.old }
    ensures walked { (h : List Noted) → LeadsTo stream.old.stream h → WalkedOn stream.old.stream h (map take_of takes.old) (map slices takes.old) (map slices takes.new) (map tells replies.old.items) (map tells replies.new.items) stream.new.stream }
    ensures plan { stream.new.stream.plan ≡ stream.old.stream.plan }
    ensures requests { map take_of takes.new ≡ map take_of takes.old }
{
    for out in takes.iter_mut() {
        let made = drain_into(stream, out);
        replies.push_reserved(made);
    }
}

impl Script {
    /// How many calls there are, finish included, or the greatest number if there are more.
    fn len(&self) -> usize
        ensures { result ≡ min (length (requests_of self.now)) (2 ^ 64 - 1) }
    {
        // `map_or` would hide that finish is a call too.
        match &self.closing {
            Some(takes) => self
                .reading
                .len()
                .saturating_add(1)
                .saturating_add(takes.len()),
            None => self.reading.len(),
        }
    }
}

/// Makes a stream, and then every call of the script in its order, and tells what came of each.
///
/// The slices of a take hold the rows that it handed out. Where settings or parts are refused, or there is no memory, no
/// call is made, and the parts come back.
pub fn run<G: GroupValues, A: GroupsAccumulator, R: MemoryReservation>(
    heap: Global,
    parts: StreamParts<G, A, R>,
    script: &mut Script,
) -> Result<Run<G, A, R>, StreamRefused<G, A, R>>
    ensures { Runs parts script.old result script.new }
{
    // The parts go back, so that `?` would not do.
    let Ok(mut replies) = Vec::with_capacity(heap, script.len()) else {
        return Err(Refused {
            given: parts,
            fault: SettingsFault::Memory,
        });
    };
    let mut stream = GroupedHashAggregateStream::try_new(heap, parts)?;
    read(&mut stream, &mut script.reading, &mut replies);
    let Some(takes) = &mut script.closing else {
        return Ok(Run {
            stage: Stage::Reading(stream),
            replies,
        });
    };
    let mut closing = stream.finish();
    replies.push_reserved(reply(Answer::Finished, closing.reservation()));
    drain(&mut closing, takes, &mut replies);
    Ok(Run {
        stage: Stage::Closing(closing),
        replies,
    })
}
