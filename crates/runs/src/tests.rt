//! Runs worked out by hand.

use crate::{Answer, Buffers, Call, Reply, Run, Script, run};
use accumulators::{KindGroupsAccumulator, PairGroupsAccumulator};
use aggregates::{AggregateExpr, Count, Min};
use group_by::PhysicalGroupBy;
use group_values::GroupValuesRows;
use groups::{AggregateMode, Settings};
use memory::RecordedReservation;
use order::InputOrderMode;
use std::alloc::{AllocError, Global};
use std::test::Fail;
use stream::StreamParts;

/// The rows of a batch of two columns, all cells present.
fn offer(heap: Global, rows: &[(i64, i64)]) -> Result<Call, AllocError> {
    let mut values = Vec::new(heap);
    let mut flags = Vec::new(heap);
    for (net, clearance) in rows {
        values.push(*net)?;
        values.push(*clearance)?;
        flags.push(1)?;
        flags.push(1)?;
    }
    Ok(Call::Offer(Buffers { values, flags }))
}

/// Room for so many cells, each with the value -1 and the flag 9.
fn room(heap: Global, cells: usize) -> Result<Buffers, AllocError> {
    Ok(Buffers {
        values: vec![in heap; -1; cells]?,
        flags: vec![in heap; 9; cells]?,
    })
}

/// Count and minimum by the first column, two rows a take, without order, limit or probe; grouped by one set that masks the
/// column, or without grouping sets.
fn settings(heap: Global, mode: AggregateMode, masked: bool) -> Result<Settings, AllocError> {
    let expr = AggregateExpr {
        argument: 1,
        filter: None,
    };
    let marks = vec![in heap; masked]?;
    let mut groups = Vec::with_capacity(heap, 1)?;
    groups.push(marks)?;
    Ok(Settings {
        mode,
        batch_size: 2,
        columns: 2,
        group_by: PhysicalGroupBy {
            columns: vec![in heap; 0]?,
            groups,
            has_grouping_set: masked,
        },
        exprs: vec![in heap; expr, expr]?,
        order: InputOrderMode::Linear,
        soft_limit: None,
        probe_rows: 0,
        probe_ratio: 1.0,
    })
}

type Counts = PairGroupsAccumulator<KindGroupsAccumulator<Count>, KindGroupsAccumulator<Min>>;

/// What came of the script, where the first growth of memory is refused and all others are granted; none if no stream was
/// made.
fn outcome(
    heap: Global,
    settings: Settings,
    script: &mut Script,
) -> Result<Option<Run<GroupValuesRows, Counts, RecordedReservation>>, AllocError> {
    let count = KindGroupsAccumulator::new(heap)?;
    let least = KindGroupsAccumulator::new(heap)?;
    let counts = PairGroupsAccumulator::new(count, least);
    let keys = GroupValuesRows::new(heap)?;
    let parts = StreamParts {
        settings,
        group_values: keys,
        accumulator: counts,
        reservation: RecordedReservation::new(u64::MAX - 1),
    };
    Ok(run(heap, parts, script).ok())
}

/// A reply of a run in which the last answer of memory is yes.
fn granted(answer: Answer, bytes: usize) -> Reply {
    Reply {
        answer,
        bytes,
        granted: true,
    }
}

/// Whether the slices hold these cells.
fn holds(out: &Buffers, values: &[i64], flags: &[u8]) -> bool {
    out.values.as_slice() == values && out.flags.as_slice() == flags
}

/// Whether the second call is a take whose slices hold these cells.
fn early(script: &Script, values: &[i64], flags: &[u8]) -> bool {
    let second = script.reading.get(1);
    second.is_some_and(|call| matches!(call, Call::Take(out) if holds(out, values, flags)))
}

/// Whether the slices of the first take after finish hold these cells.
fn late(script: &Script, values: &[i64], flags: &[u8]) -> bool {
    let takes = script.closing.as_ref();
    takes
        .and_then(|takes| takes.first())
        .is_some_and(|out| holds(out, values, flags))
}

#[test]
fn first_groups_go_out_where_memory_is_refused(rt: HostRuntime) -> Result<(), Fail> {
    let heap = rt.alloc();
    let mut reading = Vec::new(heap);
    reading.push(offer(heap, &[(5, 30), (6, 20), (5, 10)])?)?;
    reading.push(Call::Take(room(heap, 7)?))?;
    reading.push(offer(heap, &[(6, 15)])?)?;
    let mut takes = Vec::new(heap);
    takes.push(room(heap, 3)?)?;
    takes.push(room(heap, 0)?)?;
    let closing = Some(takes);
    let mut script = Script { reading, closing };
    let done = outcome(
        heap,
        settings(heap, AggregateMode::Partial, false)?,
        &mut script,
    )?;
    assert!(rt; done.is_some(), "no stream was made");
    let wanted = [
        granted(Answer::Offered(Ok(())), 0),
        granted(Answer::Took(Ok(Some(2))), 0),
        granted(Answer::Offered(Ok(())), 24),
        granted(Answer::Finished, 0),
        granted(Answer::Took(Ok(Some(1))), 0),
        granted(Answer::Took(Ok(None)), 0),
    ];
    if let Some(done) = &done {
        assert_eq!(rt; done.replies.as_slice(), wanted.as_slice());
    }
    assert!(rt; early(&script, &[5, 2, 10, 6, 1, 20, -1], &[1, 1, 1, 1, 1, 1, 9]));
    assert!(rt; late(&script, &[6, 1, 15], &[1, 1, 1]));
    Ok(())
}

#[test]
fn the_grand_total_of_no_rows_goes_out(rt: HostRuntime) -> Result<(), Fail> {
    let heap = rt.alloc();
    let mut takes = Vec::new(heap);
    takes.push(room(heap, 5)?)?;
    let closing = Some(takes);
    let reading = Vec::new(heap);
    let mut script = Script { reading, closing };
    let done = outcome(
        heap,
        settings(heap, AggregateMode::Single, true)?,
        &mut script,
    )?;
    assert!(rt; done.is_some(), "no stream was made");
    assert!(rt; late(&script, &[0, 1, 0, 0, -1], &[0, 1, 1, 0, 9]));
    Ok(())
}
