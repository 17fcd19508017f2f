//! Measures what a row costs: the time to intern and to accumulate it, at 1 and at 500 held groups.
//! The figures go to standard error, since no two runs have the same.

#![tactic(auto)]

use accumulators::{GroupsAccumulator, KindGroupsAccumulator};
use aggregates::{AggregateExpr, Min};
use anyhow::Context;
use cells::{Batch, Key};
use group_values::{GroupValues, GroupValuesRows};
use std::alloc::Global;
use std::time::Instant;

const ROWS: usize = 512;

const ROUNDS: usize = 4000;

/// A place that no group has, so that its row is passed over; accumulators take places as numbers.
const NOWHERE: usize = usize::MAX;

/// Keys and places of a batch whose rows go round among so many groups. Values and flags are the
/// two slices that a batch lends.
#[derive(Drop)]
struct Load {
    table: GroupValuesRows,
    least: KindGroupsAccumulator<Min>,
    places: Vec<usize>,
    values: Vec<i64>,
    flags: Vec<u8>,
}

impl Load {
    fn new(heap: Global, groups: i64) -> anyhow::Result<Load> {
        Ok(Load {
            table: GroupValuesRows::new(heap)?,
            least: KindGroupsAccumulator::new(heap)?,
            places: Vec::with_capacity(heap, ROWS)?,
            values: (0..groups)
                .cycle()
                .take(ROWS)
                .map(|key| key.wrapping_mul(7919))
                .collect(heap)?,
            flags: vec![in heap; 1; ROWS]?,
        })
    }

    fn round(&mut self) -> anyhow::Result<()> {
        let batch = Batch::new(&self.values, &self.flags, 1)
            .ok()
            .context("the rows are no batch")?;
        self.places.clear();
        for row in 0..batch.num_rows() {
            let key = Key::from_slice(&[batch.cell(row, 0)]);
            let place = self.table.intern(&key);
            self.places.push(place.unwrap_or(NOWHERE))?;
        }
        let exprs = [AggregateExpr {
            argument: 0,
            filter: None,
        }];
        let total = self.table.len();
        self.least.update_batch(&batch, &exprs, &self.places, total);
        Ok(())
    }
}

fn measure(rt: &HostRuntime, groups: i64) -> anyhow::Result<()> {
    let mut load = Load::new(rt.alloc(), groups)?;
    load.round()?;
    let start = Instant::now(rt)?;
    for _ in 0..ROUNDS {
        load.round()?;
    }
    let spent = start.elapsed(rt)?.as_nanos();
    let rows = (ROUNDS * ROWS) as u128;
    let each = spent.saturating_mul(10) / rows;
    let whole = each / 10;
    let tenth = each % 10;
    let held = load.table.len();
    eprintln!(rt; "{held} groups held: {whole}.{tenth} ns a row")?;
    Ok(())
}

fn main(rt: HostRuntime) -> anyhow::Result<()> {
    measure(&rt, 1)?;
    measure(&rt, 500)
}
