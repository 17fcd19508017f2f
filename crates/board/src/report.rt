//! The groups of a board: least clearance, copper length and vias of each net and layer.

use accumulators::{GroupsAccumulator, KindGroupsAccumulator, PairGroupsAccumulator};
use aggregates::{AggregateExpr, Count, Min, Sum};
use anyhow::anyhow;
use cells::{Batch, Cell, Key, MAX_BATCH_ROWS};
use group_by::{GroupByFault, GroupByKeys, PhysicalGroupBy};
use group_values::{GroupValues, GroupValuesRows};
use std::alloc::{AllocError, Global};
use std::fmt;

/// The least clearance, the copper length and the vias of each group.
type Figures = PairGroupsAccumulator<
    KindGroupsAccumulator<Min>,
    PairGroupsAccumulator<KindGroupsAccumulator<Sum>, KindGroupsAccumulator<Count>>,
>;

/// A place that no group has, so that its row is passed over; accumulators take places as numbers.
const NOWHERE: usize = usize::MAX;

/// The groups of the rows so far.
#[derive(Drop)]
pub struct Report {
    keys: GroupByKeys,
    table: GroupValuesRows,
    figures: Figures,
    exprs: [AggregateExpr; 3],
    places: Vec<usize>,
    /// Rows that were read.
    rows: u64,
    /// Rows whose group found no room in the table.
    no_room: u64,
}

/// A cell as text: its value, or a dash where it is absent.
#[derive(Clone, Copy)]
struct Shown(Cell);

impl fmt::Display for Shown {
    fn fmt<W: fmt::Write>(&self, f: &mut fmt::Formatter<W>) -> fmt::Result {
        match self.0 {
            Some(value) => value.fmt(f),
            None => f.pad("-"),
        }
    }
}

/// A group's key and figures.
#[derive(Clone, Copy)]
struct Line {
    key: Key,
    figures: [Cell; 3],
}

impl fmt::Display for Line {
    fn fmt<W: fmt::Write>(&self, f: &mut fmt::Formatter<W>) -> fmt::Result {
        let net = Shown(self.key.cell(0));
        let layer = Shown(self.key.cell(1));
        let [clearance, length, vias] = self.figures.map(Shown);
        write!(
            f,
            "{net:>6} {layer:>6} {clearance:>10} {length:>10} {vias:>6}"
        )
    }
}

fn expr(argument: usize, filter: Option<usize>) -> AggregateExpr {
    AggregateExpr { argument, filter }
}

fn figures(heap: Global) -> Result<Figures, AllocError> {
    let clearance = KindGroupsAccumulator::new(heap)?;
    let length = KindGroupsAccumulator::new(heap)?;
    let vias = KindGroupsAccumulator::new(heap)?;
    Ok(PairGroupsAccumulator::new(clearance, PairGroupsAccumulator::new(length, vias)))
}

impl Report {
    pub fn new(heap: Global) -> anyhow::Result<Report> {
        let group_by = PhysicalGroupBy {
            columns: vec![in heap; 0, 1]?,
            groups: vec![in heap; vec![in heap; false, false]?]?,
            has_grouping_set: false,
        };
        let keys = GroupByKeys::try_new(heap, group_by).map_err(|refused| match refused.fault {
            GroupByFault::Memory => anyhow!("memory allocation failed"),
            GroupByFault::Id(fault) => anyhow!("net and layer have no id: {fault:?}"),
        })?;
        Ok(Report {
            keys,
            table: GroupValuesRows::new(heap)?,
            figures: figures(heap)?,
            exprs: [expr(2, None), expr(3, None), expr(4, Some(4))],
            places: Vec::with_capacity(heap, MAX_BATCH_ROWS)?,
            rows: 0,
            no_room: 0,
        })
    }

    /// Takes the rows of a batch in.
    pub fn add(&mut self, batch: &Batch<'_, '_>) -> Result<(), AllocError> {
        self.places.clear();
        for row in 0..batch.num_rows() {
            let key = self.keys.evaluate_group_by(batch, row, 0);
            let place = self.table.intern(&key);
            let refused = u64::from(place.is_none());
            self.rows = self.rows.saturating_add(1);
            self.no_room = self.no_room.saturating_add(refused);
            self.places.push(place.unwrap_or(NOWHERE))?;
        }
        let total = self.table.len();
        self.figures
            .update_batch(batch, &self.exprs, &self.places, total);
        Ok(())
    }

    /// The group at a place.
    fn line(&self, place: usize) -> Line {
        let mut figures: [Cell; 3] = [None; 3];
        self.figures.evaluate(place, &mut figures);
        Line {
            key: self.table.key(place),
            figures,
        }
    }
}

impl fmt::Display for Report {
    fn fmt<W: fmt::Write>(&self, f: &mut fmt::Formatter<W>) -> fmt::Result {
        let groups = self.table.len();
        writeln!(f, "   net  layer  clearance     length   vias")?;
        for place in 0..groups {
            writeln!(f, "{}", self.line(place))?;
        }
        writeln!(f, "rows read: {}", self.rows)?;
        writeln!(f, "groups: {groups}")?;
        write!(
            f,
            "rows refused, since the table holds 512 groups: {}",
            self.no_room
        )
    }
}
