//! Reports the trace segments of a routed board by net and layer: `board FILE`.

#![tactic(auto)]

mod report;
mod segments;

use anyhow::{Context, anyhow};
use cells::{Batch, MAX_BATCH_ROWS};
use report::Report;
use segments::{COLUMNS, Fault, Segment, SegmentReader};
use std::alloc::{AllocError, Global};
use std::process::ExitCode;
use std::{env, fs};

/// Rows that are not in a report yet, as the two slices of a batch.
#[derive(Drop)]
struct Rows {
    values: Vec<i64>,
    flags: Vec<u8>,
}

impl Rows {
    fn new(heap: Global) -> Rows {
        Rows {
            values: Vec::new(heap),
            flags: Vec::new(heap),
        }
    }

    fn push(&mut self, row: &Segment) -> Result<(), AllocError> {
        for cell in row.as_slice() {
            self.values.push(cell.unwrap_or(0))?;
            self.flags.push(u8::from(cell.is_some()))?;
        }
        Ok(())
    }

    fn are_many(&self) -> bool {
        self.values.len() >= MAX_BATCH_ROWS * COLUMNS
    }

    /// Hands the rows over.
    fn pass(&mut self, report: &mut Report) -> anyhow::Result<()> {
        let batch = Batch::new(&self.values, &self.flags, COLUMNS)
            .ok()
            .context("the rows are no batch")?;
        report.add(&batch)?;
        self.values.clear();
        self.flags.clear();
        Ok(())
    }
}

/// Reads the file's rows into a report.
fn read(heap: Global, path: &str, bytes: &[u8]) -> anyhow::Result<Report> {
    let in_file = |fault: Fault| anyhow!("{path}: {fault}");
    let mut report = Report::new(heap)?;
    let mut rows = Rows::new(heap);
    let mut reader = SegmentReader::new();
    for line in bytes.split_inclusive(|byte| *byte == b'\n') {
        if let Some(row) = reader.feed_all(line).map_err(in_file)? {
            rows.push(row)?;
            if rows.are_many() {
                rows.pass(&mut report)?;
            }
        }
    }
    if let Some(row) = reader.finish().map_err(in_file)? {
        rows.push(row)?;
    }
    rows.pass(&mut report)?;
    Ok(report)
}

fn run(rt: &HostRuntime) -> anyhow::Result<()> {
    let path = env::args(rt)?.nth(1).context("usage: board FILE")?;
    let bytes = fs::read(rt, path.as_str()).map_err(|e| anyhow!("{path}: {e}"))?;
    let report = read(rt.alloc(), path.as_str(), &bytes)?;
    println!(rt; "{report}")?;
    Ok(())
}

fn main(rt: HostRuntime) -> ExitCode {
    match run(&rt) {
        Ok(()) => ExitCode::SUCCESS,
        Err(e) => {
            let _ = eprintln!(rt; "board: {e}");
            ExitCode::FAILURE
        }
    }
}
