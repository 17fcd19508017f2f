//! The trace segments of a board as text: a header, and then a line for each segment.

use cells::{Cell, CellRow};
use thiserror::Error;

/// What each line holds, in this order.
const HEADER: &[u8] = b"net,layer,clearance,length,via";

/// How many cells a segment has.
pub const COLUMNS: usize = 5;

/// A segment's cells, in the order of the header.
pub type Segment = CellRow<COLUMNS>;

/// What is wrong with a line.
#[derive(Clone, Copy, PartialEq, Eq, Debug, Error)]
pub enum Wrong {
    #[error("the first line is not 'net,layer,clearance,length,via'")]
    Header,
    #[error("this is no whole number")]
    Number,
    #[error("the number does not fit 64 bits")]
    Range,
    #[error("the line ends before its fifth cell")]
    FewCells,
    #[error("the line has more than five cells")]
    ManyCells,
    #[error("a carriage return stands before no line feed")]
    LineEnd,
}

/// Where a file is broken, lines and columns counted from 1.
#[derive(Clone, Copy, Debug, Error)]
#[error("line {line}, column {column}: {wrong}")]
pub struct Fault {
    pub line: u64,
    pub column: u64,
    pub wrong: Wrong,
}

/// A cell as far as it has been read.
#[derive(Clone, Copy)]
enum Begun {
    /// Nothing of it yet.
    Empty,
    /// Only a sign.
    Minus,
    /// Some digits, as a number that is not positive, since only those reach the least of 64 bits.
    Digits { minus: bool, value: i64 },
}

impl Begun {
    /// The cell with one byte more.
    ///
    /// `parse` takes whole texts and tells of a letter and of the range in another order.
    fn with(self, byte: u8) -> Result<Begun, Wrong> {
        let (minus, value) = match self {
            Begun::Empty if byte == b'-' => return Ok(Begun::Minus),
            Begun::Empty => (false, 0i64),
            Begun::Minus => (true, 0),
            Begun::Digits { minus, value } => (minus, value),
        };
        if !byte.is_ascii_digit() {
            return Err(Wrong::Number);
        }
        let digit = i64::from(byte - b'0');
        let value = value
            .checked_mul(10)
            .and_then(|tens| tens.checked_sub(digit))
            .ok_or(Wrong::Range)?;
        Ok(Begun::Digits { minus, value })
    }

    /// The cell, where it ends.
    fn cell(self) -> Result<Cell, Wrong> {
        match self {
            Begun::Empty => Ok(None),
            Begun::Minus => Err(Wrong::Number),
            Begun::Digits { minus: true, value } => Ok(Some(value)),
            Begun::Digits {
                minus: false,
                value,
            } => value.checked_neg().map(Some).ok_or(Wrong::Range),
        }
    }
}

/// A segment as far as it has been read: its whole cells, and the one behind them.
#[derive(Clone, Copy)]
struct Row {
    cells: Segment,
    last: Begun,
}

impl Row {
    fn new() -> Row {
        Row {
            cells: Segment::new(),
            last: Begun::Empty,
        }
    }

    /// One byte more; whether the segment ends there.
    fn read(&mut self, byte: u8) -> Result<bool, Wrong> {
        match byte {
            b',' => {
                self.end_cell()?;
                if self.is_whole() {
                    return Err(Wrong::ManyCells);
                }
                Ok(false)
            }
            b'\n' => {
                self.end_cell()?;
                if !self.is_whole() {
                    return Err(Wrong::FewCells);
                }
                Ok(true)
            }
            b'\r' => Ok(false),
            _ => {
                self.last = self.last.with(byte)?;
                Ok(false)
            }
        }
    }

    fn end_cell(&mut self) -> Result<(), Wrong> {
        self.cells.push(self.last.cell()?);
        self.last = Begun::Empty;
        Ok(())
    }

    fn is_whole(&self) -> bool {
        self.cells.as_slice().len() == COLUMNS
    }
}

/// What is left of the header behind a byte; none behind the end of its line.
fn header_behind(left: &'static [u8], byte: u8) -> Result<Option<&'static [u8]>, Wrong> {
    match left {
        [first, left @ ..] if *first == byte => Ok(Some(left)),
        [] if byte == b'\r' => Ok(Some(left)),
        [] if byte == b'\n' => Ok(None),
        _ => Err(Wrong::Header),
    }
}

/// Reads a file byte by byte.
#[derive(Drop)]
pub struct SegmentReader {
    line: u64,
    column: u64,
    /// The column where the present cell begins.
    begins: u64,
    /// What is left of the header, until its line has ended.
    header: Option<&'static [u8]>,
    row: Row,
    /// Whether the last byte was a carriage return, which only a line feed may follow.
    carriage: bool,
}

impl SegmentReader {
    pub fn new() -> SegmentReader {
        SegmentReader {
            line: 1,
            column: 1,
            begins: 1,
            header: Some(HEADER),
            row: Row::new(),
            carriage: false,
        }
    }

    /// The bytes of a line, or of its beginning; a segment, if they end one.
    pub fn feed_all(&mut self, bytes: &[u8]) -> Result<Option<&Segment>, Fault> {
        let mut whole = false;
        for byte in bytes {
            whole = self.feed(*byte)?.is_some();
        }
        Ok(whole.then_some(&self.row.cells))
    }

    /// One byte more; a segment, if it ends one.
    pub fn feed(&mut self, byte: u8) -> Result<Option<&Segment>, Fault> {
        let whole = self.read(byte).map_err(|wrong| self.fault(wrong))?;
        if byte == b'\n' {
            self.line = self.line.saturating_add(1);
            self.column = 1;
        } else {
            self.column = self.column.saturating_add(1);
        }
        if matches!(byte, b',' | b'\n') {
            self.begins = self.column;
        }
        Ok(whole.then_some(&self.row.cells))
    }

    /// The file is at its end; the segment of a last line that no line feed ends.
    pub fn finish(&mut self) -> Result<Option<&Segment>, Fault> {
        if self.header.is_none() && self.column == 1 {
            Ok(None)
        } else {
            self.feed_all(b"\n")
        }
    }

    fn read(&mut self, byte: u8) -> Result<bool, Wrong> {
        if self.carriage && byte != b'\n' {
            return Err(Wrong::LineEnd);
        }
        self.carriage = byte == b'\r';
        if let Some(left) = self.header {
            self.header = header_behind(left, byte)?;
            return Ok(false);
        }
        if self.column == 1 {
            self.row = Row::new();
        }
        self.row.read(byte)
    }

    /// A number out of range is told where its cell begins, all else where it shows.
    fn fault(&self, wrong: Wrong) -> Fault {
        let column = match wrong {
            Wrong::Range => self.begins,
            _ => self.column,
        };
        Fault {
            line: self.line,
            column,
            wrong,
        }
    }
}

#[cfg(test)]
mod tests {
    use super::*;
    use std::test::Fail;

    const HEAD: &[u8] = b"net,layer,clearance,length,via\n";

    fn read(bytes: &[u8]) -> Result<u64, Fault> {
        let mut reader = SegmentReader::new();
        let mut rows = 0u64;
        // A loop, since a fault ends the reading at any byte.
        for line in bytes.split_inclusive(|byte| *byte == b'\n') {
            if reader.feed_all(line)?.is_some() {
                rows = rows.saturating_add(1);
            }
        }
        if reader.finish()?.is_some() {
            rows = rows.saturating_add(1);
        }
        Ok(rows)
    }

    fn fault(bytes: &[u8]) -> Result<Fault, Fail> {
        read(bytes).err().ok_or_else(|| Fail::new("it was read"))
    }

    // Where the lines behind the header are broken, and how.
    fn broken(rt: &HostRuntime, lines: &[u8]) -> Result<(u64, u64, Wrong), Fail> {
        let mut bytes = HEAD.to_vec(rt.alloc())?;
        bytes.extend_from_slice(lines)?;
        let fault = fault(&bytes)?;
        Ok((fault.line, fault.column, fault.wrong))
    }

    #[test]
    fn whole_lines_are_read(rt: HostRuntime) -> Result<(), Fail> {
        let mut bytes = HEAD.to_vec(rt.alloc())?;
        bytes.extend_from_slice(b"1,2,3,4,0\n,,,,\r\n-1,-9223372036854775808,,,1")?;
        assert_eq!(rt; read(&bytes)?, 3);
        Ok(())
    }

    #[test]
    fn broken_lines_are_placed(rt: HostRuntime) -> Result<(), Fail> {
        assert!(rt; broken(&rt, b"1,2,3,4\n")? == (2, 8, Wrong::FewCells));
        assert!(rt; broken(&rt, b"1,2,3,4,5\n1,2,3,4,5,6\n")? == (3, 10, Wrong::ManyCells));
        assert!(rt; broken(&rt, b"1,2,x,4,5\n")? == (2, 5, Wrong::Number));
        assert!(rt; broken(&rt, b"1,-,3,4,5\n")? == (2, 4, Wrong::Number));
        assert!(rt; broken(&rt, b"1,9223372036854775808,3,4,5\n")? == (2, 3, Wrong::Range));
        assert!(rt; broken(&rt, b"1,2\r,3,4,5\n")? == (2, 5, Wrong::LineEnd));
        Ok(())
    }

    #[test]
    fn another_header_is_refused(rt: HostRuntime) -> Result<(), Fail> {
        let fault = fault(b"net,layer,clearance,length,vias\n")?;
        assert!(rt; fault.line == 1 && fault.column == 31);
        Ok(())
    }
}
