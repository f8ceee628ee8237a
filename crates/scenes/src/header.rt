// The header row: whether its columns will do.
use crate::faults::{Fault, Place, Told, put_cell};
use crate::near::near_column;
use crate::row::Row;
use crate::sheet::SheetFault;
use scene_cells::Cell;
use scene_cells::columns::{Column, column_of};
use scene_cells::lookup::{Cells, HeadedRow, find_column};
use scene_cells::separators::{sep_line, separator_in};
use text_output::{Output, put};
use text_words::is_empty;

// The sheet from its header on and behind it, and what stands between cells.
#[derive(Clone, Copy)]
pub struct Header<'a> {
    pub row: &'a [u8],
    pub rest: &'a [u8],
    pub separator: u8,
}

// What is wrong with a name.
#[derive(Clone, Copy, PartialEq, Eq)]
pub enum NameFault {
    Twice,
    NotUsed,
    Nearly(Column),
}

impl NameFault {
    fn tell(self, out: &mut Output, cell: Cell) {
        match self {
            NameFault::Twice => put!(out; "row 1: two columns are named '"),
            NameFault::NotUsed | NameFault::Nearly(_) => put!(out; "row 1: the column '"),
        }
        put_cell(out, cell.unquoted());
        match self {
            NameFault::Twice => put!(out; "'\n"),
            NameFault::NotUsed => put!(out; "' is not used\n"),
            NameFault::Nearly(column) => put!(out; "' is not used; it may mean '{column}'\n"),
        }
    }
}

// The text behind the three bytes that some spreadsheets put first, which say UTF-8.
fn behind_mark(text: &[u8]) -> &[u8] {
    match text {
        [0xEF, 0xBB, 0xBF, rest @ ..] => rest,
        _ => text,
    }
}

impl<'a> Header<'a> {
    // A header of which no cell is read yet. It stands behind the line that gives the separator, if there is one; else it says the
    // separator itself.
    fn begin(text: &'a [u8]) -> Header<'a> {
        let text = behind_mark(text);
        let (row, separator) = match sep_line(text) {
            Some(line) => (line.rest, line.separator),
            None => (text, separator_in(text)),
        };
        Header {
            row,
            rest: row,
            separator,
        }
    }

    // How many cells stand before a column.
    fn find(self, column: Column) -> Option<usize> {
        find_column(self.row, column, self.separator)
    }

    // The name of a cell, with so many before it, must be a column, and not again.
    fn name_fault(self, place: usize, name: &[u8]) -> Option<NameFault> {
        if is_empty(name) {
            return None;
        }
        let Some(column) = column_of(name) else {
            return Some(near_column(name).map_or(NameFault::NotUsed, NameFault::Nearly));
        };
        if self.find(column) == Some(place) {
            return None;
        }
        Some(NameFault::Twice)
    }

    // Tells what is wrong with a cell, with so many before it.
    fn check(self, out: &mut Output, place: usize, cell: Cell<'a>) -> Result<(), Told> {
        let fault = self.name_fault(place, cell.bytes);
        if let Some(fault) = fault {
            fault.tell(out, cell);
        }
        if cell.wrong.is_some() {
            let whole = Place {
                row: 1,
                column: None,
            };
            whole.tell(out, Fault::HeaderQuote);
        }
        if fault == Some(NameFault::Twice) || cell.wrong.is_some() {
            return Err(Told);
        }
        Ok(())
    }

    // Reads the header of a sheet, and tells what is wrong with its names.
    pub(crate) fn read(text: &'a [u8], out: &mut Output) -> Result<Header<'a>, SheetFault> {
        let mut header = Header::begin(text);
        let mut good = Ok(());
        // `enumerate` was tried: it leaves the goal that the cells' number fits a usize.
        for (place, cell) in (0..usize::MAX).zip(Cells::new(header.row, header.separator)) {
            good = header.check(out, place, cell).and(good);
            header.rest = cell.rest;
        }
        if header.find(Column::Writes).is_none() {
            return Err(SheetFault::NoWrites);
        }
        good.map_err(|_| SheetFault::BadHeader)?;
        Ok(header)
    }

    // A row of the sheet, from its place on.
    pub(crate) fn above(self, cells: &'a [u8], number: u32) -> Row<'a> {
        let below = HeadedRow {
            header: self.row,
            cells,
            separator: self.separator,
        };
        Row { below, number }
    }
}
