// A row: its cells, and what is wrong with their quotes.
ghost use Rattle.scene_cells.specs.Rows.{CellUnder};

use crate::faults::{Fault, Place, Told, WordFault};
use scene_cells::columns::{Column, column_of};
use scene_cells::lookup::{Cells, HeadedRow};
use scene_cells::quotes::Unquoted;
use scene_cells::{Cell, CellFault};
use text_output::Output;
use text_words::is_empty;

// The sheet from its header and from a row on.
#[derive(Clone, Copy)]
pub struct Row<'a> {
    pub below: HeadedRow<'a>,
    // As a spreadsheet shows it: the header is row 1.
    pub number: u32,
}

// Where a row's cells that are not blank stand: of two the later here counts. `Nowhere` is the least of this order, so that one `match`
// tells a row's fault.
#[derive(Clone, Copy, PartialEq, Eq, PartialOrd, Ord)]
pub enum Filled {
    // There are none.
    Nowhere,
    UnderNames,
    // Under one of the header's cells that has no name.
    UnderNoName,
    // Behind the header's last cell.
    Behind,
}

// What is read of a row on the way to its end.
#[derive(Clone, Copy)]
pub struct Shape<'a> {
    // The sheet behind the row.
    pub rest: &'a [u8],
    pub filled: Filled,
    // Whether each quote is right.
    pub quotes: Result<(), Told>,
}

// What is wrong with the quotes of a cell, which may have no column.
fn quote_fault(wrong: CellFault, column: Option<Column>) -> Fault {
    match wrong {
        CellFault::Unclosed => Fault::Unclosed,
        CellFault::BehindQuote if column.is_none() => Fault::BehindAQuote,
        CellFault::BehindQuote => Fault::BehindQuote,
    }
}

// Where a cell stands, under the header's.
fn standing(cell: Cell, head: Option<Cell>) -> Filled {
    match head {
        _ if is_empty(cell.bytes) => Filled::Nowhere,
        None => Filled::Behind,
        Some(head) if is_empty(head.bytes) => Filled::UnderNoName,
        Some(_) => Filled::UnderNames,
    }
}

impl<'a> Row<'a> {
    // The row's cell in a column, if header and row have one.
    pub(crate) fn cell(self, column: Column) -> Option<Cell<'a>>
        ensures { CellUnder self.entry.below.separator self.entry.below.header.now self.entry.below.cells.now column result }
    {
        self.below.cell(column)
    }

    // The bytes of that cell, and whether it is in quotes; no bytes where there is no cell.
    pub(crate) fn unquoted(self, column: Column) -> Unquoted<'a> {
        match self.cell(column) {
            Some(cell) => cell.unquoted(),
            None => Unquoted {
                bytes: &[],
                quoted: false,
            },
        }
    }

    // A fault of the whole row, or of the cell in a column.
    pub(crate) fn tell(self, out: &mut Output, column: Option<Column>, fault: Fault) {
        let row = self.number;
        Place { row, column }.tell(out, fault);
    }

    // A fault of a word of a cell.
    pub(crate) fn tell_word(
        self,
        out: &mut Output,
        column: Column,
        word: Unquoted,
        fault: WordFault,
    ) {
        let place = Place {
            row: self.number,
            column: Some(column),
        };
        place.tell_word(out, word, fault);
    }

    // Goes through the cells of the row, beside those of the header, and tells each quote that is wrong.
    pub(crate) fn read(self, out: &mut Output) -> Shape<'a> {
        let HeadedRow {
            header,
            cells,
            separator,
        } = self.below;
        let mut shape = Shape {
            rest: cells,
            filled: Filled::Nowhere,
            quotes: Ok(()),
        };
        let mut heads = Cells::new(header, separator);
        for cell in Cells::new(cells, separator) {
            let head = heads.next();
            shape.filled = shape.filled.max(standing(cell, head));
            if let Some(wrong) = cell.wrong {
                let column = head.and_then(|head| column_of(head.bytes));
                shape.quotes = Err(Told);
                self.tell(out, column, quote_fault(wrong, column));
            }
            shape.rest = cell.rest;
        }
        shape
    }
}

impl Shape<'_> {
    // Why a row whose quotes are right is not played.
    pub(crate) fn check(self) -> Result<(), Fault> {
        match self.filled {
            Filled::Nowhere => Err(Fault::Blank),
            Filled::UnderNames => Ok(()),
            Filled::UnderNoName => Err(Fault::Unnamed),
            Filled::Behind => Err(Fault::ManyCells),
        }
    }
}
