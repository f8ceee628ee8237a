// The cells of a row, one after the other or by their place, and the place of a column in the header.
ghost use Rattle.std.specs.Prelude.{◌≡◌, option_map};
ghost use Rattle.std.specs.Iterator.{YieldsFirstBy, item_count};
ghost use Rattle.scene_cells.specs.Contents.{content};
ghost use Rattle.scene_cells.specs.Rows.{BytesUnder, CellUnder, FoundIn, cells_left, cells_of, nth_cell};

use crate::columns::{Column, column_of};
use crate::{Cell, cell_at};

// The cells of a row; `row` is the text from the next of them on, as long as there is one.
#[derive(Clone, Copy)]
pub struct Cells<'a> {
    pub row: Option<&'a [u8]>,
    pub separator: u8,
}

impl<'a> Cells<'a> {
    // The cells of the row that a text begins with.
    pub fn new(text: &'a [u8], separator: u8) -> Cells<'a>
        ensures { cells_left result.separator result.row ≡ cells_of separator text.now }
    {
        Cells {
            row: Some(text),
            separator,
        }
    }
}

impl<'a> Iterator for Cells<'a> {
    type Item = Cell<'a>;

    ghost next_gives = { YieldsFirstBy content (λ s. cells_left s.separator s.row) };

    ghost remaining = { item_count (λ s. cells_left s.separator s.row) };

    #[tactic(auto, using(crate::proofs::Walking::step))]
    fn next(&mut self) -> Option<Cell<'a>> {
        let cell = cell_at(self.row?, self.separator);
        self.row = (!cell.last).then_some(cell.rest);
        Some(cell)
    }
}

// The cell of a row that has k cells before it.
pub fn nth_cell(row: &[u8], k: usize, separator: u8) -> Option<Cell<'_>>
    ensures { option_map content result ≡ nth_cell separator k row.now }
{
    Cells::new(row, separator).nth(k)
}

// How many cells stand before the first cell of a row, the header, with the name of a column.
pub fn find_column(row: &[u8], column: Column, separator: u8) -> Option<usize>
    ensures { FoundIn separator column row.now result }
{
    Cells::new(row, separator).position(|cell| column_of(cell.bytes) == Some(column))
}

// A row below its header, and what stands between the cells of both.
#[derive(Clone, Copy)]
pub struct HeadedRow<'a> {
    pub header: &'a [u8],
    pub cells: &'a [u8],
    pub separator: u8,
}

impl<'a> HeadedRow<'a> {
    // The row's cell in a column that the header names.
    pub fn cell(self, column: Column) -> Option<Cell<'a>>
        ensures { CellUnder self.entry.separator self.entry.header.now self.entry.cells.now column result }
    {
        let place = find_column(self.header, column, self.separator)?;
        nth_cell(self.cells, place, self.separator)
    }

    // The bytes of that cell, none where there is no cell.
    pub fn bytes(self, column: Column) -> &'a [u8]
        ensures { BytesUnder self.entry.separator self.entry.header.now self.entry.cells.now column result.now }
    {
        match self.cell(column) {
            Some(cell) => cell.bytes,
            None => &[],
        }
    }
}
