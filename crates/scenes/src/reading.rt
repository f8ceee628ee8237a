// The cells of a row read as a scene. Each fault is told, so a row's faults are all seen at once.
use crate::faults::{Told, WordFault};
use crate::lists::{read_letters, read_steps};
use crate::row::Row;
use crate::scene::{RowSteps, Scene};
use crate::sheet::Sheet;
use crate::source::read_source;
use scene_cells::choices::Interrupts;
use scene_cells::columns::Column;
use scene_cells::quotes::Unquoted;
use scene_files::filed::FiledRow;
use scene_files::singles::SingleError;
use scene_steps::picture::{At, AtError, at_in};
use text_output::Output;
use text_words::next_word;

// What is wrong with a cell that has no value of its column.
fn no_value(column: Column) -> WordFault {
    match column {
        Column::Revision => WordFault::NoRevision,
        Column::Mirroring => WordFault::NoMirroring,
        Column::Interrupts => WordFault::NoInterrupts,
        _ => WordFault::NoDecimal,
    }
}

// What a fault shows of a cell: its word, or all of it if it has more than one.
fn shown(cell: &[u8], fault: WordFault) -> &[u8] {
    if matches!(
        fault,
        WordFault::ManyWords | WordFault::Place(AtError::ManyWords)
    ) {
        return cell;
    }
    match next_word(cell) {
        Some(word) => word.bytes,
        None => &[],
    }
}

// A row beside the file that it names, if it names one.
#[derive(Clone, Copy)]
struct Reader<'a> {
    row: Row<'a>,
    cells: FiledRow<'a>,
}

impl Reader<'_> {
    fn fault(self, error: SingleError, column: Column) -> WordFault {
        match (error, self.cells.file_says(column)) {
            (SingleError::TooLarge, _) => WordFault::TooLarge,
            (SingleError::ManyWords, _) => WordFault::ManyWords,
            (SingleError::NotTheFile, Some(said)) => WordFault::NotTheFile(said),
            (SingleError::NoValue | SingleError::NotTheFile, _) => no_value(column),
        }
    }

    // Tells what is wrong with the word of a cell.
    fn tell(self, out: &mut Output, column: Column, fault: WordFault) -> Told {
        let cell = self.row.unquoted(column);
        let word = Unquoted {
            bytes: shown(cell.bytes, fault),
            ..cell
        };
        self.row.tell_word(out, column, word, fault);
        Told
    }

    // What a column's cell says, or that what is wrong with it was told.
    fn read<T>(
        self,
        out: &mut Output,
        column: Column,
        said: Result<T, SingleError>,
    ) -> Result<T, Told> {
        said.map_err(|error| self.tell(out, column, self.fault(error, column)))
    }

    // Where the writes end.
    fn at(self, out: &mut Output) -> Result<Option<At>, Told> {
        at_in(self.row.below.bytes(Column::At)).map_err(|error| self.tell(
            out,
            Column::At,
            WordFault::Place(error),
        ))
    }
}

// The whole row. All cells are read before a fault ends the work.
pub(crate) fn read_scene<'a>(
    sheet: Sheet<'a>,
    row: Row,
    steps: &'a mut RowSteps,
    out: &mut Output,
) -> Result<Scene<'a>, Told> {
    let source = read_source(sheet.folder, row, out);
    let cells = FiledRow {
        row: row.below,
        file: source.unwrap_or(None),
    };
    let reader = Reader { row, cells };
    let prg = reader.read(out, Column::Prg, cells.prg());
    let chr = reader.read(out, Column::Chr, cells.chr());
    let revision = reader.read(out, Column::Revision, cells.revision());
    let mirroring = reader.read(out, Column::Mirroring, cells.mirroring());
    let window = reader.read(out, Column::Window, cells.window());
    let at = reader.at(out);
    let interrupts = reader.read(out, Column::Interrupts, cells.interrupts());
    let RowSteps { writes, menu } = steps;
    let written = read_steps(row, Column::Writes, out, writes);
    let handled = read_steps(row, Column::Menu, out, menu);
    let asked = read_letters(row, out);
    source?;
    written?;
    handled?;
    Ok(Scene {
        rom: sheet.rom,
        layout: cells.layout(prg?, chr?),
        mirroring: mirroring?,
        revision: revision?,
        window: window?,
        at: at?,
        unmasked: interrupts? == Interrupts::Open,
        writes: writes.as_slice(),
        menu: menu.as_slice(),
        asked: asked?,
    })
}
