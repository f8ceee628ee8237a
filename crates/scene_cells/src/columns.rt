// The columns of a sheet, by the names in its first row.
ghost use Rattle.std.specs.Prelude.{◌≡◌, Some};
ghost use Rattle.scene_cells.specs.Columns.{column_name, column_of};

use std::fmt;
use text_words::names::same_name;
use text_words::only_word;

#[derive(Clone, Copy, PartialEq, Eq, Debug)]
pub enum Column {
    Scene,
    Prg,
    Chr,
    Revision,
    Mirroring,
    Writes,
    Window,
    Letters,
    Menu,
    File,
    At,
    Interrupts,
}

// The columns, as docs/SCENES.md lists them.
pub const COLUMNS: [Column; 12] = [
    Column::Scene,
    Column::Prg,
    Column::Chr,
    Column::Revision,
    Column::Mirroring,
    Column::Writes,
    Column::Window,
    Column::Letters,
    Column::Menu,
    Column::File,
    Column::At,
    Column::Interrupts,
];

impl Column {
    // Its name, in small letters.
    pub fn name(self) -> &'static str
        ensures { result.now ≡ column_name self }
    {
        match self {
            Column::Scene => "scene",
            Column::Prg => "prg",
            Column::Chr => "chr",
            Column::Revision => "revision",
            Column::Mirroring => "mirroring",
            Column::Writes => "writes",
            Column::Window => "window",
            Column::Letters => "letters",
            Column::Menu => "menu",
            Column::File => "file",
            Column::At => "at",
            Column::Interrupts => "interrupts",
        }
    }
}

impl fmt::Display for Column {
    ghost output = { λ column. Some (column_name column) };

    fn fmt<W: fmt::Write>(&self, f: &mut fmt::Formatter<W>) -> fmt::Result {
        f.write_str(self.name())
    }
}

// The column that a cell of the first row names by its only word.
pub fn column_of(cell: &[u8]) -> Option<Column>
    ensures { result ≡ column_of cell.now }
{
    let word = only_word(cell)?;
    COLUMNS
        .iter()
        .copied()
        .find(|column| same_name(word, column.name().as_bytes()))
}
