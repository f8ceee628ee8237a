// The cells of a row that say one value each, beside the cartridge file that the row names.
ghost use Rattle.std.specs.Prelude.{◌≡◌, List, ℕ, nat_eq, Option, Result, None};
ghost use Rattle.text_words.specs.declared.number.NumberError.{NumberError};
ghost use Rattle.cartridge.specs.declared.cartridge.Cartridge.{Cartridge};
ghost use Rattle.scene_cells.specs.declared.columns.Column.TheVariants.{Prg, Chr, Revision as RevisionColumn, Mirroring as MirroringColumn, Window, Interrupts as InterruptsColumn};
ghost use Rattle.scene_cells.specs.declared.choices.Interrupts.TheVariants.{Masked};
ghost use Rattle.scene_files.specs.declared.singles.Said.TheVariants.{Default};
ghost use Rattle.scene_files.specs.Filed.{Says, file_says, layout_for, said_by, unfiled};
ghost use Rattle.scene_files.specs.Singles.{single_of};
ghost use Rattle.scene_files.specs.Words.{interrupts_word, length_word, mirroring_word, revision_word, same_interrupts, same_mirroring, same_revision, window_word};

use crate::singles::{Said, SingleError, single_of};
use cartridge::Cartridge;
use memory_layout::MemoryLayout;
use scene_cells::choices::{Interrupts, interrupts_of};
use scene_cells::columns::Column;
use scene_cells::lookup::HeadedRow;
use std::fmt;
use text_words::number::{NumberError, in_base};
use vrc6_banking::banking::{Mirroring, Revision};
use vrc6_words::{mirroring_of, revision_of};

// Stands for empty cells where there is no file: layout S of document 01, revision A, vertical mirroring. A script's line S says that
// layout too (script_lines): two papers' defaults, which need not stay alike.
pub fn unfiled() -> Cartridge
    ensures { result ≡ unfiled }
{
    Cartridge {
        layout: MemoryLayout {
            prg_rom: 131072,
            chr: 131072,
            chr_writable: false,
            prg_ram: 8192,
            ciram: 2048,
        },
        mirroring: Mirroring::Vertical,
        revision: Revision::A,
        prg_start: 0,
        chr_start: 0,
    }
}

// What a file says in a column.
#[derive(Clone, Copy, PartialEq, Eq, Debug)]
pub enum FileSays {
    Length(u32),
    Revision(Revision),
    Mirroring(Mirroring),
}

// As a cell says it.
impl fmt::Display for FileSays {
    fn fmt<W: fmt::Write>(&self, f: &mut fmt::Formatter<W>) -> fmt::Result {
        match self {
            FileSays::Length(bytes) => write!(f, "{bytes}"),
            FileSays::Revision(revision) => write!(f, "{revision}"),
            FileSays::Mirroring(mirroring) => write!(f, "{mirroring}"),
        }
    }
}

fn length_word(word: &[u8]) -> Result<u32, NumberError>
    ensures { result ≡ length_word word.now }
{
    in_base(word, 10, 262144)
}

fn window_word(word: &[u8]) -> Result<Option<u32>, NumberError>
    ensures { result ≡ window_word word.now }
{
    in_base(word, 10, 1000000).map(Some)
}

// The three are named, since each states its definition to `single`.
fn revision_word(word: &[u8]) -> Result<Revision, NumberError>
    ensures { result ≡ revision_word word.now }
{
    revision_of(word).ok_or(NumberError::NoNumber)
}

fn mirroring_word(word: &[u8]) -> Result<Mirroring, NumberError>
    ensures { result ≡ mirroring_word word.now }
{
    mirroring_of(word).ok_or(NumberError::NoNumber)
}

fn interrupts_word(word: &[u8]) -> Result<Interrupts, NumberError>
    ensures { result ≡ interrupts_word word.now }
{
    interrupts_of(word).ok_or(NumberError::NoNumber)
}

// A row, and the file that it names, if it names one.
#[derive(Clone, Copy)]
pub struct FiledRow<'a> {
    pub row: HeadedRow<'a>,
    pub file: Option<Cartridge>,
}

impl FiledRow<'_> {
    // What stands for an empty cell of which a cartridge says this.
    fn said<T, C: Fn(Cartridge) -> T>(self, part: C) -> Said<T>
        ghost by: { Cartridge → T }
        requires callable { C.IsAlwaysCallable part }
        requires tells { (file : _) (r : _) → C.post part file r → r ≡ by file }
        ensures { result ≡ said_by by self.entry.file }
    {
        match self.file {
            Some(file) => Said::File(part(file)),
            None => Said::Default(part(unfiled())),
        }
    }

    fn said_prg(self) -> Said<u32>
        ensures { result ≡ said_by (λ c. c.layout.prg_rom) self.entry.file }
    {
        self.said(|cartridge| cartridge.layout.prg_rom)
    }

    fn said_chr(self) -> Said<u32>
        ensures { result ≡ said_by (λ c. c.layout.chr) self.entry.file }
    {
        self.said(|cartridge| cartridge.layout.chr)
    }

    fn said_revision(self) -> Said<Revision>
        ensures { result ≡ said_by (λ c. c.revision) self.entry.file }
    {
        self.said(|cartridge| cartridge.revision)
    }

    fn said_mirroring(self) -> Said<Mirroring>
        ensures { result ≡ said_by (λ c. c.mirroring) self.entry.file }
    {
        self.said(|cartridge| cartridge.mirroring)
    }

    // What the file says in a column, if there is a file and it says something there.
    pub fn file_says(self, column: Column) -> Option<FileSays>
        ensures { result ≡ file_says self.entry.file column }
    {
        match column {
            Column::Prg => self.said_prg().file().map(FileSays::Length),
            Column::Chr => self.said_chr().file().map(FileSays::Length),
            Column::Revision => self.said_revision().file().map(FileSays::Revision),
            Column::Mirroring => self.said_mirroring().file().map(FileSays::Mirroring),
            _ => None,
        }
    }

    // What the row says in a column whose words are read so.
    fn single<T, F>(self, column: Column, said: Said<T>, read: F) -> Result<T, SingleError>
    where
        T: Copy + PartialEq,
        F: Fn(&[u8]) -> Result<T, NumberError>,
        ghost reads: { List ℕ → Result T NumberError }
        requires callable { F.IsAlwaysCallable read }
        requires tells { (word : _) (r : _) → F.post read word r → r ≡ reads word.now }
        ensures { Says self.entry.row column (single_of T.eq reads said) result }
    {
        single_of(self.row.bytes(column), said, read)
    }

    // The length of PRG.
    pub fn prg(self) -> Result<u32, SingleError>
        ensures { Says self.entry.row Prg (single_of nat_eq length_word (said_by (λ c. c.layout.prg_rom) self.entry.file)) result }
    {
        let said = self.said_prg();
        self.single(Column::Prg, said, length_word)
    }

    // The length of CHR.
    pub fn chr(self) -> Result<u32, SingleError>
        ensures { Says self.entry.row Chr (single_of nat_eq length_word (said_by (λ c. c.layout.chr) self.entry.file)) result }
    {
        let said = self.said_chr();
        self.single(Column::Chr, said, length_word)
    }

    // The revision.
    pub fn revision(self) -> Result<Revision, SingleError>
        ensures { Says self.entry.row RevisionColumn (single_of same_revision revision_word (said_by (λ c. c.revision) self.entry.file)) result }
    {
        let said = self.said_revision();
        self.single(Column::Revision, said, revision_word)
    }

    // The mirroring.
    pub fn mirroring(self) -> Result<Mirroring, SingleError>
        ensures { Says self.entry.row MirroringColumn (single_of same_mirroring mirroring_word (said_by (λ c. c.mirroring) self.entry.file)) result }
    {
        let said = self.said_mirroring();
        self.single(Column::Mirroring, said, mirroring_word)
    }

    // The line on which the interrupt must come, if one is given. No cartridge says one.
    pub fn window(self) -> Result<Option<u32>, SingleError>
        ensures { Says self.entry.row Window (single_of ⟦<Option<u32> as PartialEq>⟧.eq window_word (Default None)) result }
    {
        self.single(Column::Window, Said::Default(None), window_word)
    }

    // How the handler leaves interrupts, which no cartridge says. It is taken to leave them masked.
    pub fn interrupts(self) -> Result<Interrupts, SingleError>
        ensures { Says self.entry.row InterruptsColumn (single_of same_interrupts interrupts_word (Default Masked)) result }
    {
        self.single(
            Column::Interrupts,
            Said::Default(Interrupts::Masked),
            interrupts_word,
        )
    }

    // The board's layout: the file's, or without one that of a cartridge with these lengths.
    pub fn layout(self, prg: u32, chr: u32) -> MemoryLayout
        ensures { result ≡ layout_for self.entry.file prg chr }
    {
        match self.file {
            Some(file) => file.layout,
            None => MemoryLayout {
                prg_rom: prg,
                chr,
                ..unfiled().layout
            },
        }
    }
}
