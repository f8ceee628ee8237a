// A sheet from its header to its end.
use crate::checking::check;
use crate::faults::{Fault, put_cell};
use crate::header::Header;
use crate::reading::read_scene;
use crate::row::{Row, Shape};
use crate::scene::{MOST_ROM, NoBoard, RowSteps, Scene};
use crate::totals::{Outcome, Totals};
use scene_cells::columns::Column;
use std::fmt;
use std::io::Stderr;
use text_output::{Output, put};

// The bytes that a sheet may have.
pub const MOST_BYTES: usize = 2097152;

// So many moments are swept between two lines of progress.
const PROGRESS: u64 = 500000;

// Why a sheet can't be played.
#[derive(Clone, Copy)]
pub enum SheetFault {
    TooLong,
    Empty,
    Utf16,
    NoWrites,
    // What is wrong with the header was told already.
    BadHeader,
}

impl fmt::Display for SheetFault {
    fn fmt<W: fmt::Write>(&self, f: &mut fmt::Formatter<W>) -> fmt::Result {
        f.write_str(match self {
            SheetFault::TooLong => "the sheet is longer than 2097152 bytes\n",
            SheetFault::Empty => "the sheet is empty\n",
            SheetFault::Utf16 => "the sheet is UTF-16; save it as CSV UTF-8\n",
            SheetFault::NoWrites => "row 1: no column is named 'writes'\n",
            SheetFault::BadHeader => "",
        })
    }
}

// Where a sheet lies: names of cartridge files are taken from the folder of its path.
#[derive(Clone, Copy)]
pub struct Folder<'a> {
    pub rt: &'a HostRuntime,
    pub path: &'a [u8],
}

// A sheet that is played.
#[derive(Clone, Copy)]
pub struct Sheet<'a> {
    pub folder: Folder<'a>,
    pub header: Header<'a>,
    // Zeros for the fixed buffers of its boards.
    pub rom: &'a [u8; MOST_ROM],
}

// Whether a text begins with the mark of UTF-16, in either order of its two bytes.
fn is_utf16(text: &[u8]) -> bool {
    matches!(text, [0xFF, 0xFE, ..] | [0xFE, 0xFF, ..])
}

// Why a text can't be read at all.
fn check_text(text: &[u8]) -> Result<(), SheetFault> {
    if MOST_BYTES < text.len() {
        return Err(SheetFault::TooLong);
    }
    if text.is_empty() {
        return Err(SheetFault::Empty);
    }
    if is_utf16(text) {
        return Err(SheetFault::Utf16);
    }
    Ok(())
}

// A line of progress, for sheets that take long, if so many moments were swept since the last. Hands back the moments told.
fn tell(stderr: Stderr, row: u32, swept: u64, told: u64) -> u64 {
    if swept.saturating_sub(told) < PROGRESS {
        return told;
    }
    let _ = eprintln!(stderr; "row {row}: {swept} moments swept");
    swept
}

// The row's number, and the scene's name if it has one.
fn put_name(out: &mut Output, row: Row) {
    let number = row.number;
    put!(out; "row {number}");
    if let Some(cell) = row
        .cell(Column::Scene)
        .filter(|cell| !cell.bytes.is_empty())
    {
        put!(out; ": ");
        put_cell(out, cell.unquoted());
    }
    put!(out; "\n");
}

fn check_played(scene: &Scene, out: &mut Output) -> Result<Outcome, NoBoard> {
    let ended = scene.play(scene.writes, scene.menu)?;
    check(scene, ended, out)
}

impl Sheet<'_> {
    // A row whose quotes are right and which is not blank.
    fn play_scene(self, row: Row, steps: &mut RowSteps, out: &mut Output) -> Outcome {
        let Ok(scene) = read_scene(self, row, steps, out) else {
            return Outcome::Bad;
        };
        put_name(out, row);
        match check_played(&scene, out) {
            Ok(outcome) => outcome,
            Err(unplayed) => {
                put!(out; "  {unplayed}\n");
                Outcome::Bad
            }
        }
    }

    fn play_row(self, row: Row, shape: Shape, steps: &mut RowSteps, out: &mut Output) -> Outcome {
        if shape.quotes.is_err() {
            return Outcome::Bad;
        }
        match shape.check() {
            Ok(()) => self.play_scene(row, steps, out),
            Err(fault) => {
                row.tell(out, None, fault);
                if fault == Fault::Blank {
                    Outcome::Blank
                } else {
                    Outcome::Bad
                }
            }
        }
    }

    fn play_rows(self, out: &mut Output) -> Totals {
        let mut totals = Totals::default();
        let mut steps = RowSteps::new();
        let mut told = 0;
        let mut rest = self.header.rest;
        // A sheet has far fewer rows.
        for number in 2..u32::MAX {
            if rest.is_empty() {
                break;
            }
            let row = self.header.above(rest, number);
            let shape = row.read(out);
            totals.add(self.play_row(row, shape, &mut steps, out));
            told = tell(self.folder.rt.stderr(), number, totals.swept(), told);
            rest = shape.rest;
        }
        totals
    }
}

// Plays the sheet with this text.
fn play(folder: Folder, text: &[u8], out: &mut Output) -> Result<(), SheetFault> {
    check_text(text)?;
    let header = Header::read(text, out)?;
    let rom = [0; MOST_ROM];
    let sheet = Sheet {
        folder,
        header,
        rom: &rom,
    };
    let totals = sheet.play_rows(out);
    put!(out; "{totals}");
    Ok(())
}

// Plays it, or says that nothing was played.
pub(crate) fn run(folder: Folder, text: &[u8], out: &mut Output) {
    if let Err(fault) = play(folder, text, out) {
        put!(out; "{fault}nothing was played\n");
    }
    out.flush();
}
