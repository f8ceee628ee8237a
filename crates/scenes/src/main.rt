// Plays sheets of scenes: the files that its arguments name, or standard input. It checks each scene's letters and window,
// and plays its menu at every clock up to the interrupt (docs/SCENES.md).
#![tactic(auto)]

mod changes;
mod checking;
mod faults;
mod header;
mod inside;
mod letters;
mod lists;
mod near;
mod reading;
mod row;
mod scene;
mod sheet;
mod source;
mod totals;

use crate::sheet::{Folder, MOST_BYTES, run};
use cartridge_files::{fail, open_read, read_first};
use program_arguments::Arguments;
use scene_cells::spaces::blank_spaces;
use std::io::{Error, Read};
use text_output::{Output, put};

// Two bytes more than a sheet may have: of one that is too long so many are taken, and the next sheet of standard input begins behind them.
const SHEET: usize = MOST_BYTES + 2;

// The text of a sheet. A no-break space counts as a blank.
fn read_sheet<'a, F: Read>(file: &mut F, text: &'a mut [u8; SHEET]) -> Result<&'a [u8], Error> {
    let n = read_first(file, text)?.len();
    let read = &mut text[..n];
    blank_spaces(read);
    Ok(read)
}

// Says that nothing was played of a sheet that can't be read.
fn tell_unread(rt: &HostRuntime, name: &[u8], error: Error, out: &mut Output) {
    out.flush();
    fail(rt.stderr(), name, error);
    put!(out; "nothing was played\n");
    out.flush();
}

// Out of line, so that standard input and a file never have their sheets on the stack together.
#[inline(never)]
fn play<F: Read + Drop>(folder: Folder, mut file: F, name: &[u8], out: &mut Output) {
    let mut space = [0u8; SHEET];
    match read_sheet(&mut file, &mut space) {
        Ok(text) => run(folder, text, out),
        Err(error) => tell_unread(folder.rt, name, error, out),
    }
}

fn play_input(rt: &HostRuntime, out: &mut Output) {
    let folder = Folder { rt, path: b"" };
    play(folder, rt.stdin(), b"standard input", out);
}

// A path that is `-` alone stands for standard input.
fn play_file(rt: &HostRuntime, path: &[u8], out: &mut Output) {
    if path == b"-".as_slice() {
        play_input(rt, out);
        return;
    }
    match open_read(rt, path) {
        Ok(file) => play(Folder { rt, path }, file, path, out),
        Err(error) => tell_unread(rt, path, error, out),
    }
}

// Where there are several sheets, its name stands above what is printed of one, and is written out before the sheet is opened.
fn main(rt: HostRuntime) {
    let mut out = Output::new(rt.stdout());
    let count = Arguments::new(&rt).count();
    if count == 0 {
        play_input(&rt, &mut out);
    }
    for argument in Arguments::new(&rt) {
        let path = argument.bytes();
        if count > 1 {
            out.put_all(path);
            out.put(b'\n');
            out.flush();
        }
        play_file(&rt, path, &mut out);
    }
}
