// The cartridge file that a row names.
use crate::faults::{Told, WordFault};
use crate::row::Row;
use crate::sheet::Folder;
use cartridge::Cartridge;
use cartridge_files::{LONGEST, read_file};
use cartridge_header::read_header;
use scene_cells::columns::Column;
use scene_cells::quotes::Unquoted;
use scene_paths::{name_in, path_of};
use text_output::Output;

// The bytes that a path may have.
const MOST_PATH: usize = 4095;

// Out of line, so that a row that names no file makes no room for one.
#[inline(never)]
fn cartridge_at(rt: &HostRuntime, path: &[u8]) -> Result<Cartridge, WordFault> {
    let mut bytes = [0u8; LONGEST];
    match read_file(rt, path, &mut bytes) {
        Ok(file) => read_header(file).map_err(WordFault::Refused),
        Err(_) => Err(WordFault::Unread),
    }
}

// The file that a cell of a sheet names.
fn cartridge_named(folder: Folder, cell: Unquoted) -> Result<Cartridge, WordFault> {
    match path_of::<MOST_PATH>(folder.path, cell) {
        Some(path) => cartridge_at(folder.rt, path.as_slice()),
        None => Err(WordFault::Unread),
    }
}

// What the row's file says, if it names one. A relative name is taken from the sheet's folder.
pub(crate) fn read_source(
    folder: Folder,
    row: Row,
    out: &mut Output,
) -> Result<Option<Cartridge>, Told> {
    let Some(cell) = row.cell(Column::File) else {
        return Ok(None);
    };
    let name = name_in(cell.bytes);
    if name.is_empty() {
        return Ok(None);
    }
    match cartridge_named(folder, cell.unquoted()) {
        Ok(cartridge) => Ok(Some(cartridge)),
        Err(fault) => {
            let name = Unquoted {
                bytes: name,
                ..cell.unquoted()
            };
            row.tell_word(out, Column::File, name, fault);
            Err(Told)
        }
    }
}
