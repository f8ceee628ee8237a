// The header of a cartridge file (iNES): its bytes, and the first condition that fails (tetanes-core's cart.rs).
#![tactic(auto)]

ghost use Rattle.std.specs.Prelude.{◌≡◌};
ghost use Rattle.cartridge_header.specs.Ines.{file_byte, is_ines, is_newer, mapper_number, read_header, stated_by};

use base_shared::{Refusal, bit};
use cartridge::{Cartridge, NesHeader};

// A byte of the file, 0 past its end.
fn byte_at(file: &[u8], i: usize) -> u8
    ensures { result ≡ file_byte file.now i }
{
    file.get(i).copied().unwrap_or(0)
}

// Whether the file has a whole header, by its length and its first four bytes.
fn is_ines(file: &[u8]) -> bool
    ensures { result ≡ is_ines file.now }
{
    (16 <= file.len()) & file.starts_with(b"NES\x1A")
}

// Whether byte 7 says that the header is of the newer edition.
fn is_newer(file: &[u8]) -> bool
    ensures { result ≡ is_newer file.now }
{
    let seven = byte_at(file, 7);
    bit(seven, 3) & !bit(seven, 2)
}

// Byte 7's high four bits above byte 6's.
fn mapper_number(file: &[u8]) -> u8
    ensures { result ≡ mapper_number file.now }
{
    let six = byte_at(file, 6);
    let seven = byte_at(file, 7);
    seven / 16 * 16 + six / 16
}

// What bytes 4 to 7 state.
fn stated_by(file: &[u8]) -> NesHeader
    ensures { result ≡ stated_by file.now }
{
    let flags = byte_at(file, 6);
    NesHeader {
        mapper_num: u16::from(mapper_number(file)),
        prg_rom_banks: u16::from(byte_at(file, 4)),
        chr_rom_banks: u16::from(byte_at(file, 5)),
        prg_ram: 8192,
        chr_ram: 8192,
        vertical: bit(flags, 0),
        trainer: bit(flags, 2),
        four_screens: bit(flags, 3),
    }
}

// The cartridge that a file of any bytes says it is, or the first condition that fails. Of the bytes behind byte 7 only their
// number counts.
pub fn read_header(file: &[u8]) -> Result<Cartridge, Refusal>
    ensures { result ≡ read_header file.now }
{
    if !is_ines(file) {
        return Err(Refusal::NoHeader);
    }
    let stated = stated_by(file);
    if !stated.is_vrc6() | is_newer(file) {
        return Err(Refusal::Mapper);
    }
    if !stated.fits(file.len()) {
        return Err(Refusal::FileLength);
    }
    Ok(stated.cartridge())
}
