// From what a header states, in numbers already worked out, to the cartridge. No byte of a file is looked at here.
ghost use Rattle.std.specs.Prelude.{◌≡◌, ◌≤◌};
ghost use Rattle.cartridge.specs.Cartridges.{cartridge_of, chr_start, file_end, fits, is_vrc6, mapper_revision, prg_start, stated_chr, stated_ciram, stated_layout, stated_mirroring};

use memory_layout::MemoryLayout;
use vrc6_banking::banking::{Mirroring, Revision};

// What a header states: lengths of ROM in the header's units, those of RAM in bytes. The fields are the Rust's `NesHeader` by name, 0
// banks of CHR included.
#[derive(Clone, Copy, Debug, PartialEq, Eq)]
pub struct NesHeader {
    pub mapper_num: u16,
    // Units of 16,384 bytes.
    pub prg_rom_banks: u16,
    // Units of 8,192 bytes; 0 means that CHR is RAM.
    pub chr_rom_banks: u16,
    pub prg_ram: u32,
    // Counts only where CHR is RAM.
    pub chr_ram: u32,
    pub vertical: bool,
    pub trainer: bool,
    pub four_screens: bool,
}

// What a board is created from, and where PRG and CHR begin in the file.
#[derive(Clone, Copy, Debug, PartialEq, Eq)]
pub struct Cartridge {
    pub layout: MemoryLayout,
    pub mirroring: Mirroring,
    pub revision: Revision,
    pub prg_start: u32,
    pub chr_start: u32,
}

impl NesHeader {
    // The revision whose mapper this is.
    fn mapper_revision(self) -> Option<Revision>
        ensures { result ≡ mapper_revision self }
    {
        match self.mapper_num {
            24 => Some(Revision::A),
            26 => Some(Revision::B),
            _ => None,
        }
    }

    pub fn is_vrc6(self) -> bool
        ensures { result ≡ is_vrc6 self }
    {
        self.mapper_revision().is_some()
    }

    // Four screens are stronger than the bit for vertical.
    fn mirroring(self) -> Mirroring
        ensures { result ≡ stated_mirroring self }
    {
        match (self.four_screens, self.vertical) {
            (true, _) => Mirroring::FourScreen,
            (false, true) => Mirroring::Vertical,
            (false, false) => Mirroring::Horizontal,
        }
    }

    fn ciram(self) -> u32
        ensures { result ≡ stated_ciram self }
    {
        if self.four_screens { 4096 } else { 2048 }
    }

    fn chr(self) -> u32
        ensures { result ≡ stated_chr self }
    {
        match self.chr_rom_banks {
            0 => self.chr_ram,
            units => 8192 * u32::from(units),
        }
    }

    fn layout(self) -> MemoryLayout
        ensures { result ≡ stated_layout self }
    {
        MemoryLayout {
            prg_rom: 16384 * u32::from(self.prg_rom_banks),
            chr: self.chr(),
            chr_writable: self.chr_rom_banks == 0,
            prg_ram: self.prg_ram,
            ciram: self.ciram(),
        }
    }

    // Behind the header's 16 bytes, and behind a trainer.
    fn prg_start(self) -> u32
        ensures { (result ≡ prg_start self) × (result ≤ 528) }
    {
        if self.trainer { 16 + 512 } else { 16 }
    }

    // 528 bytes and 65,535 units of PRG are less than 1,073,742,000.
    fn chr_start(self) -> u32
        ensures { (result ≡ chr_start self) × (result ≤ 1073742000) }
    {
        self.prg_start() + 16384 * u32::from(self.prg_rom_banks)
    }

    // How long the file must be. CHR that is RAM takes no bytes of it.
    fn file_end(self) -> u32
        ensures { result ≡ file_end self }
    {
        self.chr_start() + 8192 * u32::from(self.chr_rom_banks)
    }

    // Whether a board takes these lengths, and a file of so many bytes has all that it states.
    pub fn fits(self, length: usize) -> bool
        ensures { result ≡ fits self length }
    {
        self.layout().within_limits() & (self.file_end() as usize <= length)
    }

    pub fn cartridge(self) -> Cartridge
        ensures { result ≡ cartridge_of self }
    {
        Cartridge {
            layout: self.layout(),
            mirroring: self.mirroring(),
            revision: self.mapper_revision().unwrap_or(Revision::A),
            prg_start: self.prg_start(),
            chr_start: self.chr_start(),
        }
    }
}
