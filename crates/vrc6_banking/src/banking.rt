// The banking values of a board.
ghost use Rattle.std.specs.Prelude.{◌≡◌, Some, [], ◌∷◌};
ghost use Rattle.vrc6_slots.specs.Chr.{chr_slots};
ghost use Rattle.vrc6_banking.specs.Banking.{RevisionNumbered, bank_written, banking_in_range, first_banking, renamed, revision_letter, revision_number, settings_of, zero_banking};

use registers::BankRegister;
use std::fmt;
use std::fmt::{Display, Formatter};
use vrc6_slots::chr::chr_slots;
use vrc6_slots::nametables::{mirroring_numbers, nametable_mirroring, nametable_numbers};
pub use vrc6_slots::{Mirroring, UnknownNumber};

// Revision B exchanges address lines 0 and 1.
#[derive(Clone, Copy, Debug, PartialEq, Eq)]
pub enum Revision {
    A,
    B,
}

// The number by which C knows it.
impl From<Revision> for u8 {
    ghost from_gives = { λ revision n. n ≡ revision_number revision };

    fn from(revision: Revision) -> u8 {
        revision as u8
    }
}

impl TryFrom<u8> for Revision {
    type Error = UnknownNumber;

    ghost try_from_gives = { RevisionNumbered };

    fn try_from(number: u8) -> Result<Revision, UnknownNumber> {
        match number {
            0 => Ok(Revision::A),
            1 => Ok(Revision::B),
            _ => Err(UnknownNumber(number)),
        }
    }
}

// The letter that sheets and rows of headers write for it.
impl Display for Revision {
    ghost output = { λ revision. Some (revision_letter revision ∷ []) };

    fn fmt<W: fmt::Write>(&self, f: &mut Formatter<W>) -> fmt::Result {
        f.write_str(match self {
            Revision::A => "A",
            Revision::B => "B",
        })
    }
}

// What a board is made with, beside its memory.
#[derive(Clone, Copy, Debug, PartialEq, Eq)]
pub struct Settings {
    pub mirroring: Mirroring,
    pub revision: Revision,
    // A CPU read where nothing is there hands back the bus byte, as a console does; off, it shows the page of zeros.
    pub open_bus: bool,
}

impl Settings {
    // The original's board: no open bus.
    pub fn new(mirroring: Mirroring, revision: Revision) -> Self
        ensures { result ≡ settings_of mirroring revision }
    {
        Self {
            mirroring,
            revision,
            open_bus: false,
        }
    }
}

#[repr(C)]
#[derive(Clone, Copy, Debug, Default, PartialEq, Eq)]
pub struct Banking {
    pub banking_mode: u8,
    // The 16 KiB bank at $8000 and the 8 KiB bank at $C000.
    pub prg_banks: [u8; 2],
    pub chr: [u8; 8],
    // The number of a Mirroring, 0 to 4.
    pub mirroring: u8,
    // The page that each nametable selects, of CHR or of CIRAM by bit 4 of the mode.
    pub nt_banks: [u8; 4],
    // Revision B.
    pub revision_b: bool,
}

impl Banking {
    // At creation every register is 0, and the nametables are those of the mirroring given.
    pub fn new(settings: Settings) -> Self
        ensures { result ≡ first_banking settings }
    {
        Self {
            mirroring: u8::from(settings.mirroring),
            nt_banks: mirroring_numbers(settings.mirroring),
            revision_b: settings.revision == Revision::B,
            ..Self::zero()
        }
    }

    // All values zero, as in the board of a refused create.
    pub fn zero() -> Self
        ensures { result ≡ zero_banking }
    {
        Self::default()
    }

    // Whether each value is in its range.
    pub fn in_range(self) -> bool
        ensures { result ≡ banking_in_range self }
    {
        let [first, second] = self.prg_banks;
        (first <= 15) & (second <= 31) & (self.mirroring <= 4)
    }

    // The banks of the eight 1 KiB slots, by the mode's lowest two bits.
    pub fn chr_banks(self) -> [u8; 8]
        ensures { result ≡ chr_slots self.banking_mode self.chr }
    {
        chr_slots(self.banking_mode, self.chr)
    }

    // Mirroring and nametable numbers again, from the mode and the CHR registers.
    fn update_nametables(self) -> Self
        ensures { result ≡ renamed self self.banking_mode self.chr }
    {
        let mode = self.banking_mode;
        Self {
            mirroring: u8::from(nametable_mirroring(mode)),
            nt_banks: nametable_numbers(mode, self.chr),
            ..self
        }
    }

    // A PRG register leaves the nametables as they are, even those of creation.
    pub fn write_register(mut self, register: BankRegister, val: u8) -> Self
        ensures { result ≡ bank_written register val self }
    {
        match register {
            BankRegister::Prg16 => {
                self.prg_banks[0] = val % 16;
                self
            }
            BankRegister::Prg8 => {
                self.prg_banks[1] = val % 32;
                self
            }
            BankRegister::Mode => {
                self.banking_mode = val;
                self.update_nametables()
            }
            BankRegister::Chr(i) => {
                self.chr[(i % 8) as usize] = val;
                self.update_nametables()
            }
        }
    }
}
