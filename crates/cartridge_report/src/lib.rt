// What is printed of a cartridge, and of the refusal of a file.
#![tactic(auto)]

pub mod answers;

ghost use Rattle.std.specs.Prelude.{◌≡◌, Some};
ghost use Rattle.cartridge_report.specs.Reports.{chr_text, meaning, refused_text, report_text};

use base_shared::Refusal;
use cartridge::Cartridge;
use std::fmt;
use std::fmt::{Display, Formatter};

// CHR's length, and where it begins. RAM takes no bytes of the file.
#[derive(Clone, Copy)]
struct Chr(Cartridge);

impl Display for Chr {
    ghost output = { λ chr. Some (chr_text chr.0) };

    fn fmt<W: fmt::Write>(&self, f: &mut Formatter<W>) -> fmt::Result {
        let length = self.0.layout.chr;
        let start = self.0.chr_start;
        if self.0.layout.chr_writable {
            write!(
                f,
                "{length} bytes of RAM, from byte {start}; it takes none of the file"
            )
        } else {
            write!(f, "{length} bytes, from byte {start}")
        }
    }
}

// What a cartridge file says: six lines, each named as a sheet's column where there is one.
#[derive(Clone, Copy)]
pub struct Report(pub Cartridge);

impl Display for Report {
    ghost output = { λ report. Some (report_text report.0) };

    fn fmt<W: fmt::Write>(&self, f: &mut Formatter<W>) -> fmt::Result {
        let cartridge = self.0;
        let layout = cartridge.layout;
        let prg = layout.prg_rom;
        writeln!(f, "  prg: {prg} bytes, from byte {}", cartridge.prg_start)?;
        writeln!(f, "  chr: {}", Chr(cartridge))?;
        writeln!(f, "  revision: {}", cartridge.revision)?;
        writeln!(f, "  mirroring: {}", cartridge.mirroring)?;
        writeln!(f, "  prg ram: {} bytes", layout.prg_ram)?;
        writeln!(f, "  ciram: {} bytes", layout.ciram)
    }
}

// What a refusal means where a file can be refused for it.
fn meaning(refusal: Refusal) -> &'static str
    ensures { result.now ≡ meaning refusal }
{
    match refusal {
        Refusal::NoHeader => ": no whole iNES header (16 bytes, 4E 45 53 1A first)",
        Refusal::Mapper => ": a mapper other than 24 and 26, or a NES 2.0 header",
        Refusal::FileLength => ": a length is over the limit, or the file ends early",
        Refusal::Limits | Refusal::Lengths | Refusal::Range | Refusal::FirstPage => "",
    }
}

// Why a file is refused: the number, and what it means.
#[derive(Clone, Copy)]
pub struct Refused(pub Refusal);

impl Display for Refused {
    ghost output = { λ refused. Some (refused_text refused.0) };

    fn fmt<W: fmt::Write>(&self, f: &mut Formatter<W>) -> fmt::Result {
        write!(f, "refused by {}{}", u8::from(self.0), meaning(self.0))
    }
}
