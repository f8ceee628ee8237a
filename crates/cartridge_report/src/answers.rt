// An answer of `read_header` as rows of headers write it (oracle/FORMAT.md).
ghost use Rattle.std.specs.Prelude.{◌≡◌, Some};
ghost use Rattle.cartridge_report.specs.Numbers.{answer_text, cartridge_text, kind_text};

use base_shared::Refusal;
use cartridge::Cartridge;
use std::fmt;
use std::fmt::{Display, Formatter};

// Whether CHR is ROM or RAM.
fn kind(chr_writable: bool) -> &'static str
    ensures { result.now ≡ kind_text chr_writable }
{
    if chr_writable { "ram" } else { "rom" }
}

// The nine words of a cartridge.
#[derive(Clone, Copy)]
struct Words(Cartridge);

impl Display for Words {
    ghost output = { λ words. Some (cartridge_text words.0) };

    fn fmt<W: fmt::Write>(&self, f: &mut Formatter<W>) -> fmt::Result {
        let Words(cartridge) = *self;
        let layout = cartridge.layout;
        write!(f, "{} {} ", layout.prg_rom, layout.chr)?;
        write!(f, "{} ", kind(layout.chr_writable))?;
        write!(f, "{} {} ", layout.prg_ram, layout.ciram)?;
        write!(f, "{} ", cartridge.mirroring)?;
        write!(f, "{} ", cartridge.revision)?;
        write!(f, "{} {}", cartridge.prg_start, cartridge.chr_start)
    }
}

// The nine words of a cartridge, or the refusal's number.
#[derive(Clone, Copy)]
pub struct Answer(pub Result<Cartridge, Refusal>);

impl Display for Answer {
    ghost output = { λ answer. Some (answer_text answer.0) };

    fn fmt<W: fmt::Write>(&self, f: &mut Formatter<W>) -> fmt::Result {
        match self.0 {
            Ok(cartridge) => write!(f, "{}", Words(cartridge)),
            Err(refusal) => write!(f, "{}", u8::from(refusal)),
        }
    }
}
