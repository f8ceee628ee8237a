// What a cartridge file says, as numbers.
ghost use Rattle.std.specs.Prelude.{◌≡◌};
ghost use Rattle.base_shared.specs.Numbers.{number};
ghost use Rattle.cartridge_header.specs.Ines.{read_header};
ghost use Rattle.host_cartridge.specs.Encoded.{cartridge_encoded, header_encoded, refused_by};

use base_shared::Refusal;
use cartridge::Cartridge;
use cartridge_header::read_header;
use memory_layout::MemoryLayout;

// The cartridge with mirroring 0 to 4 and revision 0 for A and 1 for B, as C reads them. Refused, all is 0 but the number.
#[repr(C)]
#[derive(Clone, Copy, Debug, Default, PartialEq, Eq)]
pub struct EncodedCartridge {
    pub layout: MemoryLayout,
    pub mirroring: u8,
    pub revision: u8,
    pub prg_start: u32,
    pub chr_start: u32,
    pub refusal: u8,
}

impl From<Cartridge> for EncodedCartridge {
    ghost from_gives = { λ cartridge encoded. encoded ≡ cartridge_encoded cartridge };

    fn from(cartridge: Cartridge) -> EncodedCartridge {
        EncodedCartridge {
            layout: cartridge.layout,
            mirroring: u8::from(cartridge.mirroring),
            revision: u8::from(cartridge.revision),
            prg_start: cartridge.prg_start,
            chr_start: cartridge.chr_start,
            refusal: 0,
        }
    }
}

impl From<Refusal> for EncodedCartridge {
    ghost from_gives = { λ refusal encoded. encoded ≡ refused_by (number refusal) };

    fn from(refusal: Refusal) -> EncodedCartridge {
        EncodedCartridge {
            refusal: u8::from(refusal),
            ..EncodedCartridge::default()
        }
    }
}

pub fn encode_header(file: &[u8]) -> EncodedCartridge
    ensures { result ≡ header_encoded (read_header file.now) }
{
    match read_header(file) {
        Ok(cartridge) => EncodedCartridge::from(cartridge),
        Err(refusal) => EncodedCartridge::from(refusal),
    }
}
