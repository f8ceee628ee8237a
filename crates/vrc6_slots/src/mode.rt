// The bits of the banking mode that are tested by themselves. Each test names its bit, so a line each.
ghost use Rattle.std.specs.Prelude.{◌≡◌};
ghost use Rattle.base_shared.specs.Bits.{bit};

use base_shared::bit;

// Bit 7 puts PRG RAM at $6000.
pub fn prg_ram_enabled(mode: u8) -> bool
    ensures { result ≡ bit 7 mode }
{
    bit(mode, 7)
}

// Bit 5 forces bank pairs to be aligned.
pub(crate) fn pairs_aligned(mode: u8) -> bool
    ensures { result ≡ bit 5 mode }
{
    bit(mode, 5)
}

// Bit 4 takes the nametables from CHR.
pub fn chr_rom_nametables(mode: u8) -> bool
    ensures { result ≡ bit 4 mode }
{
    bit(mode, 4)
}
