// The four nametable numbers and the mirroring that follow from the mode and the CHR registers. Both are handed on side by side: they
// are two fields of `Banking`, by the names of the Rust's, and this crate stands below vrc6_banking.
ghost use Rattle.std.specs.Prelude.{◌≡◌, ◌+◌, ◌*◌, ◌/◌, ◌%◌};
ghost use Rattle.vrc6_slots.specs.Nametables.{chr_numbers, ciram_numbers, mirroring_numbers, mode_mirroring, nametable_mirroring, nametable_numbers, whole_registers};

use crate::Mirroring;
use crate::chr::{even_bank, odd_bank};
use crate::mode::chr_rom_nametables;

// The Rust's `set_mirroring`: the CIRAM pages that a mirroring gives the four nametables.
pub fn mirroring_numbers(mirroring: Mirroring) -> [u8; 4]
    ensures { result ≡ mirroring_numbers mirroring }
{
    match mirroring {
        Mirroring::Vertical => [0, 1, 0, 1],
        Mirroring::Horizontal => [0, 0, 1, 1],
        Mirroring::SingleScreenA => [0, 0, 0, 0],
        Mirroring::SingleScreenB => [1, 1, 1, 1],
        Mirroring::FourScreen => [0, 1, 2, 3],
    }
}

// The mirroring that a mode names; every other mode lets the registers choose, as FourScreen.
fn mode_mirroring(mode: u8) -> Mirroring
    ensures { result ≡ mode_mirroring mode }
{
    let style = mode / 32 % 2 * 32 + mode % 16;
    match style {
        0x20 | 0x27 => Mirroring::Vertical,
        0x23 | 0x24 => Mirroring::Horizontal,
        0x28 | 0x2F => Mirroring::SingleScreenA,
        0x2B | 0x2C => Mirroring::SingleScreenB,
        _ => Mirroring::FourScreen,
    }
}

// The registers that choose for the modes that name no mirroring.
fn whole_registers(mode: u8, chr: [u8; 8]) -> [u8; 4]
    ensures { result ≡ whole_registers mode chr }
{
    let [.., c4, c5, c6, c7] = chr;
    match mode % 8 {
        0 | 6 | 7 => [c6, c6, c7, c7],
        1 | 5 => [c4, c5, c6, c7],
        _ => [c6, c7, c6, c7],
    }
}

// From CHR: registers 6 and 7 as aligned pairs, so that the mirroring falls within a pair or across both.
fn chr_numbers(mirroring: Mirroring, mode: u8, chr: [u8; 8]) -> [u8; 4]
    ensures { result ≡ chr_numbers mirroring mode chr }
{
    let even6 = even_bank(chr[6]);
    let odd6 = odd_bank(chr[6]);
    let even7 = even_bank(chr[7]);
    let odd7 = odd_bank(chr[7]);
    match mirroring {
        Mirroring::Vertical => [even6, odd6, even7, odd7],
        Mirroring::Horizontal => [even6, even7, odd6, odd7],
        Mirroring::SingleScreenA => [even6, even6, even7, even7],
        Mirroring::SingleScreenB => [odd6, odd7, odd6, odd7],
        Mirroring::FourScreen => whole_registers(mode, chr),
    }
}

// From CIRAM: the mirroring's pages, or the lowest bit of each register that chooses.
fn ciram_numbers(mirroring: Mirroring, mode: u8, chr: [u8; 8]) -> [u8; 4]
    ensures { result ≡ ciram_numbers mirroring mode chr }
{
    match mirroring {
        Mirroring::FourScreen => whole_registers(mode, chr).map(|v| v % 2),
        _ => mirroring_numbers(mirroring),
    }
}

// From CHR every nametable is selected by itself.
#[tactic(auto, unfolding(crate::specs::Nametables::nametable_mirroring))]
pub fn nametable_mirroring(mode: u8) -> Mirroring
    ensures { result ≡ nametable_mirroring mode }
{
    if chr_rom_nametables(mode) {
        return Mirroring::FourScreen;
    }
    mode_mirroring(mode)
}

#[tactic(auto, unfolding(crate::specs::Nametables::nametable_numbers))]
pub fn nametable_numbers(mode: u8, chr: [u8; 8]) -> [u8; 4]
    ensures { result ≡ nametable_numbers mode chr }
{
    let mirroring = mode_mirroring(mode);
    if chr_rom_nametables(mode) {
        return chr_numbers(mirroring, mode, chr);
    }
    ciram_numbers(mirroring, mode, chr)
}
