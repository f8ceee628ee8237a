// The page entries of a layout and its banking values (tetanes-core's m024_m026_vrc6.rs, `update_banks`):
//
//     CPU      $0000..$5FFF  nothing
//              $6000..$7FFF  8 KiB of PRG RAM if bit 7 of the mode enables it, else nothing
//              $8000..$BFFF  16 KiB of PRG ROM, the first bank number
//              $C000..$DFFF  8 KiB of PRG ROM, the second
//              $E000..$FFFF  8 KiB of PRG ROM, the last bank
//     picture  $0000..$1FFF  eight slots of 1 KiB of CHR
//              $2000..$2FFF  four nametables of 1 KiB of CIRAM, or of CHR if bit 4 of the mode is set
//              $3000..$3FFF  the same four again
#![tactic(auto)]

ghost use Rattle.std.specs.Prelude.{◌≡◌, ◌++◌, map};
ghost use Rattle.memory_layout.specs.Layout.{region};
ghost use Rattle.memory_rule.specs.Required.{ring_of, ring_page};
ghost use Rattle.memory_rule.specs.Rings.{ring};
ghost use Rattle.vrc6_slots.specs.Chr.{chr_slots};
ghost use Rattle.vrc6_tables.specs.Tables.{cpu_entries, nametable_source, picture_entries};

use memory_layout::{LimitedLayout, Src};
use memory_pages::Page;
use memory_rule::map_window;
use memory_rule::rings::PageRing;
use vrc6_banking::banking::Banking;
use vrc6_slots::mode::{chr_rom_nametables, prg_ram_enabled};

// The CPU's entries.
pub fn prg_pages(layout: LimitedLayout, banking: Banking) -> [Page; 64]
    ensures { result ≡ cpu_entries layout.layout banking }
{
    let rom = layout.region(Src::PrgRom);
    let [first, second] = banking.prg_banks;
    let mut pages = [Page::UNMAPPED; 64];
    if prg_ram_enabled(banking.banking_mode) {
        map_window(&mut pages[24..32], layout.region(Src::PrgRam), 0);
    }
    map_window(&mut pages[32..48], rom, i32::from(first));
    map_window(&mut pages[48..56], rom, i32::from(second));
    map_window(&mut pages[56..64], rom, -1);
    pages
}

// Windows of one page.
fn bank_pages<const N: usize>(source: PageRing, banks: [u8; N]) -> [Page; N]
    ensures { result ≡ map (ring_page (ring source)) banks.entry }
{
    banks.map(|bank| source.page(u32::from(bank)))
}

// The slots' entries.
#[tactic(auto, unfolding(vrc6_slots::specs::Chr::chr_slots))]
fn slot_pages(chr: PageRing, banking: Banking) -> [Page; 8]
    ensures { result ≡ map (ring_page (ring chr)) (chr_slots banking.banking_mode banking.chr) }
{
    // A mode whose low two bits are 0 shows each register in a slot of its own, and then no banks have to be put together.
    if banking.banking_mode % 4 == 0 {
        return bank_pages(chr, banking.chr);
    }
    bank_pages(chr, banking.chr_banks())
}

// The ring of the region that the nametables select from.
fn nametable_ring(layout: LimitedLayout, mode: u8) -> PageRing
    ensures { ring result ≡ ring_of (region layout.layout (nametable_source mode)) }
{
    if chr_rom_nametables(mode) {
        return PageRing::of(layout.region(Src::Chr));
    }
    PageRing::of(layout.region(Src::CiRam))
}

// Each nametable entry is stored twice, at $2000 and at $3000.
fn picture_table(slots: [Page; 8], names: [Page; 4]) -> [Page; 16]
    ensures { result ≡ slots ++ names ++ names }
{
    let mut pages = [Page::UNMAPPED; 16];
    pages[..8].copy_from_slice(&slots);
    pages[8..12].copy_from_slice(&names);
    pages[12..16].copy_from_slice(&names);
    pages
}

// The picture side's entries. Nametables are page entries like any other.
pub fn chr_pages(layout: LimitedLayout, banking: Banking) -> [Page; 16]
    ensures { result ≡ picture_entries layout.layout banking }
{
    let chr = PageRing::of(layout.region(Src::Chr));
    let source = nametable_ring(layout, banking.banking_mode);
    picture_table(
        slot_pages(chr, banking),
        bank_pages(source, banking.nt_banks),
    )
}
