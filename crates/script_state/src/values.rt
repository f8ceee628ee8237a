// The values of a board by their names, as numbers. Registers are counted from the first again behind the last.
ghost use Rattle.std.specs.Prelude.{◌≡◌};
ghost use Rattle.script_state.specs.Values.{board_value, board_with, channel_value, channel_with, layout_value, layout_with};

use crate::channels::Channel;
use audio::Audio;
use base_floats::pattern::{bits_of, float_of};
use memory_layout::MemoryLayout;
use memory_pages::Page;
use script_lines::values::{BoardValue, ChannelField, ChannelName, LayoutField, byte, half};
use vrc6::Board;

#[tactic(auto, using(base_shared::proofs::Tests::byte_flag))]
fn layout_value(layout: MemoryLayout, field: LayoutField) -> u32
    ensures { result ≡ layout_value layout field }
{
    match field {
        LayoutField::PrgRom => layout.prg_rom,
        LayoutField::Chr => layout.chr,
        LayoutField::ChrWritable => u32::from(layout.chr_writable),
        LayoutField::PrgRam => layout.prg_ram,
        LayoutField::Ciram => layout.ciram,
    }
}

fn set_layout(layout: &mut MemoryLayout, field: LayoutField, n: u32)
    ensures { layout.new ≡ layout_with layout.old field n }
{
    match field {
        LayoutField::PrgRom => layout.prg_rom = n,
        LayoutField::Chr => layout.chr = n,
        LayoutField::ChrWritable => layout.chr_writable = n != 0,
        LayoutField::PrgRam => layout.prg_ram = n,
        LayoutField::Ciram => layout.ciram = n,
    }
}

fn channel_value(audio: &Audio, channel: ChannelName, field: ChannelField) -> u32
    ensures { result ≡ channel_value audio.now channel field }
{
    match channel {
        ChannelName::Pulse1 => audio.pulse1.value(field),
        ChannelName::Pulse2 => audio.pulse2.value(field),
        ChannelName::Saw => audio.saw.value(field),
    }
}

fn set_channel(audio: &mut Audio, channel: ChannelName, field: ChannelField, n: u32)
    ensures { audio.new ≡ channel_with audio.old channel field n }
{
    match channel {
        ChannelName::Pulse1 => audio.pulse1.set(field, n),
        ChannelName::Pulse2 => audio.pulse2.set(field, n),
        ChannelName::Saw => audio.saw.set(field, n),
    }
}

#[tactic(auto, unfolding(crate::specs::Values::board_value), using(base_shared::proofs::Tests::byte_flag))]
pub fn value(board: &Board, name: BoardValue) -> u32
    ensures { result ≡ board_value board.now name }
{
    match name {
        BoardValue::Entry(addr) => u32::from(board.prg_pages[(addr / 1024 % 64) as usize]),
        BoardValue::PictureEntry(addr) => u32::from(board.chr_pages[(addr / 1024 % 16) as usize]),
        BoardValue::Chr(i) => u32::from(board.banking.chr[(i % 8) as usize]),
        BoardValue::Nametable(i) => u32::from(board.banking.nt_banks[(i % 4) as usize]),
        BoardValue::Layout(field) => layout_value(board.layout, field),
        BoardValue::Channel(channel, field) => channel_value(&board.audio, channel, field),
        BoardValue::Mode => u32::from(board.banking.banking_mode),
        BoardValue::Prg16 => u32::from(board.banking.prg_banks[0]),
        BoardValue::Prg8 => u32::from(board.banking.prg_banks[1]),
        BoardValue::Mirroring => u32::from(board.banking.mirroring),
        BoardValue::Revision => u32::from(board.banking.revision_b),
        BoardValue::Reload => u32::from(board.irq.reload),
        BoardValue::Counter => u32::from(board.irq.counter),
        BoardValue::Prescaler => u32::from(board.irq.prescalar_counter),
        BoardValue::Pending => u32::from(board.irq.irq_pending),
        BoardValue::Enabled => u32::from(board.irq.enabled),
        BoardValue::AfterAcknowledge => u32::from(board.irq.enabled_after_ack),
        BoardValue::Cycle => u32::from(board.irq.cycle_mode),
        BoardValue::Halt => u32::from(board.audio.halt),
        BoardValue::Sum => bits_of(board.audio.out),
        BoardValue::OpenBus => u32::from(board.open_bus),
    }
}

// A number that is too large for its field is taken by its low bits, and a flag is set by any but 0.
#[tactic(auto, unfolding(crate::specs::Values::board_with))]
pub fn set(board: &mut Board, name: BoardValue, n: u32)
    ensures { board.new ≡ board_with board.old name n }
{
    match name {
        BoardValue::Entry(addr) => {
            board.prg_pages[(addr / 1024 % 64) as usize] = Page::from(n);
        }
        BoardValue::PictureEntry(addr) => {
            board.chr_pages[(addr / 1024 % 16) as usize] = Page::from(n);
        }
        BoardValue::Chr(i) => board.banking.chr[(i % 8) as usize] = byte(n),
        BoardValue::Nametable(i) => board.banking.nt_banks[(i % 4) as usize] = byte(n),
        BoardValue::Layout(field) => set_layout(&mut board.layout, field, n),
        BoardValue::Channel(channel, field) => set_channel(&mut board.audio, channel, field, n),
        BoardValue::Mode => board.banking.banking_mode = byte(n),
        BoardValue::Prg16 => board.banking.prg_banks[0] = byte(n),
        BoardValue::Prg8 => board.banking.prg_banks[1] = byte(n),
        BoardValue::Mirroring => board.banking.mirroring = byte(n),
        BoardValue::Revision => board.banking.revision_b = n != 0,
        BoardValue::Reload => board.irq.reload = byte(n),
        BoardValue::Counter => board.irq.counter = byte(n),
        BoardValue::Prescaler => board.irq.prescalar_counter = half(n),
        BoardValue::Pending => board.irq.irq_pending = n != 0,
        BoardValue::Enabled => board.irq.enabled = n != 0,
        BoardValue::AfterAcknowledge => board.irq.enabled_after_ack = n != 0,
        BoardValue::Cycle => board.irq.cycle_mode = n != 0,
        BoardValue::Halt => board.audio.halt = n != 0,
        BoardValue::Sum => board.audio.out = float_of(n),
        BoardValue::OpenBus => board.open_bus = n != 0,
    }
}

// A sum is compared by its bits, which a derived `==` would not do.
fn same_audio(one: &Audio, other: &Audio) -> bool {
    (one.pulse1 == other.pulse1)
        & (one.pulse2 == other.pulse2)
        & (one.saw == other.saw)
        & (one.halt == other.halt)
        & (bits_of(one.out) == bits_of(other.out))
}

// Whether two boards have the same values.
pub fn same(one: &Board, other: &Board) -> bool {
    (one.layout == other.layout)
        & (one.prg_pages == other.prg_pages)
        & (one.chr_pages == other.chr_pages)
        & (one.banking == other.banking)
        & (one.irq == other.irq)
        & same_audio(&one.audio, &other.audio)
        & (one.open_bus == other.open_bus)
}
