// The calls for C. Each is the call of the same name with the board lent, and promises the same.
#![tactic(auto)]

ghost use Rattle.std.specs.Prelude.{◌≡◌, length};
ghost use Rattle.vrc6_parts.specs.Reads.{by_cpu, by_picture};
ghost use Rattle.vrc6.specs.Boards.{held_by};
ghost use Rattle.vrc6.specs.Calls.{byte_read, clock, cpu_write, cpu_write_left, forecast, level, picture_write, picture_write_left, reset};
ghost use Rattle.host_creation.specs.Numbers.{created_by};
ghost use Rattle.host_answers.specs.Encoded.{clock_number, forecast_encoded, level_encoded, page_at};
ghost use Rattle.host_calls.specs.Answers.{byte_answer, tick_answer};
ghost use Rattle.cartridge_header.specs.Ines.{read_header};
ghost use Rattle.host_cartridge.specs.Encoded.{header_encoded};
ghost use Rattle.host_cartridge.specs.Filled.{changing_filled, fill_refusal, fixed_filled};

use host_answers::{EncodedForecast, EncodedLevel, PageAt};
use host_calls::Tick;
use host_cartridge::EncodedCartridge;
use host_creation::NumberedSettings;
use memory_access::Peeked;
use memory_layout::MemoryLayout;
use vrc6::Board;

// Creation by numbers, since no enum crosses. A refused create leaves the zero board. The answer is the refusal's number.
#[unsafe(no_mangle)]
pub extern "C" fn vrc6_create(
    board: &mut Board,
    layout: MemoryLayout,
    settings: NumberedSettings,
    fixed: &[u8],
    changing: &[u8],
) -> u8
    ensures { (board.new ≡ (created_by layout settings fixed.now changing.now).board)
        × (result ≡ (created_by layout settings fixed.now changing.now).refusal) }
{
    host_calls::vrc6_create(board, layout, settings, fixed, changing)
}

// Soft and hard act alike, so there is one. The answer is the refusal's number.
#[unsafe(no_mangle)]
pub extern "C" fn vrc6_reset(board: &mut Board) -> u8
    ensures { (board.new ≡ (reset board.old).board) × (result ≡ (reset board.old).refusal) }
{
    host_calls::vrc6_reset(board)
}

#[unsafe(no_mangle)]
pub extern "C" fn vrc6_level(board: &mut Board) -> EncodedLevel
    ensures { (board.new ≡ board.old) × (result ≡ level_encoded (level board.old).level) }
{
    host_calls::vrc6_level(board)
}

#[unsafe(no_mangle)]
pub extern "C" fn vrc6_forecast(board: &mut Board) -> EncodedForecast
    ensures { (board.new ≡ board.old) × (result ≡ forecast_encoded (forecast board.old).forecast) }
{
    host_calls::vrc6_forecast(board)
}

// A byte, and no register. The answer is the refusal's number.
#[unsafe(no_mangle)]
pub extern "C" fn vrc6_picture_write(
    board: &mut Board,
    fixed: &[u8],
    changing: &mut [u8],
    addr: u16,
    val: u8,
) -> u8
    ensures { (board.new ≡ board.old)
        × (changing.new ≡ (picture_write_left (held_by board.old fixed.now changing.old) addr val).changing)
        × (result ≡ (picture_write (held_by board.old fixed.now changing.old) addr val).refusal) }
{
    host_calls::vrc6_picture_write(board, fixed, changing, addr, val)
}

// Where the page of a picture address lies, for a host that keeps both buffers.
#[unsafe(no_mangle)]
pub extern "C" fn vrc6_page_view(
    board: &mut Board,
    fixed: &[u8],
    changing: &[u8],
    addr: u16,
) -> PageAt
    ensures { (board.new ≡ board.old)
        × (result ≡ page_at (held_by board.old fixed.now changing.now) addr) }
{
    host_calls::vrc6_page_view(board, fixed, changing, addr)
}

// bus is the byte that the bus last held: with the setting on, a read where nothing is there hands it back.
#[unsafe(no_mangle)]
pub extern "C" fn vrc6_cpu_read(
    board: &mut Board,
    fixed: &[u8],
    changing: &[u8],
    addr: u16,
    bus: u8,
) -> Peeked
    ensures { (board.new ≡ board.old)
        × (result ≡ byte_answer (byte_read (by_cpu bus) (held_by board.old fixed.now changing.now) addr)) }
{
    host_calls::vrc6_cpu_read(board, fixed, changing, addr, bus)
}

#[unsafe(no_mangle)]
pub extern "C" fn vrc6_picture_read(
    board: &mut Board,
    fixed: &[u8],
    changing: &[u8],
    addr: u16,
) -> Peeked
    ensures { (board.new ≡ board.old)
        × (result ≡ byte_answer (byte_read by_picture (held_by board.old fixed.now changing.now) addr)) }
{
    host_calls::vrc6_picture_read(board, fixed, changing, addr)
}

// The byte, then the register. The answer is the refusal's number.
#[unsafe(no_mangle)]
pub extern "C" fn vrc6_cpu_write(
    board: &mut Board,
    fixed: &[u8],
    changing: &mut [u8],
    addr: u16,
    val: u8,
) -> u8
    ensures { (board.new ≡ (cpu_write (held_by board.old fixed.now changing.old) addr val).board)
        × (changing.new ≡ (cpu_write_left (held_by board.old fixed.now changing.old) addr val).changing)
        × (result ≡ (cpu_write (held_by board.old fixed.now changing.old) addr val).refusal) }
{
    host_calls::vrc6_cpu_write(board, fixed, changing, addr, val)
}

// Any clock but that of a steady sound is out of line, so that this one has few registers to save.
#[unsafe(no_mangle)]
pub extern "C" fn vrc6_clock(board: &mut Board) -> Tick
    ensures { (board.new ≡ (clock board.old).board) × (result ≡ tick_answer (clock board.old)) }
{
    host_calls::vrc6_clock(board)
}

// The same clock without the quick way, answering by one number: 1 for a tick, 6 for a refusal by 3, otherwise 0.
#[unsafe(no_mangle)]
pub extern "C" fn vrc6_clock_number(board: &mut Board) -> u8
    ensures { (board.new ≡ (clock board.old).board) × (result ≡ clock_number board.old) }
{
    host_calls::vrc6_clock_number(board)
}

#[unsafe(no_mangle)]
pub extern "C" fn vrc6_read_header(file: &[u8]) -> EncodedCartridge
    ensures { result ≡ header_encoded (read_header file.now) }
{
    host_calls::files::vrc6_read_header(file)
}

// The answer is the refusal's number. Refused, both buffers stay as they were.
#[unsafe(no_mangle)]
pub extern "C" fn vrc6_fill(file: &[u8], fixed: &mut [u8], changing: &mut [u8]) -> u8
    ensures value { result ≡ fill_refusal file.now (length fixed.old) (length changing.old) }
    ensures fixed_after { fixed.new ≡ fixed_filled file.now fixed.old changing.old }
    ensures changing_after { changing.new ≡ changing_filled file.now fixed.old changing.old }
{
    host_calls::files::vrc6_fill(file, fixed, changing)
}
