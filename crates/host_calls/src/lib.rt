// The board's calls for a host that keeps one board: it lends the board, and finds it advanced.
//
// Every call is total and refuses by number. Refused, it leaves board and buffers as they were; only create leaves the
// zero board. Board and buffers cross as references, each buffer as a parameter of its own, an answer as a number or a small struct.
#![tactic(auto)]

pub mod files;

ghost use Rattle.std.specs.Prelude.{◌≡◌};
ghost use Rattle.vrc6_parts.specs.Reads.{by_cpu, by_picture};
ghost use Rattle.vrc6.specs.Boards.{held_by};
ghost use Rattle.vrc6.specs.Calls.{byte_read, clock, cpu_write, cpu_write_left, forecast, level, picture_write, picture_write_left, reset};
ghost use Rattle.host_creation.specs.Numbers.{created_by};
ghost use Rattle.host_answers.specs.Encoded.{clock_number, forecast_encoded, level_encoded, page_at, steady_clocked};
ghost use Rattle.host_calls.specs.Answers.{byte_answer, tick_answer, tick_decoded};

use base_shared::{Refusal, answer_number};
use host_answers::{EncodedForecast, EncodedLevel, PageAt, page_at};
use host_creation::{NumberedSettings, create_numbered};
use memory_access::Peeked;
use memory_layout::MemoryLayout;
use vrc6::Board;
use vrc6_engine::steady::Timers;

// Creation by numbers, since no enum crosses. A refused create leaves the zero board. The answer is the refusal's number.
pub fn vrc6_create(
    board: &mut Board,
    layout: MemoryLayout,
    settings: NumberedSettings,
    fixed: &[u8],
    changing: &[u8],
) -> u8
    ensures { (board.new ≡ (created_by layout settings fixed.now changing.now).board)
        × (result ≡ (created_by layout settings fixed.now changing.now).refusal) }
{
    let made = create_numbered(layout, settings, fixed, changing);
    *board = made.board;
    made.refusal
}

// Soft and hard act alike, so there is one. The answer is the refusal's number.
pub fn vrc6_reset(board: &mut Board) -> u8
    ensures { (board.new ≡ (reset board.old).board) × (result ≡ (reset board.old).refusal) }
{
    answer_number(board.lent_reset())
}

pub fn vrc6_level(board: &mut Board) -> EncodedLevel
    ensures { (board.new ≡ board.old) × (result ≡ level_encoded (level board.old).level) }
{
    EncodedLevel::from(board.engine().level())
}

pub fn vrc6_forecast(board: &mut Board) -> EncodedForecast
    ensures { (board.new ≡ board.old) × (result ≡ forecast_encoded (forecast board.old).forecast) }
{
    // Refused first, so that each test of a value ends the call where it fails.
    let engine = board.engine();
    if !engine.in_range() {
        return EncodedForecast::from(Err(Refusal::Range));
    }
    EncodedForecast::from(engine.forecast())
}

// A byte, and no register. The answer is the refusal's number.
pub fn vrc6_picture_write(
    board: &mut Board,
    fixed: &[u8],
    changing: &mut [u8],
    addr: u16,
    val: u8,
) -> u8
    ensures { (board.new ≡ board.old)
        × (changing.new ≡ (picture_write_left (held_by board.old fixed.now changing.old) addr val).changing)
        × (result ≡ (picture_write (held_by board.old fixed.now changing.old) addr val).refusal) }
{
    answer_number(board.lent_picture_write(fixed, changing, addr, val))
}

// Where the page of a picture address lies, for a host that keeps both buffers.
pub fn vrc6_page_view(board: &mut Board, fixed: &[u8], changing: &[u8], addr: u16) -> PageAt
    ensures { (board.new ≡ board.old)
        × (result ≡ page_at (held_by board.old fixed.now changing.now) addr) }
{
    page_at(board, fixed, changing, addr)
}

// bus is the byte that the bus last held: with the setting on, a read where nothing is there hands it back.
pub fn vrc6_cpu_read(board: &mut Board, fixed: &[u8], changing: &[u8], addr: u16, bus: u8) -> Peeked
    ensures { (board.new ≡ board.old)
        × (result ≡ byte_answer (byte_read (by_cpu bus) (held_by board.old fixed.now changing.now) addr)) }
{
    Peeked::from(board.lent_cpu_read(fixed, changing, addr, bus))
}

pub fn vrc6_picture_read(board: &mut Board, fixed: &[u8], changing: &[u8], addr: u16) -> Peeked
    ensures { (board.new ≡ board.old)
        × (result ≡ byte_answer (byte_read by_picture (held_by board.old fixed.now changing.now) addr)) }
{
    Peeked::from(board.lent_picture_read(fixed, changing, addr))
}

// The byte, then the register. The answer is the refusal's number.
pub fn vrc6_cpu_write(
    board: &mut Board,
    fixed: &[u8],
    changing: &mut [u8],
    addr: u16,
    val: u8,
) -> u8
    ensures { (board.new ≡ (cpu_write (held_by board.old fixed.now changing.old) addr val).board)
        × (changing.new ≡ (cpu_write_left (held_by board.old fixed.now changing.old) addr val).changing)
        × (result ≡ (cpu_write (held_by board.old fixed.now changing.old) addr val).refusal) }
{
    answer_number(board.lent_cpu_write(fixed, changing, addr, val))
}

// Whether a clock ticked, and the refusal's number.
#[repr(C)]
#[derive(Clone, Copy, Debug, PartialEq, Eq)]
pub struct Tick {
    pub ticked: bool,
    pub refusal: u8,
}

// The answer that a number of `vrc6_clock_number` encodes.
fn decoded(number: u8) -> Tick
    ensures { result ≡ tick_decoded number }
{
    Tick {
        ticked: number == 1,
        refusal: number / 2,
    }
}

// A clock of a steady sound: of the sound only the timers are stored anew.
fn clock_steady(board: &mut Board, timers: Timers) -> Tick
    ensures { (board.new ≡ (steady_clocked board.old timers).board) × (result ≡ tick_answer (steady_clocked board.old timers)) }
{
    let next = board.irq.clock();
    board.irq = next.irq;
    board.audio.pulse1.timer = timers.pulse1;
    board.audio.pulse2.timer = timers.pulse2;
    board.audio.saw.timer = timers.saw;
    Tick {
        ticked: next.ticked,
        refusal: 0,
    }
}

// Any clock but that of a steady sound is out of line, so that this one has few registers to save.
pub fn vrc6_clock(board: &mut Board) -> Tick
    ensures { (board.new ≡ (clock board.old).board) × (result ≡ tick_answer (clock board.old)) }
{
    match board.engine().steady() {
        Some(timers) => clock_steady(board, timers),
        None => decoded(vrc6_clock_number(board)),
    }
}

// The same clock without the quick way, answering by one number, which comes back in a register, where a struct goes through memory: 1 for a
// tick, 6 for a refusal, which is by 3, otherwise 0.
pub fn vrc6_clock_number(board: &mut Board) -> u8
    ensures { (board.new ≡ (clock board.old).board) × (result ≡ clock_number board.old) }
{
    match board.lent_clock() {
        Ok(true) => 1,
        Ok(false) => 0,
        Err(_) => 6,
    }
}
