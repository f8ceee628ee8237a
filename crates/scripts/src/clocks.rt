// Many clocks at once.
use base_floats::pattern::bits_of;
use base_shared::Refusal;
use script_bytes::fnv::{FNV_START, fnv_word};
use script_state::told::Clocks;
use vrc6::Board;

// Clock number k, from 1, with what it left.
fn count(clocks: &mut Clocks, k: u32, ticked: bool, board: &Board) {
    let audio = board.audio;
    if ticked {
        clocks.ticks = clocks.ticks.wrapping_add(1);
        clocks.first = clocks.first.or(Some(k));
        clocks.last = Some(k);
    }
    clocks.pending = board.irq.irq_pending;
    if clocks.pending {
        clocks.interrupt = clocks.interrupt.or(Some(k));
    }
    if audio.out > 0.0 {
        clocks.sounding = clocks.sounding.wrapping_add(1);
    }
    clocks.hash = fnv_word(clocks.hash, bits_of(audio.output()));
}

// What n clocks of a board tell. Where one clock is refused all are: it leaves the board.
pub fn clock_times(board: &mut Board, n: u32) -> Result<Clocks, Refusal> {
    let mut clocks = Clocks {
        ticks: 0,
        first: None,
        last: None,
        interrupt: None,
        pending: board.irq.irq_pending,
        sounding: 0,
        hash: FNV_START,
    };
    for k in 1..=n {
        let ticked = board.lent_clock()?;
        count(&mut clocks, k, ticked, board);
    }
    Ok(clocks)
}
