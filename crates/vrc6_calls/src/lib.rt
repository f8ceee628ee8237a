// The calls of the board as values, and one function that plays them: what replaying a script, and every claim about lists
// of calls, goes by. Both buffers are parameters of their own: C lends them so, and a read borrows both while a write changes one.
#![tactic(auto)]

ghost use Rattle.std.specs.Prelude.{◌≡◌};
ghost use Rattle.vrc6.specs.Boards.{held_by};
ghost use Rattle.vrc6_calls.specs.Lists.{changing_after, step};
ghost use Rattle.vrc6_calls.specs.Stepping.{of_byte_read, of_changed, of_clocked, of_forecasted, of_leveled};

use audio::Level;
use base_shared::Refusal;
use vrc6::Board;
use vrc6::board::{ByteRead, Changed, Clocked, Forecasted, Leveled, ResetKind};

// A call with its arguments; a CPU read has the bus byte behind its address. Clock and CPU write stand twice, by value and for
// their lent forms, which promise the same.
#[derive(Clone, Copy, Debug, PartialEq, Eq)]
pub enum Call {
    CpuRead(u16, u8),
    CpuWrite(u16, u8),
    LentCpuWrite(u16, u8),
    PictureRead(u16),
    PictureWrite(u16, u8),
    Clock,
    LentClock,
    SoftReset,
    HardReset,
    ReadLevel,
    PageView(u16),
    ReadForecast,
}

// What a call says beside the board: a byte, a tick, a level or a forecast, and the refusal, as the board's answers have it. The bytes of a
// page view are lent back by the call itself.
#[derive(Clone, Copy)]
pub enum Answer {
    Byte(u8, u8),
    Done(u8),
    Tick(bool, u8),
    OfLevel(Level),
    OfForecast(Result<Option<u32>, Refusal>),
    View(u8),
}

// The board after a call, and what the call says.
#[derive(Clone, Copy)]
pub struct Stepped {
    pub board: Board,
    pub answer: Answer,
}

// One conversion for each of the answers: each makes another case of `Answer` of its own fields, so no code is common to them.
impl From<ByteRead> for Stepped {
    ghost from_gives = { λ read stepped. stepped ≡ of_byte_read read };

    fn from(read: ByteRead) -> Stepped {
        Stepped {
            board: read.board,
            answer: Answer::Byte(read.byte, read.refusal),
        }
    }
}

impl From<Changed> for Stepped {
    ghost from_gives = { λ changed stepped. stepped ≡ of_changed changed };

    fn from(changed: Changed) -> Stepped {
        Stepped {
            board: changed.board,
            answer: Answer::Done(changed.refusal),
        }
    }
}

impl From<Clocked> for Stepped {
    ghost from_gives = { λ clocked stepped. stepped ≡ of_clocked clocked };

    fn from(clocked: Clocked) -> Stepped {
        Stepped {
            board: clocked.board,
            answer: Answer::Tick(clocked.ticked, clocked.refusal),
        }
    }
}

impl From<Leveled> for Stepped {
    ghost from_gives = { λ leveled stepped. stepped ≡ of_leveled leveled };

    fn from(leveled: Leveled) -> Stepped {
        Stepped {
            board: leveled.board,
            answer: Answer::OfLevel(leveled.level),
        }
    }
}

impl From<Forecasted> for Stepped {
    ghost from_gives = { λ forecasted stepped. stepped ≡ of_forecasted forecasted };

    fn from(forecasted: Forecasted) -> Stepped {
        Stepped {
            board: forecasted.board,
            answer: Answer::OfForecast(forecasted.forecast),
        }
    }
}

// Exactly what the call gives; the lent forms are played by value. Of a page view this is its number; the bytes are lent back by page_view.
pub fn step(board: Board, fixed: &[u8], changing: &mut [u8], call: Call) -> Stepped
    ensures value { result ≡ step (held_by board fixed.now changing.old) call }
    ensures changing_after { changing.new ≡ changing_after (held_by board fixed.now changing.old) call }
{
    match call {
        Call::CpuRead(addr, bus) => Stepped::from(board.cpu_read(fixed, &*changing, addr, bus)),
        Call::CpuWrite(addr, val) | Call::LentCpuWrite(addr, val) => {
            Stepped::from(board.cpu_write(fixed, &mut *changing, addr, val))
        }
        Call::PictureRead(addr) => Stepped::from(board.picture_read(fixed, &*changing, addr)),
        Call::PictureWrite(addr, val) => {
            Stepped::from(board.picture_write(fixed, &mut *changing, addr, val))
        }
        Call::Clock | Call::LentClock => Stepped::from(board.clock()),
        Call::SoftReset => Stepped::from(board.reset(ResetKind::Soft)),
        Call::HardReset => Stepped::from(board.reset(ResetKind::Hard)),
        Call::ReadLevel => Stepped::from(board.level()),
        Call::PageView(addr) => Stepped {
            board,
            answer: Answer::View(board.page_view_refusal(fixed, &*changing, addr)),
        },
        Call::ReadForecast => Stepped::from(board.forecast()),
    }
}
