// The board, and the answers of its calls.
ghost use Rattle.std.specs.Prelude.{◌≡◌};
ghost use Rattle.base_shared.specs.Numbers.{answer_number};

use audio::{Audio, Level};
use base_shared::{Refusal, answer_number};
use irq::VrcIrq;
use memory_layout::MemoryLayout;
use memory_pages::Page;
use vrc6_banking::banking::Banking;

#[repr(C)]
#[derive(Clone, Copy)]
pub struct Board {
    pub layout: MemoryLayout,
    pub prg_pages: [Page; 64],
    pub chr_pages: [Page; 16],
    pub banking: Banking,
    pub irq: VrcIrq,
    pub audio: Audio,
    // What creation chose: a CPU read where nothing is there hands back the bus byte.
    pub open_bus: bool,
}

// Both act alike.
#[derive(Clone, Copy)]
pub enum ResetKind {
    Soft,
    Hard,
}

// The answers. Each hands the next board back and gives the refusal as a number, 0 for none, as document 01 has it; a level and a
// forecast hold the refusal themselves.
#[derive(Clone, Copy)]
pub struct ByteRead {
    pub board: Board,
    pub byte: u8,
    pub refusal: u8,
}

// Of create, the writes and reset.
#[derive(Clone, Copy)]
pub struct Changed {
    pub board: Board,
    pub refusal: u8,
}

#[derive(Clone, Copy)]
pub struct Clocked {
    pub board: Board,
    pub ticked: bool,
    pub refusal: u8,
}

#[derive(Clone, Copy)]
pub struct Leveled {
    pub board: Board,
    pub level: Level,
}

#[derive(Clone, Copy)]
pub struct Forecasted {
    pub board: Board,
    pub forecast: Result<Option<u32>, Refusal>,
}

impl Board {
    // The answer of a call that made or changed this board.
    pub(crate) fn changed(self, answer: Result<(), Refusal>) -> Changed
        ensures { result ≡ record { board = self; refusal = answer_number answer } }
    {
        Changed {
            board: self,
            refusal: answer_number(answer),
        }
    }
}
