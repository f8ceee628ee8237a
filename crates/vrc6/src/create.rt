// Create: the one call that makes a board.
ghost use Rattle.std.specs.Prelude.{◌≡◌};
ghost use Rattle.base_shared.specs.Numbers.{number};
ghost use Rattle.vrc6.specs.Boards.{new_board, zero_board};
ghost use Rattle.vrc6.specs.Calls.{create};

use crate::board::{Board, Changed};
use audio::Audio;
use base_shared::Refusal;
use irq::VrcIrq;
use memory_layout::{LimitedLayout, MemoryLayout};
use memory_pages::Page;
use vrc6_banking::banking::{Banking, Settings};
use vrc6_parts::create::check_creation;
use vrc6_tables::{chr_pages, prg_pages};

impl Board {
    // Nothing set: what a refused create returns.
    fn zero() -> Board
        ensures { result ≡ zero_board }
    {
        Board {
            layout: MemoryLayout::default(),
            prg_pages: [Page::UNMAPPED; 64],
            chr_pages: [Page::UNMAPPED; 16],
            banking: Banking::zero(),
            irq: VrcIrq::new(),
            audio: Audio::zero(),
            open_bus: false,
        }
    }

    // A new board: registers and interrupt 0, sound as new, the nametables of the mirroring and the bus setting given.
    fn new(limited: LimitedLayout, settings: Settings) -> Board
        ensures { result ≡ new_board limited.layout settings }
    {
        let banking = Banking::new(settings);
        Board {
            layout: limited.layout,
            prg_pages: prg_pages(limited, banking),
            chr_pages: chr_pages(limited, banking),
            banking,
            irq: VrcIrq::new(),
            audio: Audio::new(),
            open_bus: settings.open_bus,
        }
    }

    // A create that is refused, whoever refuses it.
    pub fn refused(refusal: Refusal) -> Changed
        ensures { result ≡ record { board = zero_board; refusal = number refusal } }
    {
        Board::zero().changed(Err(refusal))
    }

    pub fn create(
        layout: MemoryLayout,
        settings: Settings,
        fixed: &[u8],
        changing: &[u8],
    ) -> Changed
        ensures { result ≡ create (record { layout = layout; settings = settings; fixed = fixed.now; changing = changing.now }) }
    {
        match check_creation(layout, fixed, changing) {
            Ok(limited) => Board::new(limited, settings).changed(Ok(())),
            Err(refusal) => Board::refused(refusal),
        }
    }
}
