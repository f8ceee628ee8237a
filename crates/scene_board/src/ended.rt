// A scene's writes and menu, played on a board of its own: the interrupt counter, and the banks that the eight slots show.
ghost use Rattle.std.specs.Prelude.{◌≡◌};
ghost use Rattle.vrc6.specs.Boards.{held_by};
ghost use Rattle.host_creation.specs.Numbers.{created_by};
ghost use Rattle.scene_board.specs.Ended.{done_state, end_of, shown_on, slots_shown, whole_end, written_state};

use crate::play;
use host_creation::{NumberedSettings, create_numbered};
use irq::VrcIrq;
use memory_layout::MemoryLayout;
use memory_pages::Page;
use scene_banks::bank_shown;
use scene_steps::Step;
use vrc6::Board;
use vrc6::board::Changed;

// What a board is created of, and the steps that are played on it. Settings stay numbers, since their own type would ask more of
// a caller. The changing buffer is a parameter beside it, since a board writes there.
#[derive(Clone, Copy)]
pub struct Scene<'a> {
    pub layout: MemoryLayout,
    pub settings: NumberedSettings,
    pub fixed: &'a [u8],
    pub writes: &'a [Step],
    pub menu: &'a [Step],
}

// The counter, and the bank that each slot shows, if it shows one.
#[derive(Clone, Copy)]
pub struct Shown {
    pub irq: VrcIrq,
    pub banks: [Option<u32>; 8],
}

// What stands at the end of the writes, and behind the menu.
#[derive(Clone, Copy)]
pub struct Ended {
    pub written: Shown,
    pub done: Shown,
}

// The end of every scene: what stands there, and the number by which the board's creation was refused, or 0.
#[derive(Clone, Copy)]
pub struct SceneEnd {
    pub ended: Ended,
    pub refusal: u8,
}

// The banks that the first eight entries of the picture side show.
fn slots_shown(layout: MemoryLayout, pages: [Page; 16]) -> [Option<u32>; 8]
    ensures { result ≡ slots_shown layout pages }
{
    let [a, b, c, d, e, f, g, h, ..] = pages;
    [a, b, c, d, e, f, g, h].map(|page| bank_shown(layout, page))
}

impl Scene<'_> {
    pub(crate) fn shown_on(self, board: Board) -> Shown
        ensures { result ≡ shown_on self.entry.layout board }
    {
        Shown {
            irq: board.irq,
            banks: slots_shown(self.layout, board.chr_pages),
        }
    }

    // The board at the end of the writes, beside the number by which its creation was refused, or 0.
    pub(crate) fn write(self, changing: &mut [u8]) -> Changed
        ensures board { held_by result.board self.entry.fixed.now changing.new
            ≡ written_state self.entry.layout self.entry.settings self.entry.fixed.now changing.old self.entry.writes.now }
        ensures refusal { result.refusal ≡ (created_by self.entry.layout self.entry.settings self.entry.fixed.now changing.old).refusal }
    {
        let created = create_numbered(self.layout, self.settings, self.fixed, &*changing);
        Changed {
            board: play(created.board, self.fixed, changing, self.writes),
            refusal: created.refusal,
        }
    }

    // No clock changes what slots show, so the menu plays right behind the writes. A board that is refused is the all-zero one, which
    // refuses every call: what it shows is told beside the number.
    pub fn end(self, changing: &mut [u8]) -> SceneEnd
        ensures value { result
            ≡ whole_end self.entry.layout self.entry.settings self.entry.fixed.now changing.old self.entry.writes.now self.entry.menu.now }
        ensures changing_after { changing.new
            ≡ (done_state self.entry.layout self.entry.settings self.entry.fixed.now changing.old self.entry.writes.now self.entry.menu.now).changing }
    {
        let written = self.write(&mut *changing);
        let done = play(written.board, self.fixed, changing, self.menu);
        SceneEnd {
            ended: Ended {
                written: self.shown_on(written.board),
                done: self.shown_on(done),
            },
            refusal: written.refusal,
        }
    }

    // That end, or of a board that is refused the number alone, which says why, as the board's answers have it.
    pub fn play(self, changing: &mut [u8]) -> Result<Ended, u8>
        ensures value { result
            ≡ end_of self.entry.layout self.entry.settings self.entry.fixed.now changing.old self.entry.writes.now self.entry.menu.now }
        ensures changing_after { changing.new
            ≡ (done_state self.entry.layout self.entry.settings self.entry.fixed.now changing.old self.entry.writes.now self.entry.menu.now).changing }
    {
        let end = self.end(changing);
        if end.refusal != 0 {
            return Err(end.refusal);
        }
        Ok(end.ended)
    }
}
