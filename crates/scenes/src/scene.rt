// A scene, as the cells of its row say it, and its steps on a board of its own. A board that was created refuses no call: `Demand3`
// in crate vrc6_ledger.
use crate::letters::Banks;
use host_creation::NumberedSettings;
use memory_layout::{LimitedLayout, MemoryLayout};
use scene_board::{Ended, Scene as BoardScene};
use scene_steps::Step;
use scene_steps::picture::At;
use std::fmt;
use vrc6_banking::banking::{Mirroring, Revision};

// The most steps that a cell may have.
pub const MOST_STEPS: usize = 4096;

// So many steps at most, which lie in the value: a Vec would take memory, and a row could fail for want of it.
#[derive(Drop)]
pub struct Steps {
    kept: [Step; MOST_STEPS],
    len: usize,
}

impl Steps {
    pub(crate) fn new() -> Steps {
        Steps {
            kept: [Step::Reset; MOST_STEPS],
            len: 0,
        }
    }

    pub(crate) fn clear(&mut self) {
        self.len = 0;
    }

    // None where there is no room.
    pub(crate) fn push(&mut self, step: Step) -> Option<()> {
        *self.kept.get_mut(self.len)? = step;
        self.len = self.len.saturating_add(1);
        Some(())
    }

    pub(crate) fn as_slice(&self) -> &[Step] {
        self.kept.get(..self.len).unwrap_or(&[])
    }
}

// The steps of a row. They lie outside its scene, which is handed about, and each row uses them anew.
#[derive(Drop)]
pub struct RowSteps {
    pub writes: Steps,
    pub menu: Steps,
}

impl RowSteps {
    pub(crate) fn new() -> RowSteps {
        RowSteps {
            writes: Steps::new(),
            menu: Steps::new(),
        }
    }
}

// The longest fixed buffer that a layout can ask.
pub const MOST_ROM: usize = 525312;

// The longest changing buffer of a row: PRG RAM, CHR that is RAM, and CIRAM of four screens.
const MOST_RAM: usize = 20480;

// No board takes these lengths.
#[derive(Clone, Copy)]
pub struct NoBoard;

impl fmt::Display for NoBoard {
    fn fmt<W: fmt::Write>(&self, f: &mut fmt::Formatter<W>) -> fmt::Result {
        f.write_str("no board takes these lengths")
    }
}

// As much of a buffer as a layout asks for the changing one. No row asks for more.
fn first_of(ram: &mut [u8], limited: LimitedLayout) -> Result<&mut [u8], NoBoard> {
    ram.get_mut(..limited.changing_length() as usize)
        .ok_or(NoBoard)
}

#[derive(Clone, Copy)]
pub struct Scene<'a> {
    // No step reads a byte of ROM, so a board's fixed buffer is of zeros, whatever a file holds.
    pub rom: &'a [u8; MOST_ROM],
    pub layout: MemoryLayout,
    pub mirroring: Mirroring,
    pub revision: Revision,
    // The line on which the interrupt must come, if one is given.
    pub window: Option<u32>,
    pub at: Option<At>,
    // Whether the menu's handler leaves interrupts open.
    pub unmasked: bool,
    pub writes: &'a [Step],
    pub menu: &'a [Step],
    pub asked: Banks,
}

impl Scene<'_> {
    pub(crate) fn revision_b(&self) -> bool {
        self.revision == Revision::B
    }

    pub(crate) fn other_revision(&self) -> Revision {
        match self.revision {
            Revision::A => Revision::B,
            Revision::B => Revision::A,
        }
    }

    fn limited(&self) -> Result<LimitedLayout, NoBoard> {
        self.layout.limited().ok_or(NoBoard)
    }

    // These steps, with a board of the row's layout and mirroring, and of a revision.
    fn on_board<'a>(
        &'a self,
        revision: Revision,
        limited: LimitedLayout,
        writes: &'a [Step],
        menu: &'a [Step],
    ) -> BoardScene<'a> {
        BoardScene {
            layout: self.layout,
            settings: NumberedSettings::new(u8::from(self.mirroring), u8::from(revision)),
            fixed: &self.rom[..limited.fixed_length() as usize],
            writes,
            menu,
        }
    }

    fn play_by(
        &self,
        revision: Revision,
        writes: &[Step],
        menu: &[Step],
    ) -> Result<Ended, NoBoard> {
        let limited = self.limited()?;
        let mut ram = [0; MOST_RAM];
        let changing = first_of(&mut ram, limited)?;
        self.on_board(revision, limited, writes, menu)
            .play(changing)
            .map_err(|_| NoBoard)
    }

    // Plays writes and a menu.
    pub(crate) fn play(&self, writes: &[Step], menu: &[Step]) -> Result<Ended, NoBoard> {
        self.play_by(self.revision, writes, menu)
    }

    // Plays the writes of the row with the other revision.
    pub(crate) fn play_other(&self) -> Result<Ended, NoBoard> {
        self.play_by(self.other_revision(), self.writes, &[])
    }

    // Which steps of the menu begin with wrong letters.
    pub(crate) fn marks(&self) -> Result<[bool; MOST_STEPS], NoBoard> {
        let limited = self.limited()?;
        let mut ram = [0; MOST_RAM];
        let changing = first_of(&mut ram, limited)?;
        let mut marks = [false; MOST_STEPS];
        self.on_board(self.revision, limited, self.writes, self.menu)
            .mark_letters(changing, self.asked, &mut marks);
        Ok(marks)
    }
}
