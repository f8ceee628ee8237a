// The letters inside a menu: which of its steps begin while a slot shows another bank than the one asked.
ghost use Rattle.std.specs.Prelude.{◌≡◌};
ghost use Rattle.scene_board.specs.Ended.{written_state};
ghost use Rattle.scene_board.specs.Inside.{MarkedSteps, wrong_letters};

use crate::ended::Scene;
use crate::play_step;
use scene_steps::letters::slots_right;
use vrc6::Board;

impl Scene<'_> {
    // Whether a slot shows another bank than the one asked.
    fn wrong_letters(self, board: Board, asked: [Option<u32>; 8]) -> bool
        ensures { result ≡ wrong_letters self.entry.layout board.chr_pages asked }
    {
        !slots_right(self.shown_on(board).banks, asked)
    }

    // Marks the steps of the menu that begin with wrong letters. `zip` of marks and steps was tried: behind its loop nothing is known of the
    // marks.
    pub fn mark_letters(self, changing: &mut [u8], asked: [Option<u32>; 8], marks: &mut [bool])
        ensures { MarkedSteps self.entry.layout (written_state self.entry.layout self.entry.settings self.entry.fixed.now changing.old self.entry.writes.now)
            self.entry.menu.now asked marks.new }
    {
        let mut board = self.write(&mut *changing).board;
        let mut rest = self.menu;
        for mark in marks.iter_mut() {
            let [step, behind @ ..] = rest else {
                return;
            };
            *mark = self.wrong_letters(board, asked);
            board = play_step(board, self.fixed, &mut *changing, *step);
            rest = behind;
        }
    }
}
