// An interrupt that comes while the menu waits meets the letters that the menu has written so far.
use crate::checking::Played;
use crate::letters::{When, are_asked};
use crate::scene::NoBoard;
use scene_steps::Step;
use scene_sweep::Met;
use text_output::Output;

impl Played<'_> {
    // The moments that meet a step with a mark. Without a step that waits and has one there are none.
    fn met(self, clocks: u32, marks: &[bool]) -> Option<Met> {
        let mut steps = self.scene.menu.iter().zip(marks);
        if steps.any(|(step, marked)| *marked && matches!(step, Step::Clocks(_))) {
            return self
                .sweep()
                .letters_met(self.ended.written.irq, clocks, marks);
        }
        None
    }

    // The slots that are wrong where the first such interrupt comes. Hands back whether there is none.
    pub(crate) fn tell_inside(self, out: &mut Output, clocks: u32) -> Result<bool, NoBoard> {
        let scene = self.scene;
        if !are_asked(scene.asked) {
            return Ok(true);
        }
        let marks = scene.marks()?;
        let Some(met) = self.met(clocks, &marks) else {
            return Ok(true);
        };
        let begun = scene.menu.get(..met.step).unwrap_or(scene.menu);
        let ended = scene.play(scene.writes, begun)?;
        When::Inside(met).tell_wrong(out, ended.done.banks, scene.asked);
        Ok(false)
    }
}
