// What to change in a scene whose window is not right, and writes that reach nothing.
use crate::checking::Played;
use crate::scene::{NoBoard, Scene, Steps};
use registers::{IrqRegister, Register, decode};
use scene_moments::moment::clocks_due;
use scene_moments::{Mark, Verdict};
use scene_steps::Step;
use text_output::{Output, put};

// A step, with another byte where it writes the latch.
fn with_latch(step: Step, revision_b: bool, latch: u8) -> Step {
    match step {
        Step::Write(addr, _) => match decode(revision_b, addr) {
            Some(Register::OfIrq(IrqRegister::Reload)) => Step::Write(addr, latch),
            _ => step,
        },
        _ => step,
    }
}

// The address of a write that reaches neither a register nor PRG RAM.
fn unreached(step: Step, revision_b: bool) -> Option<u16> {
    match step {
        Step::Write(addr, _) => match decode(revision_b, addr) {
            None if addr < 0x6000 || 0x8000 <= addr => Some(addr),
            _ => None,
        },
        _ => None,
    }
}

impl Scene<'_> {
    // Whether the other revision would arm the counter with the same writes.
    fn armed_by_other(&self) -> Result<bool, NoBoard> {
        let ended = self.play_other()?;
        Ok(clocks_due(ended.written.irq).is_some())
    }

    // Why the interrupt never comes.
    fn tell_never(&self, out: &mut Output) -> Result<(), NoBoard> {
        if self.armed_by_other()? {
            let other = self.other_revision();
            put!(out; "  change: revision {other} would arm it with the same writes\n");
        } else {
            put!(out;
                "  change: the counter is off: bit 1 of control is clear, or acknowledge or reset turned it off\n"
            );
        }
        Ok(())
    }

    // The first address that reaches nothing, of the writes or else of the menu.
    pub(crate) fn tell_unreached(&self, out: &mut Output) {
        let revision_b = self.revision_b();
        let mut steps = self.writes.iter().chain(self.menu.iter());
        if let Some(addr) = steps.find_map(|step| unreached(*step, revision_b)) {
            put!(out; "  reaches no register: {addr:04X}\n");
        }
    }

    // The writes, with another byte for the latch.
    fn latched(&self, latch: u8) -> Steps {
        let revision_b = self.revision_b();
        let mut writes = Steps::new();
        for step in self.writes {
            // As many as the row has, so there is room.
            let _ = writes.push(with_latch(*step, revision_b, latch));
        }
        writes
    }

    // Whether the writes with another latch put the interrupt on the line asked.
    fn is_right_with(&self, latch: u8) -> Result<bool, NoBoard> {
        let writes = self.latched(latch);
        let ended = self.play(writes.as_slice(), &[])?;
        let played = Played::new(self, ended);
        Ok(!ended.written.irq.irq_pending && played.verdict.mark() == Mark::Right)
    }
}

impl Played<'_> {
    // A latch so many lines nearer or farther, if it puts the interrupt on the line asked: the writes are played with it.
    fn tell_other_latch(self, out: &mut Output, line: u32, asked: u32) -> Result<(), NoBoard> {
        let latch = (line
            .wrapping_sub(asked)
            .wrapping_add(u32::from(self.ended.written.irq.reload))
            % 256) as u8;
        if self.scene.is_right_with(latch)? {
            put!(out; "  change: F000={latch:02X} would put it on line {asked}\n");
        }
        Ok(())
    }

    // The latch that arms for a line, for writes that end with control in line mode: 256 less the lines to go.
    fn tell_latch(self, out: &mut Output, line: u32) {
        let lines = line.wrapping_sub(u32::from(self.window.screen.line));
        match 256u32.checked_sub(lines) {
            Some(latch) if lines != 0 => {
                put!(out;
                    "  change: for line {line} the latch is ${latch:02X} (F000={latch:02X}): 256 less the lines to go\n"
                );
            }
            _ => {}
        }
    }

    // What to change, if a window is asked and the interrupt does not come on it.
    pub(crate) fn tell_changes(self, out: &mut Output) -> Result<(), NoBoard> {
        let Some(asked) = self.scene.window else {
            return Ok(());
        };
        if self.ended.written.irq.irq_pending {
            return Ok(());
        }
        match self.verdict {
            Verdict::Right(_) => Ok(()),
            Verdict::Early(line, _) | Verdict::Late(line, _) | Verdict::Lost(line) => {
                self.tell_other_latch(out, line, asked)
            }
            Verdict::Never => {
                self.scene.tell_never(out)?;
                self.tell_latch(out, asked);
                Ok(())
            }
        }
    }
}
