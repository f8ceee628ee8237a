// A scene that was played: its letters, its window, and the sweep of its menu.
use crate::letters::{When, are_asked};
use crate::scene::{NoBoard, Scene};
use crate::totals::{Count, Judged, Moments, Outcome};
use scene_board::Ended;
use scene_moments::moment::{came_after, came_alone, clocks_due};
use scene_moments::{Came, Mark, Screen, Verdict, Window};
use scene_report::Told;
use scene_report::sweeping::sweep_clocks;
use scene_steps::letters::slots_right;
use scene_sweep::{MenuSweep, Sweep};
use text_output::{Output, put};

// A scene behind its writes, without its menu.
#[derive(Clone, Copy)]
pub struct Played<'a> {
    pub scene: &'a Scene<'a>,
    pub ended: Ended,
    // The line that is right is the one asked, or where none is, that of the interrupt without the menu.
    pub window: Window,
    // What the interrupt means for the window if the menu does not run.
    pub verdict: Verdict,
}

// Whether a menu is right, and over how many moments it was swept, if it was.
#[derive(Clone, Copy)]
struct Checked {
    right: bool,
    moments: Option<Moments>,
}

impl Checked {
    fn unswept(right: bool) -> Checked {
        Checked {
            right,
            moments: None,
        }
    }
}

impl<'a> Played<'a> {
    pub(crate) fn new(scene: &'a Scene<'a>, ended: Ended) -> Played<'a> {
        let irq = ended.written.irq;
        let alone = came_alone(irq);
        let screen = Screen::at(scene.at, irq.prescalar_counter);
        let comes = screen.line_of(alone.set().unwrap_or(0));
        let window = Window {
            screen,
            line: scene.window.unwrap_or(comes),
            unmasked: scene.unmasked,
        };
        let verdict = window.verdict_of(alone);
        Played {
            scene,
            ended,
            window,
            verdict,
        }
    }

    pub(crate) fn sweep(self) -> MenuSweep<'a> {
        let sweep = Sweep {
            window: self.window,
            revision_b: self.scene.revision_b(),
        };
        MenuSweep {
            sweep,
            menu: self.scene.menu,
        }
    }

    // The window asked, or only where the interrupt comes.
    fn tell_line(self, out: &mut Output) {
        match (self.scene.window, self.verdict) {
            (Some(_), verdict) => put!(out; "  window: {}", Told(verdict)),
            (None, Verdict::Right(line)) => put!(out; "  interrupt: line {line}"),
            (None, verdict) => put!(out; "  interrupt: {}", Told(verdict)),
        }
    }

    // The same with the clock behind it, or that the interrupt was pending already.
    fn tell_window(self, out: &mut Output) {
        self.tell_line(out);
        if self.ended.written.irq.irq_pending {
            put!(out; ", pending at the end of the writes\n");
        } else if let Some(clock) = came_alone(self.ended.written.irq).set() {
            put!(out; ", clock {clock}\n");
        } else {
            put!(out; "\n");
        }
    }

    // Whether an interrupt comes to nothing: it never comes, or a handler with interrupts masked clears it itself and leaves none
    // behind.
    fn is_nothing(self, came: Came) -> bool {
        match came {
            Came::Never => true,
            Came::On(_) | Came::Held(..) => false,
            Came::Lost(..) => !self.window.unmasked && !self.is_armed_behind(),
        }
    }

    // Whether an interrupt is pending or to come behind the menu.
    fn is_armed_behind(self) -> bool {
        let irq = self.ended.done.irq;
        irq.irq_pending || clocks_due(irq).is_some()
    }

    // A menu where no interrupt is to come. It must not arm one: it is played at the end of the writes.
    fn check_arming(self, out: &mut Output) -> Checked {
        let came = came_after(
            self.ended.written.irq,
            0,
            self.scene.revision_b(),
            self.scene.menu,
        );
        match came.set() {
            Some(clock) if !self.is_nothing(came) => {
                let line = self.window.screen.line_of(clock);
                put!(out;
                    "  menu: arms an interrupt where none was to come, on line {line}, clock {clock}\n"
                );
                Checked::unswept(false)
            }
            _ => {
                put!(out; "  menu: not swept, as no interrupt is to come\n");
                Checked::unswept(true)
            }
        }
    }

    fn check_menu(self, out: &mut Output) -> Result<Checked, NoBoard> {
        let irq = self.ended.written.irq;
        if self.scene.menu.is_empty() {
            return Ok(Checked::unswept(true));
        }
        if irq.irq_pending {
            put!(out; "  menu: not swept, as the interrupt is pending already\n");
            return Ok(Checked::unswept(true));
        }
        let Some(clocks) = clocks_due(irq) else {
            return Ok(self.check_arming(out));
        };
        let right = self.tell_inside(out, clocks)?;
        let swept = sweep_clocks(self.sweep(), irq, clocks, out);
        put!(out; "{swept}");
        let wrong = swept.tally.map_or(0, |tally| tally.count);
        let moments = Moments {
            swept: clocks,
            wrong,
        };
        Ok(Checked {
            right: right && wrong == 0,
            moments: Some(moments),
        })
    }

    // Whether what was asked without the menu, and of the letters behind it, is so. An empty menu leaves the slots as they are.
    fn is_right(self) -> bool {
        let asked = self.scene.asked;
        slots_right(self.ended.written.banks, asked)
            && slots_right(self.ended.done.banks, asked)
            && (self.scene.window.is_none() || self.verdict.mark() == Mark::Right)
    }

    // A menu that is not right was asked about. One that could not be tried, as the interrupt is pending already, leaves the scene
    // unasked.
    fn judged(self, menu: Checked) -> Judged {
        let scene = self.scene;
        let untried = self.ended.written.irq.irq_pending && !scene.menu.is_empty();
        let asked = scene.window.is_some() || are_asked(scene.asked) || menu.moments.is_some();
        if !(self.is_right() && menu.right) {
            Judged::Wrong
        } else if asked && !untried {
            Judged::Right
        } else {
            Judged::Unasked
        }
    }
}

// Tells what a scene came to that was played so.
pub(crate) fn check(scene: &Scene, ended: Ended, out: &mut Output) -> Result<Outcome, NoBoard> {
    let played = Played::new(scene, ended);
    When::AtEnd.tell(out, ended.written.banks, scene.asked);
    played.tell_window(out);
    played.tell_changes(out)?;
    scene.tell_unreached(out);
    if !scene.menu.is_empty() {
        When::AfterMenu.tell(out, ended.done.banks, scene.asked);
    }
    let menu = played.check_menu(out)?;
    let judged = played.judged(menu);
    put!(out; "  verdict: {judged}");
    if let Some(all) = menu.moments {
        put!(out; ", {}, {} wrong", Count::of_moments(u64::from(all.swept)), all.wrong);
    }
    put!(out; "\n");
    Ok(Outcome::Played(judged, menu.moments))
}
