// The screen line of a clock, and how far it is from another line.
ghost use Rattle.std.specs.Prelude.{◌≡◌, ◌<◌};
ghost use Rattle.scene_moments.specs.Lines.{dot_at, dots_gone, early_margin, late_margin, line_of, screen_at, screen_from};

use irq::{LINE, STEP};
use scene_steps::picture::At;

// Where the writes end: the line, and the dots of it that have gone by.
#[derive(Clone, Copy, PartialEq, Eq)]
pub struct Screen {
    pub line: u16,
    pub dots: u16,
}

// A prescaler of 0 has a whole line before it.
fn dots_gone(prescaler: u16) -> u16
    ensures { result ≡ dots_gone prescaler }
{
    if prescaler == 0 {
        0
    } else {
        LINE.saturating_sub(prescaler)
    }
}

impl Screen {
    // Where no dot is given, the prescaler at the end of the writes says how much of the line has gone.
    fn from_prescaler(line: u16, prescaler: u16) -> Screen
        ensures { result ≡ screen_from line prescaler }
    {
        Screen {
            line,
            dots: dots_gone(prescaler),
        }
    }

    // Where the writes end by the cell `at`. Without it lines count from 0. `At` holds any u32s, and u16s would ask more of callers.
    pub fn at(at: Option<At>, prescaler: u16) -> Screen
        ensures { result ≡ screen_at at prescaler }
    {
        match at {
            None => Screen::from_prescaler(0, prescaler),
            Some(At::Line(line)) => Screen::from_prescaler((line % 65536) as u16, prescaler),
            Some(At::Dot(line, dot)) => Screen {
                line: (line % 65536) as u16,
                dots: (dot % 65536) as u16,
            },
        }
    }

    // The line of a clock, counted from the end of the writes. Lines go by whether the counter is armed or not.
    #[tactic(auto, unfolding(crate::specs::Lines::line_of))]
    pub fn line_of(self, clock: u32) -> u32
        ensures { result ≡ line_of self clock }
    {
        let fallen = u64::from(STEP) * u64::from(clock) + u64::from(self.dots);
        let lines = (fallen / u64::from(LINE)) as u32;
        u32::from(self.line) + lines
    }

    // The dot of its line that a clock ends on.
    fn dot_at(self, clock: u32) -> u32
        ensures { (result ≡ dot_at self clock) × (result < 341) }
    {
        let fallen = u64::from(STEP) * u64::from(clock) + u64::from(self.dots);
        (fallen % u64::from(LINE)) as u32
    }

    // The fewest clocks by which an interrupt would have to come earlier to be on another line.
    #[tactic(auto, unfolding(crate::specs::Lines::early_margin))]
    pub fn early_margin(self, clock: u32) -> u32
        ensures { result ≡ early_margin self clock }
    {
        self.dot_at(clock) / u32::from(STEP) + 1
    }

    // The fewest by which it would have to come later.
    #[tactic(auto, unfolding(crate::specs::Lines::late_margin))]
    pub fn late_margin(self, clock: u32) -> u32
        ensures { result ≡ late_margin self clock }
    {
        (u32::from(LINE) - self.dot_at(clock) + 2) / u32::from(STEP)
    }
}
