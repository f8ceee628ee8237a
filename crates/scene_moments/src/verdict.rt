// What the interrupt's clock means for the window.
ghost use Rattle.std.specs.Prelude.{◌≡◌, Some};
ghost use Rattle.scene_moments.specs.Verdicts.{counted_of, line_told, lost_on, mark_of, mark_text, on_line, seen_as, taken_on, verdict_of};

use crate::lines::Screen;
use crate::moment::Came;
use std::fmt;

// How a moment is marked, the worse the greater.
#[derive(Clone, Copy, PartialEq, Eq, PartialOrd, Ord)]
pub enum Mark {
    Right,
    Early,
    Late,
    Lost,
    Never,
}

// As a bar shows it.
impl fmt::Display for Mark {
    ghost output = { λ mark. Some (mark_text mark) };

    fn fmt<W: fmt::Write>(&self, f: &mut fmt::Formatter<W>) -> fmt::Result {
        match self {
            Mark::Right => f.write_str("."),
            Mark::Early => f.write_str("<"),
            Mark::Late => f.write_str(">"),
            Mark::Lost => f.write_str("!"),
            Mark::Never => f.write_str("x"),
        }
    }
}

// The interrupt's line, and by how many lines it is early or late.
#[derive(Clone, Copy, PartialEq, Eq)]
pub enum Verdict {
    Right(u32),
    Early(u32, u32),
    Late(u32, u32),
    Lost(u32),
    Never,
}

impl Verdict {
    pub fn mark(self) -> Mark
        ensures { result ≡ mark_of self }
    {
        match self {
            Verdict::Right(_) => Mark::Right,
            Verdict::Early(..) => Mark::Early,
            Verdict::Late(..) => Mark::Late,
            Verdict::Lost(_) => Mark::Lost,
            Verdict::Never => Mark::Never,
        }
    }

    // The interrupt's line, if it comes.
    pub fn line(self) -> Option<u32>
        ensures { result ≡ line_told self }
    {
        match self {
            Verdict::Right(line) | Verdict::Lost(line) => Some(line),
            Verdict::Early(line, _) | Verdict::Late(line, _) => Some(line),
            Verdict::Never => None,
        }
    }
}

// What is seen of a moment: its verdict, and the clocks that counts of its interrupt and on which it is cleared, if there are such.
#[derive(Clone, Copy, PartialEq, Eq)]
pub struct Seen {
    pub verdict: Verdict,
    pub set: Option<u32>,
    pub cleared: Option<u32>,
}

// Where the writes end, the line on which the interrupt must come, and whether the handler leaves interrupts open.
#[derive(Clone, Copy, PartialEq, Eq)]
pub struct Window {
    pub screen: Screen,
    pub line: u32,
    pub unmasked: bool,
}

impl Window {
    fn on_line(self, line: u32) -> Verdict
        ensures { result ≡ on_line line self.line }
    {
        if line < self.line {
            Verdict::Early(line, self.line - line)
        } else if self.line < line {
            Verdict::Late(line, line - self.line)
        } else {
            Verdict::Right(line)
        }
    }

    // An interrupt that the handler cleared. A handler that leaves interrupts open had taken it by then.
    fn lost_on(self, line: u32) -> Verdict
        ensures { result ≡ lost_on self.unmasked line self.line }
    {
        if self.unmasked {
            self.on_line(line)
        } else {
            Verdict::Lost(line)
        }
    }

    // The clock on which the console takes an interrupt that is pending at the handler's end.
    fn taken_on(self, set: u32, end: u32) -> u32
        ensures { result ≡ taken_on self.unmasked set end }
    {
        if self.unmasked { set } else { end }
    }

    // What an interrupt means.
    pub fn verdict_of(self, came: Came) -> Verdict
        ensures { result ≡ verdict_of self came }
    {
        match came {
            Came::Never => Verdict::Never,
            Came::On(clock) => self.on_line(self.screen.line_of(clock)),
            Came::Held(set, end) => self.on_line(self.screen.line_of(self.taken_on(set, end))),
            Came::Lost(set, _) => self.lost_on(self.screen.line_of(set)),
        }
    }

    // The clock that counts: on which the console takes the interrupt, or of one that is lost on which it is set.
    pub fn counted_of(self, came: Came) -> Option<u32>
        ensures { result ≡ counted_of self.unmasked came }
    {
        match came {
            Came::Never => None,
            Came::On(clock) => Some(clock),
            Came::Held(set, end) => Some(self.taken_on(set, end)),
            Came::Lost(set, _) => Some(set),
        }
    }

    // What is seen of a moment.
    pub fn seen_as(self, came: Came) -> Seen
        ensures { result ≡ seen_as self came }
    {
        Seen {
            verdict: self.verdict_of(came),
            set: self.counted_of(came),
            cleared: came.cleared(),
        }
    }
}
