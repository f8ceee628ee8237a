// What is printed of a verdict, and of a sweep.
#![tactic(auto)]

pub mod sweeping;

use scene_moments::{Mark, Screen, Seen, Verdict};
use scene_sweep::{Run, Span, Wrong};
use std::fmt;
use std::fmt::{Display, Formatter};

// By how many lines: `one`, or the number.
#[derive(Clone, Copy)]
struct Lines(u32);

impl Display for Lines {
    fn fmt<W: fmt::Write>(&self, f: &mut Formatter<W>) -> fmt::Result {
        match self.0 {
            1 => write!(f, "one"),
            off => write!(f, "{off}"),
        }
    }
}

// `line 12 ok`, `line 13, one late`, `never`.
#[derive(Clone, Copy)]
pub struct Told(pub Verdict);

impl Display for Told {
    fn fmt<W: fmt::Write>(&self, f: &mut Formatter<W>) -> fmt::Result {
        match self.0 {
            Verdict::Right(line) => write!(f, "line {line} ok"),
            Verdict::Early(line, off) => write!(f, "line {}, {} early", line, Lines(off)),
            Verdict::Late(line, off) => write!(f, "line {}, {} late", line, Lines(off)),
            Verdict::Lost(line) => write!(f, "line {line}, lost"),
            Verdict::Never => write!(f, "never"),
        }
    }
}

// `clock 228`, `clocks 228..287`.
#[derive(Clone, Copy)]
struct Clocks(Span);

impl Display for Clocks {
    fn fmt<W: fmt::Write>(&self, f: &mut Formatter<W>) -> fmt::Result {
        let Span { least, most } = self.0;
        if least == most {
            write!(f, "clock {least}")
        } else {
            write!(f, "clocks {least}..{most}")
        }
    }
}

// An interrupt that the menu cleared: the clocks on which it is set and cleared.
#[derive(Clone, Copy)]
struct Lost(Span, Span);

impl Display for Lost {
    fn fmt<W: fmt::Write>(&self, f: &mut Formatter<W>) -> fmt::Result {
        write!(
            f,
            "set on {} inside the menu, cleared by it on {}",
            Clocks(self.0),
            Clocks(self.1)
        )
    }
}

// What is seen of a moment.
#[derive(Clone, Copy)]
struct Sight(Seen);

impl Display for Sight {
    fn fmt<W: fmt::Write>(&self, f: &mut Formatter<W>) -> fmt::Result {
        match self.0 {
            Seen {
                verdict: Verdict::Lost(_),
                set: Some(set),
                cleared: Some(cleared),
            } => write!(f, "{}", Lost(Span::of(set), Span::of(cleared))),
            seen => write!(f, "{}", Told(seen.verdict)),
        }
    }
}

// A run of clocks, from its first to its last, in a sweep from where the writes end. Without the menu the interrupt comes on
// clock `alone`.
#[derive(Clone, Copy)]
pub struct Stretch {
    pub from: u32,
    pub last: u32,
    pub run: Run,
    pub screen: Screen,
    pub alone: u32,
}

impl Stretch {
    // How many clocks later than without the menu, negative for earlier.
    fn later(self, clock: u32) -> i64 {
        i64::from(clock) - i64::from(self.alone)
    }

    // A run's drift, and how many clocks earlier and later would be another line.
    fn write_drift<W: fmt::Write>(self, f: &mut Formatter<W>, set: Span) -> fmt::Result {
        write!(f, "; drift {}", self.later(set.least))?;
        if set.least != set.most {
            write!(f, "..{}", self.later(set.most))?;
        }
        write!(
            f,
            ", margin -{} +{}",
            self.screen.early_margin(set.least),
            self.screen.late_margin(set.most)
        )
    }

    // What all moments of a run have.
    fn write_all<W: fmt::Write>(self, f: &mut Formatter<W>) -> fmt::Result {
        match (self.run.first.verdict, self.run.set, self.run.cleared) {
            (Verdict::Lost(_), Some(set), Some(cleared)) => write!(f, "{}", Lost(set, cleared)),
            (verdict, Some(set), _) => {
                write!(f, "{}", Told(verdict))?;
                self.write_drift(f, set)
            }
            (verdict, None, _) => write!(f, "{}", Told(verdict)),
        }
    }
}

// A word heads the first run; the others stand below it.
impl Display for Stretch {
    fn fmt<W: fmt::Write>(&self, f: &mut Formatter<W>) -> fmt::Result {
        let head = if self.from == 0 {
            "  clocks "
        } else {
            "         "
        };
        write!(f, "{}{}..{}: ", head, self.from, self.last)?;
        self.write_all(f)?;
        writeln!(f, "")
    }
}

// A moment that is wrong.
#[derive(Clone, Copy)]
struct Moment(Wrong);

impl Display for Moment {
    fn fmt<W: fmt::Write>(&self, f: &mut Formatter<W>) -> fmt::Result {
        write!(f, "{}: {}", self.0.clock, Sight(self.0.seen))
    }
}

// The bar of 64 columns.
#[derive(Clone, Copy)]
struct Bar([Mark; 64]);

impl Display for Bar {
    fn fmt<W: fmt::Write>(&self, f: &mut Formatter<W>) -> fmt::Result {
        write!(f, "  [")?;
        for mark in self.0.iter() {
            write!(f, "{mark}")?;
        }
        write!(f, "]")
    }
}
