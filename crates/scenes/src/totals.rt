// What rows come to, and how many came to what.
use std::fmt;

// Whether a scene is as its row asks.
#[derive(Clone, Copy, PartialEq, Eq)]
pub enum Judged {
    Wrong,
    Right,
    // The row asks nothing: no window, no letters, and no sweep.
    Unasked,
}

impl fmt::Display for Judged {
    fn fmt<W: fmt::Write>(&self, f: &mut fmt::Formatter<W>) -> fmt::Result {
        f.write_str(match self {
            Judged::Wrong => "wrong",
            Judged::Right => "right",
            Judged::Unasked => "nothing asked",
        })
    }
}

// How many moments a menu was swept over, and how many of them were wrong.
#[derive(Clone, Copy)]
pub struct Moments {
    pub swept: u32,
    pub wrong: u32,
}

// What a row came to.
#[derive(Clone, Copy)]
pub enum Outcome {
    Blank,
    Bad,
    // The moments, where a menu was swept.
    Played(Judged, Option<Moments>),
}

// A number of what has one name for one and another for several.
#[derive(Clone, Copy)]
pub struct Count {
    pub number: u64,
    pub one: &'static str,
    pub several: &'static str,
}

impl Count {
    // So many moments.
    pub(crate) fn of_moments(number: u64) -> Count {
        Count {
            number,
            one: "moment",
            several: "moments",
        }
    }
}

impl fmt::Display for Count {
    fn fmt<W: fmt::Write>(&self, f: &mut fmt::Formatter<W>) -> fmt::Result {
        let number = self.number;
        let name = if number == 1 { self.one } else { self.several };
        write!(f, "{number} {name}")
    }
}

// A sheet can have more moments than 32 bits count.
#[derive(Clone, Copy, Default)]
pub struct Totals {
    scenes: u64,
    right: u64,
    wrong: u64,
    unasked: u64,
    moments: u64,
    missed: u64,
    bad: u64,
}

fn raise(counter: &mut u64, more: u64) {
    *counter = counter.saturating_add(more);
}

impl Totals {
    // How many moments were swept.
    pub(crate) fn swept(&self) -> u64 {
        self.moments
    }

    // Counts the next row.
    pub(crate) fn add(&mut self, row: Outcome) {
        match row {
            Outcome::Blank => {}
            Outcome::Bad => raise(&mut self.bad, 1),
            Outcome::Played(judged, moments) => self.add_scene(judged, moments),
        }
    }

    fn add_scene(&mut self, judged: Judged, moments: Option<Moments>) {
        raise(&mut self.scenes, 1);
        match judged {
            Judged::Wrong => raise(&mut self.wrong, 1),
            Judged::Right => raise(&mut self.right, 1),
            Judged::Unasked => raise(&mut self.unasked, 1),
        }
        if let Some(moments) = moments {
            raise(&mut self.moments, u64::from(moments.swept));
            raise(&mut self.missed, u64::from(moments.wrong));
        }
    }
}

impl fmt::Display for Totals {
    fn fmt<W: fmt::Write>(&self, f: &mut fmt::Formatter<W>) -> fmt::Result {
        let scenes = Count {
            number: self.scenes,
            one: "scene",
            several: "scenes",
        };
        let moments = Count::of_moments(self.moments);
        let bad = Count {
            number: self.bad,
            one: "bad row",
            several: "bad rows",
        };
        let right = self.right;
        let wrong = self.wrong;
        let unasked = self.unasked;
        write!(
            f,
            "{scenes}, {right} right, {wrong} wrong, {unasked} with nothing asked, "
        )?;
        let missed = self.missed;
        write!(f, "{moments} swept, {missed} wrong\n{bad}\n")
    }
}
