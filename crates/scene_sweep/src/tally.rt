// The moments of a sweep that are wrong: how many, the first and the worst.
ghost use Rattle.std.specs.Prelude.{◌≡◌, ◌<◌};
ghost use Rattle.scene_sweep.specs.Tallies.{TalliedOn, Weighed, badness, is_wrong, weight};

use crate::runs::Run;
use scene_moments::verdict::{Seen, Verdict};

// A clock at which the menu is wrong, and what is seen there.
#[derive(Clone, Copy, PartialEq, Eq)]
pub struct Wrong {
    pub clock: u32,
    pub seen: Seen,
}

#[derive(Clone, Copy, PartialEq, Eq)]
pub struct Tally {
    pub count: u32,
    pub first: Wrong,
    pub worst: Wrong,
}

// How bad a verdict is, the worse the greater: by so many lines, or worse than any number of them.
#[derive(Clone, Copy, PartialEq, Eq, PartialOrd, Ord)]
enum Badness {
    Lines(u32),
    Lost,
    Never,
}

fn is_wrong(verdict: Verdict) -> bool
    ensures { result ≡ is_wrong verdict }
{
    !matches!(verdict, Verdict::Right(_))
}

impl Badness {
    fn of(verdict: Verdict) -> Badness
        ensures { (weight result ≡ badness verdict) × Weighed result }
    {
        match verdict {
            Verdict::Right(_) => Badness::Lines(0),
            Verdict::Early(_, off) | Verdict::Late(_, off) => Badness::Lines(off),
            Verdict::Lost(_) => Badness::Lost,
            Verdict::Never => Badness::Never,
        }
    }
}

// The tally of the moments before, if one of them is wrong, with a run that starts at clock `from`.
pub fn tallied(tally: Option<Tally>, from: u32, run: Run) -> Option<Tally>
    requires { from < run.to }
    ensures { TalliedOn tally from run result }
{
    if !is_wrong(run.first.verdict) {
        return tally;
    }
    let here = Wrong {
        clock: from,
        seen: run.first,
    };
    let clocks = run.to - from;
    let Some(known) = tally else {
        return Some(Tally {
            count: clocks,
            first: here,
            worst: here,
        });
    };
    let worse = Badness::of(known.worst.seen.verdict) < Badness::of(run.first.verdict);
    Some(Tally {
        count: known.count.wrapping_add(clocks),
        first: known.first,
        worst: if worse { here } else { known.worst },
    })
}
